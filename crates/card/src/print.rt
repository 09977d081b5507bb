// Writers of the parts of an answer: each writes its text into a buffer at a position and gives the position behind it. A
// struct of the buffer and the position is no plainer: each clause would also have to say that it still holds the same buffer.
ghost use Rattle.std.specs.Prelude.{[], ◌∷◌, ◌≡◌, ◌+◌, ◌*◌, ◌<◌, length};
ghost use Rattle.codec.specs.Field.{field_of, Received};
ghost use Rattle.card.specs.Text.{digits, digit_count, number_line, hex_digit, hex_text, payload_text, cells_text, row_text};
ghost use Rattle.card.specs.Text.{rows_text};
ghost use Rattle.card.specs.Working.{HasRoom, Printed};

// Writes one byte.
fn put_byte(out: &mut [u8], at: usize, byte: u8) -> usize
    requires { HasRoom out.old at (byte ∷ []) }
    ensures { Printed out.old out.new at (byte ∷ []) result }
{
    out[at] = byte;
    at + 1
}

// Writes the bytes given.
fn put_bytes(out: &mut [u8], at: usize, text: &[u8]) -> usize
    requires { HasRoom out.old at text.now }
    ensures { Printed out.old out.new at text.now result }
{
    let end = at + text.len();
    out[at..end].copy_from_slice(text);
    end
}

// The number of decimal digits of a number below 100,000; 5 for any above.
#[tactic(auto, unfolding(crate::specs::Text::digit_count))]
fn digit_count(n: usize) -> usize
    ensures { result ≡ digit_count n }
{
    match n {
        0..=9 => 1,
        10..=99 => 2,
        100..=999 => 3,
        1000..=9999 => 4,
        _ => 5,
    }
}

// Writes the last k decimal digits of a number.
fn put_digits(out: &mut [u8], at: usize, k: usize, n: usize) -> usize
    requires { HasRoom out.old at (digits k n) }
    ensures { Printed out.old out.new at (digits k n) result }
{
    if k == 0 {
        return at;
    }
    let next = put_digits(out, at, k - 1, n / 10);
    put_byte(out, next, b'0' + (n % 10) as u8)
}

// Writes a line key=number.
pub(crate) fn put_number_line(out: &mut [u8], at: usize, key: &[u8], n: usize) -> usize
    requires { HasRoom out.old at (number_line key.now n) }
    ensures { Printed out.old out.new at (number_line key.now n) result }
{
    let number = put_bytes(out, at, key);
    let end = put_digits(out, number, digit_count(n), n);
    put_byte(out, end, b'\n')
}

// The length of a line key=number.
pub fn number_line_length(key: &[u8], n: usize) -> usize
    ensures { result ≡ length (number_line key.now n) }
{
    key.len() + digit_count(n) + 1
}

// The lower-case hexadecimal digit of a value.
fn hex_digit(value: u8) -> u8
    requires { value < 16 }
    ensures { result ≡ hex_digit value }
{
    if value < 10 { b'0' + value } else { 87 + value }
}

// Writes bytes in hexadecimal.
fn put_hex(out: &mut [u8], at: usize, payload: &[u8]) -> usize
    requires { HasRoom out.old at (hex_text payload.now) }
    ensures { Printed out.old out.new at (hex_text payload.now) result }
{
    let mut next = at;
    for &byte in payload {
        out[next] = hex_digit(byte / 16);
        out[next + 1] = hex_digit(byte % 16);
        next += 2;
    }
    next
}

// Writes the line `payload`.
pub(crate) fn put_payload(out: &mut [u8], at: usize, payload: &[u8]) -> usize
    requires { HasRoom out.old at (payload_text payload.now) }
    ensures { Printed out.old out.new at (payload_text payload.now) result }
{
    let digits = put_bytes(out, at, b"payload=");
    let end = put_hex(out, digits, payload);
    put_byte(out, end, b'\n')
}

// Writes the digits of cells.
fn put_cells(out: &mut [u8], at: usize, cells: &[u8]) -> usize
    requires has_room { HasRoom out.old at (cells_text cells.now) }
    requires received { Received (field_of cells.now) (length cells.now) }
    ensures { Printed out.old out.new at (cells_text cells.now) result }
{
    for (i, cell) in cells.iter().enumerate() {
        out[at + i] = b'0' + *cell;
    }
    at + cells.len()
}

// Writes a line `row`.
fn put_row(out: &mut [u8], at: usize, cells: &[u8]) -> usize
    requires has_room { HasRoom out.old at (row_text cells.now) }
    requires received { Received (field_of cells.now) (length cells.now) }
    ensures { Printed out.old out.new at (row_text cells.now) result }
{
    let digits = put_bytes(out, at, b"row=");
    let end = put_cells(out, digits, cells);
    put_byte(out, end, b'\n')
}

// Writes rows of cells, plane after plane. By index and not by chunks, since rows of no cells are rows too.
pub(crate) fn put_rows(out: &mut [u8], at: usize, width: usize, lines: usize, cells: &[u8]) -> usize
    requires has_room { HasRoom out.old at (rows_text width lines cells.now) }
    requires received { Received (field_of cells.now) (length cells.now) }
    requires cells_len { length cells.now ≡ lines * width }
    ensures { Printed out.old out.new at (rows_text width lines cells.now) result }
{
    let mut next = at;
    for r in 0..lines {
        let first = r * width;
        let behind = first + width;
        next = put_row(out, next, &cells[first..behind]);
    }
    next
}
