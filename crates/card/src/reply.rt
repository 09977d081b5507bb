// Whole answers: each gives its length, and writes its text at the front of the output where that is long enough.
ghost use Rattle.std.specs.Prelude.{◌++◌, ◌≡◌, ◌≤◌, length};
ghost use Rattle.lattice.specs.Refusal.{refusal_number};
ghost use Rattle.card.specs.Text.{classes_key, mended_key, payload_text, field_text, refusal_text};
ghost use Rattle.card.specs.Card.{max_card_bytes, FieldCells, CardHeader};
ghost use Rattle.card.specs.Working.{HasRoom, Printed, Answered, head_text};

use crate::header::{Header, header_length, put_header};
use crate::print::{number_line_length, put_number_line, put_payload, put_rows};
use lattice::refusal::Refusal;

// A refusal.
pub fn refuse(why: Refusal, output: &mut [u8]) -> usize
    ensures { Answered (refusal_text (refusal_number why)) output.old output.new result }
{
    let number = why.number();
    let length = number_line_length(b"refusal=", number);
    if output.len() < length {
        return length;
    }
    put_number_line(output, 0, b"refusal=", number)
}

// The length of the first lines and of a line key=number behind them.
fn head_length(header: Header, key: &[u8], n: usize) -> usize
    ensures { result ≡ length (head_text header key.now n) }
{
    let lines = header_length(header);
    lines + number_line_length(key, n)
}

// Writes the first lines and a line key=number behind them.
fn put_head(out: &mut [u8], header: Header, key: &[u8], n: usize) -> usize
    requires { HasRoom out.old 0 (head_text header key.now n) }
    ensures { Printed out.old out.new 0 (head_text header key.now n) result }
{
    let next = put_header(out, 0, header);
    put_number_line(out, next, key, n)
}

// The answer to a payload: its field.
pub(crate) fn reply_field(header: Header, classes: usize, cells: &[u8], output: &mut [u8]) -> usize
    requires card_header { CardHeader header }
    requires field_cells { FieldCells header cells.now }
    ensures { Answered (head_text header classes_key classes ++ field_text header cells.now)
        output.old output.new result }
{
    let width = header.columns;
    let lines = header.planes * header.rows;
    let length = head_length(header, b"classes=", classes) + lines * (width + 5);
    if output.len() < length {
        return length;
    }
    let next = put_head(output, header, b"classes=", classes);
    put_rows(output, next, width, lines, cells)
}

// The answer to rows: the number of cells mended, and the payload.
pub(crate) fn reply_payload(
    header: Header,
    mended: usize,
    payload: &[u8],
    output: &mut [u8],
) -> usize
    requires { length payload.now ≤ max_card_bytes }
    ensures { Answered (head_text header mended_key mended ++ payload_text payload.now)
        output.old output.new result }
{
    let length = head_length(header, b"mended=", mended) + 9 + 2 * payload.len();
    if output.len() < length {
        return length;
    }
    let next = put_head(output, header, b"mended=", mended);
    put_payload(output, next, payload)
}
