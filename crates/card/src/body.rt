// The lines after the header: one payload, or rows.
ghost use Rattle.std.specs.Prelude.{true, ◌≡◌, ◌+◌, ◌-◌, ◌*◌, ◌/◌, ◌≤◌, length};
ghost use Rattle.card.specs.Text.{payload_key};
ghost use Rattle.card.specs.Parse.{key_at, is_hex, hex_value, hex_count, payload_ok, payload_of, is_cell_digit, row_ok, rows_ok};
ghost use Rattle.card.specs.Parse.{cells_of_rows};
ghost use Rattle.card.specs.Working.{CellsFit};

use crate::scan::{byte_at, key_at};
use codec::cell::is_received;

// Is the line at a position a payload?
pub fn is_payload(text: &[u8], at: usize) -> bool
    ensures { result ≡ key_at payload_key text.now at }
{
    key_at(b"payload=", text, at)
}

// Is the byte a lower-case hexadecimal digit?
#[tactic(auto, unfolding(crate::specs::Parse::is_hex, lattice::specs::Range::in_range))]
fn is_hex(byte: u8) -> bool
    ensures { result ≡ is_hex byte }
{
    matches!(byte, b'0'..=b'9' | b'a'..=b'f')
}

// The value of a lower-case hexadecimal digit.
fn hex_value(byte: u8) -> u8
    requires { is_hex byte ≡ true }
    ensures { result ≡ hex_value byte }
{
    if byte < 58 { byte - 48 } else { byte - 87 }
}

// Is the rest from a position one line `payload` of whole bytes?
pub fn payload_ok(text: &[u8], at: usize) -> bool
    ensures { result ≡ payload_ok text.now at }
{
    if !is_payload(text, at) {
        return false;
    }
    let start = at + 8;
    if start >= text.len() {
        return false;
    }
    let last = text.len() - 1;
    if text[last] != b'\n' {
        return false;
    }
    let digits = last - start;
    if digits % 2 != 0 {
        return false;
    }
    (0..digits).all(|j| is_hex(byte_at(text, start, j)))
}

// The number of bytes of the payload that the rest is: all but the 8 of its key and the line feed are digits.
pub fn payload_bytes(text: &[u8], at: usize) -> usize
    ensures { result ≡ hex_count text.now at / 2 }
{
    text.len().saturating_sub(9).saturating_sub(at) / 2
}

// Stores the payload that the rest is.
pub(crate) fn fill_payload(text: &[u8], at: usize, payload: &mut [u8])
    requires at_value { payload_ok text.now at ≡ true }
    requires payload_len { length payload.old ≡ hex_count text.now at / 2 }
    ensures { payload.new ≡ payload_of text.now at }
{
    let start = at + 8;
    for (j, byte) in payload.iter_mut().enumerate() {
        let high = hex_value(byte_at(text, start, 2 * j));
        let low = hex_value(byte_at(text, start, 2 * j + 1));
        *byte = high * 16 + low;
    }
}

// Is the byte the digit of a cell: 0, 1, or 2 for an erased one?
#[tactic(auto, unfolding(crate::specs::Parse::is_cell_digit))]
fn is_cell_digit(byte: u8) -> bool
    ensures { result ≡ is_cell_digit byte }
{
    byte >= b'0' && is_received(byte - b'0')
}

// Is the line at a position a row of that width?
fn row_ok(text: &[u8], start: usize, width: usize) -> bool
    requires { start ≤ length text.now }
    ensures { result ≡ row_ok text.now start width 0 }
{
    if !key_at(b"row=", text, start) {
        return false;
    }
    let cells = start + 4;
    if !(0..width).all(|c| is_cell_digit(byte_at(text, cells, c))) {
        return false;
    }
    byte_at(text, cells, width) == b'\n'
}

// Is the rest from a position that many rows of that width? A row has 5 bytes beside its digits: the key and the line feed.
pub fn rows_ok(text: &[u8], at: usize, columns: u16, rows: u32) -> bool
    ensures { result ≡ rows_ok text.now at columns rows }
{
    if text.len() < at {
        return false;
    }
    let width = columns as usize;
    let lines = rows as usize;
    if text.len() - at != lines * (width + 5) {
        return false;
    }
    for r in 0..lines {
        if !row_ok(text, at + r * (width + 5), width) {
            return false;
        }
    }
    true
}

// The value of a cell's digit.
fn cell_value(byte: u8) -> u8
    ensures { result ≡ byte - 48 }
{
    byte.saturating_sub(b'0')
}

// Stores the cells of rows of that width.
pub(crate) fn fill_cells(text: &[u8], at: usize, width: usize, field: &mut [u8])
    requires { CellsFit text.now at width field.old }
    ensures { field.new ≡ cells_of_rows text.now at width (length field.old) }
{
    for (i, cell) in field.iter_mut().enumerate() {
        let start = at + i / width * (width + 5) + 4;
        *cell = cell_value(byte_at(text, start, i % width));
    }
}
