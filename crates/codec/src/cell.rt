// The cells of a field that is handed in: the values that they may have, and how one is read.
ghost use Rattle.std.specs.Prelude.{◌≡◌, ◌<◌, length};
ghost use Rattle.codec.specs.Field.{field_of, is_received, having};

// An erasure, the papers' unread cell.
pub const ERASED: u8 = 2;

// Is the byte a cell, or an erasure?
pub fn is_received(value: u8) -> bool
    ensures { result ≡ is_received value }
{
    value <= ERASED
}

// The cell with a byte number.
pub(crate) fn cell_value(field: &[u8], i: usize) -> u8
    requires { i < length field.now }
    ensures { result ≡ field_of field.now i }
{
    field[i]
}

// 1 where the cell with a byte number is a 1 cell, else 0.
pub(crate) fn one_at(field: &[u8], i: usize) -> u8
    requires { i < length field.now }
    ensures { result ≡ having 1 (field_of field.now) i }
{
    if field[i] == 1 { 1 } else { 0 }
}
