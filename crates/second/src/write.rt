// Writing: the payload's bits and the filler, and then, class by class, the check cells by search.
ghost use Rattle.std.specs.Prelude.{◌<◌, ◌≤◌, IfErr};
ghost use Rattle.second.specs.Declined.{IsUnshaded};

use crate::answer;
use crate::answer::{Answer, Buffer};
use crate::declined::Declined;
use crate::lawful::lawful;
use crate::layout::{Layout, lay_out};
use lattice::shape::Shape;

// The filler, as a byte behind the payload: its first bits stand in the cells that are left over, of which there are at most 7.
// Document 02 has 1, 0, 1, 0 and on.
pub const PATTERN: u8 = 0xaa;

// Document 01 has zeros, which are read too.
pub const ZEROS: u8 = 0;

// Bit k of a payload of so many bytes with the filler behind it, the highest bit of a byte first.
fn bit(payload: &Buffer, bytes: usize, filler: u8, k: usize) -> u8
    requires { k < 512 }
{
    let q = k / 8;
    let byte = if q < bytes { payload[q] } else { filler };
    (byte >> (7 - k % 8)) % 2
}

// The cells that hold no check, in byte order; a check cell is 0 for now.
fn lay(layout: &Layout, payload: &Buffer, bytes: usize, filler: u8, field: &mut Buffer) {
    let mut k = 0;
    for (i, entry) in layout.entries().iter().enumerate() {
        if entry.is_check {
            field[i] = 0;
        } else {
            field[i] = bit(payload, bytes, filler, k);
            k += 1;
        }
    }
}

// The next filling of the check cells of class a, as binary digits count up.
fn fill_next(layout: &Layout, a: u16, field: &mut Buffer) {
    for (i, entry) in layout.entries().iter().enumerate() {
        if entry.class == a && entry.is_check {
            if field[i] == 0 {
                field[i] = 1;
                return;
            }
            field[i] = 0;
        }
    }
}

// A class has at most 10 check cells, each 0 or 1.
const FILLINGS: usize = 1024;

// Tries every filling of the check cells of class a until the class is lawful.
fn settle(layout: &Layout, a: u16, field: &mut Buffer) {
    for _ in 0..FILLINGS {
        if lawful(layout, a, field) {
            return;
        }
        fill_next(layout, a, field);
    }
}

// A field with the payload's bits, the filler and the checks of all classes, where the operation does not decline.
fn written(
    shape: Shape,
    payload: &Buffer,
    bytes: usize,
    filler: u8,
    before: Buffer,
    cells: usize,
) -> Result<Buffer, Declined>
    ensures { IfErr result IsUnshaded }
{
    let laid = lay_out(shape)?;
    laid.accept(laid.capacity / 8, bytes, cells)?;
    let mut field = before;
    lay(&laid.layout, payload, bytes, filler, &mut field);
    for a in 0..laid.classes {
        settle(&laid.layout, a, &mut field);
    }
    Ok(field)
}

// Writes the first `bytes` of a payload into the first `cells` of a field, where those are the lengths of the plan, with the
// first bits of a filler in the cells past the payload. What lies behind the field stays.
pub fn write(
    shape: Shape,
    payload: Buffer,
    bytes: usize,
    filler: u8,
    field: Buffer,
    cells: usize,
) -> Answer
    ensures { result.number ≤ 11 }
{
    answer::stored(written(shape, &payload, bytes, filler, field, cells), field)
}
