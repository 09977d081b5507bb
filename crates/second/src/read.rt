// Reading and mending, by search: class by class, the lawful class that agrees with every cell that was read, where some cells
// are unread, and else the lawful class that differs in at most one cell.
ghost use Rattle.std.specs.Prelude.{◌≤◌, IfErr, slice_index};
ghost use Rattle.second.specs.Declined.{IsUnshaded};

use crate::answer::{Answer, Buffer, CELLS, Left};
use crate::declined::Declined;
use crate::lawful::lawful;
use crate::layout::{Laid, Layout, accept_field, lay_out};
use crate::write::{PATTERN, ZEROS};
use crate::{answer, settings};
use lattice::shape::Shape;

// The value of an unread cell.
const UNREAD: u8 = 2;

// The most unread cells of a class that is read.
const MOST_UNREAD: usize = 2;

// Whether one of the first `length` bytes of a buffer is above the highest that is taken there.
pub(crate) fn is_soiled(length: usize, buffer: &Buffer, highest: u8) -> bool {
    buffer.iter().take(length).any(|value| highest < *value)
}

// In how many cells two fields differ.
pub(crate) fn differences(one: &Buffer, other: &Buffer) -> usize
    ensures { result ≤ 512 }
{
    one.iter().zip(other.iter()).filter(|(x, y)| x != y).count()
}

// How many cells of class a are unread.
fn unread(layout: &Layout, a: u16, field: &Buffer) -> usize {
    layout
        .entries()
        .iter()
        .zip(field.iter())
        .filter(|(entry, cell)| entry.class == a && **cell == UNREAD)
        .count()
}

// A field whose unread cells of class a hold the binary digits of a number, the lowest first.
fn filled(layout: &Layout, a: u16, digits: u8, before: Buffer) -> Buffer {
    let mut field = before;
    let mut left = digits;
    for (i, entry) in layout.entries().iter().enumerate() {
        if entry.class == a && field[i] == UNREAD {
            field[i] = left % 2;
            left /= 2;
        }
    }
    field
}

// The fillings of two unread cells. Those of one are among them.
const FILLINGS: u8 = 4;

// The field with a filling of the unread cells of class a that makes the class lawful, if one does.
fn fill(layout: &Layout, a: u16, before: Buffer) -> Option<Buffer> {
    (0..FILLINGS)
        .map(|digits| filled(layout, a, digits, before))
        .find(|field| lawful(layout, a, field))
}

// The field with the cell of class a turned over that makes the class lawful, if one does.
fn turn(layout: &Layout, a: u16, before: Buffer) -> Option<Buffer> {
    for (j, entry) in layout.entries().iter().enumerate() {
        if entry.class == a {
            let mut field = before;
            field[j] ^= 1;
            if lawful(layout, a, &field) {
                return Some(field);
            }
        }
    }
    None
}

// Fills the unread cells of class a, or, where it has none and is not lawful, turns over the cell that makes it so. There is none
// where the class is out of reach.
fn mend_class(layout: &Layout, a: u16, before: Buffer) -> Option<Buffer> {
    if unread(layout, a, &before) != 0 {
        return fill(layout, a, before);
    }
    if lawful(layout, a, &before) {
        return Some(before);
    }
    turn(layout, a, before)
}

// What the cells that hold no check spell, eight to a byte, and what those spell that are left over, the filler.
#[derive(Clone, Copy)]
struct Spelling {
    payload: Buffer,
    filler: u8,
}

// What a field spells, read in byte order.
fn spelt(layout: &Layout, field: &Buffer) -> Spelling {
    let mut payload = [0u8; CELLS];
    let mut k = 0;
    for (i, entry) in layout.entries().iter().enumerate() {
        if !entry.is_check {
            let q = k / 8;
            payload[q] = (payload[q] << 1) | field[i];
            k += 1;
        }
    }
    let filler = payload[k / 8];
    Spelling { payload, filler }
}

// Whether the cells that a capacity leaves over spell the first bits of the pattern or of the zeros.
fn is_filler(spelt: u8, capacity: usize) -> bool {
    let missing = 8 - capacity % 8;
    [PATTERN, ZEROS]
        .iter()
        .any(|filler| u16::from(*filler) >> missing == u16::from(spelt))
}

// Whether each of the first `cells` of a field is a cell, read or unread.
fn accept_cells(field: &Buffer, cells: usize) -> Result<(), Declined>
    ensures { IfErr result IsUnshaded }
{
    if is_soiled(cells, field, UNREAD) {
        return Err(Declined::BadCell);
    }
    Ok(())
}

// Mends a field of cells, class by class.
fn mended(laid: &Laid, before: Buffer) -> Result<Left, Declined>
    ensures { IfErr result IsUnshaded }
{
    let layout = &laid.layout;
    if (0..laid.classes).any(|a| MOST_UNREAD < unread(layout, a, &before)) {
        return Err(Declined::TooManyUnread);
    }
    let mut field = before;
    for a in 0..laid.classes {
        field = mend_class(layout, a, field).ok_or(Declined::OutOfReach)?;
    }
    if !is_filler(spelt(layout, &field).filler, laid.capacity) {
        return Err(Declined::BadFiller);
    }
    Ok(Left {
        count: differences(&before, &field),
        buffer: field,
    })
}

// A mended field, where the operation does not decline. A field that is declined for its length or a byte is not laid out.
fn mended_by_shape(shape: Shape, field: Buffer, cells: usize) -> Result<Left, Declined>
    ensures { IfErr result IsUnshaded }
{
    accept_field(settings::accept(shape)?, cells)?;
    accept_cells(&field, cells)?;
    mended(&lay_out(shape)?, field)
}

// Mends the first `cells` of a field; there is no payload, and none is asked for. The figure: the count.
pub fn mend(shape: Shape, field: Buffer, cells: usize) -> Answer
    ensures { (result.number ≤ 11) × (slice_index result.figures 0 ≤ 512) }
{
    answer::counted(mended_by_shape(shape, field, cells), field)
}

// The start of a buffer, before what is left of another.
fn joined(start: &Buffer, length: usize, rest: Buffer) -> Buffer {
    let mut buffer = rest;
    for (byte, spelt) in buffer.iter_mut().zip(start.iter()).take(length) {
        *byte = *spelt;
    }
    buffer
}

// A payload with the bytes of a mended field, where the operation does not decline.
fn payload_of(
    shape: Shape,
    payload: Buffer,
    bytes: usize,
    field: Buffer,
    cells: usize,
) -> Result<Left, Declined>
    ensures { IfErr result IsUnshaded }
{
    let laid = lay_out(shape)?;
    laid.accept(laid.capacity / 8, bytes, cells)?;
    accept_cells(&field, cells)?;
    let mended = mended(&laid, field)?;
    let spelt = spelt(&laid.layout, &mended.buffer);
    Ok(Left {
        buffer: joined(&spelt.payload, bytes, payload),
        count: mended.count,
    })
}

// Reads the first `cells` of a field into the first `bytes` of a payload. The figure: the count.
pub fn read(shape: Shape, payload: Buffer, bytes: usize, field: Buffer, cells: usize) -> Answer
    ensures { result.number ≤ 11 }
{
    answer::counted(payload_of(shape, payload, bytes, field, cells), payload)
}
