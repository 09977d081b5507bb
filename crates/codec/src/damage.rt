// Cells that are named, one for each class, flipped: in the field, or in the payload that was gathered from it.
ghost use Rattle.std.specs.Prelude.{true, false, cond, ◌≡◌, ◌+◌, ◌<◌, ◌≤◌, get_or, length};
ghost use Rattle.lattice.specs.Shape.{max_cells, max_classes, Accepted};
ghost use Rattle.lattice.specs.Class.{classes_of};
ghost use Rattle.lattice.specs.Position.{Layout};
ghost use Rattle.lattice.specs.Counting.{count};
ghost use Rattle.lattice.specs.Listing.{max_checks, checks_to, ListsChecks};
ghost use Rattle.codec.specs.Field.{Field, field_of, Same};
ghost use Rattle.codec.specs.Packing.{BitFlipped, HoldsBits, flipped_at, flipped_to, Names};
ghost use Rattle.codec.specs.Working.{names};

use crate::hamming::flip;
use lattice::shape::Shape;
use passes::cell_places::NO_CELL;
use passes::check_cells::MAX_CHECKS;

// The number of classes below m for which a cell is named.
fn count_named(m: usize, cells: &[u32; Shape::MAX_CLASSES]) -> usize
    requires { m ≤ max_classes }
    ensures { result ≡ count (names cells.now) m }
{
    cells[..m].iter().filter(|cell| **cell != NO_CELL).count()
}

// The number of cells that correction changes in a field with so many erased ones.
pub(crate) fn count_changed(
    shape: Shape,
    erased: usize,
    damaged: &[u32; Shape::MAX_CLASSES],
) -> usize
    requires { Accepted shape × (erased ≤ max_cells) }
    ensures { result ≡ count (names damaged.now) (classes_of shape) + erased }
{
    count_named(shape.classes(), damaged) + erased
}

// Flips a cell of the field; a number that is no cell's leaves it.
fn flip_cell(field: &mut [u8], cell: usize)
    ensures { Same (field_of field.new) (flipped_at (field_of field.old) cell)
        (length field.old) }
{
    if cell < field.len() {
        field[cell] = flip(field[cell]);
    }
}

// Flips the named cell of each class below m.
pub(crate) fn flip_cells(m: usize, named: &[u32; Shape::MAX_CLASSES], field: &mut [u8])
    requires { m ≤ max_classes }
    ensures { (L : Layout)
        → L.cells ≡ length field.old
        → Names L m named.now
        → Same (field_of field.new) (flipped_to L named.now (field_of field.old) m)
        (length field.old) }
{
    for cell in &named[..m] {
        flip_cell(field, *cell as usize);
    }
}

// How many of the listed check cells stand before a cell, found bit by bit from the highest on. A bit is added as a number, so
// that the comparison with the cell makes no jump; `partition_point` jumps there, which is slower where most cells are flipped.
fn checks_before(checks: &[u16; MAX_CHECKS], amount: usize, cell: usize) -> usize
    requires { amount ≤ max_checks }
    ensures upper_bound { result ≤ amount }
    ensures value { (L : Layout)
        → ListsChecks L L.cells amount checks.now
        → cell ≤ L.cells
        → result ≡ checks_to L cell }
{
    let mut before = 0;
    // no amount has more than 13 bits
    for k in (0..13u32).rev() {
        let more = before + (1 << k);
        if more <= amount {
            let stands_before = (checks[more - 1] as usize) < cell;
            before += usize::from(stands_before) << k;
        }
    }
    before
}

// Is the k-th of the listed check cells this one?
fn is_at(checks: &[u16; MAX_CHECKS], amount: usize, k: usize, cell: usize) -> bool
    requires { amount ≤ max_checks }
    ensures k_lt_amount { result ≡ true → (k < amount) × (get_or checks.now k 0 ≡ cell) }
    ensures fact { result ≡ false → k < amount → get_or checks.now k 0 ≡ cell → ⊥ }
{
    if k >= amount {
        return false;
    }
    checks[k] as usize == cell
}

// Flips bit k of the payload; a number that is no bit's leaves it.
fn flip_bit(payload: &mut [u8], k: usize)
    ensures { BitFlipped payload.old payload.new k }
{
    let j = k / 8;
    if j < payload.len() {
        payload[j] = payload[j] ^ (1u8 << (7 - k % 8));
    }
}

// Flips the bit of a cell that holds one; a check and a number that is no cell's leave the payload.
fn flip_at(checks: &[u16; MAX_CHECKS], amount: usize, cells: usize, cell: usize, payload: &mut [u8])
    requires { amount ≤ max_checks }
    ensures { (L : Layout)
        → L.cells ≡ cells
        → ListsChecks L L.cells amount checks.now
        → (f : Field)
        → HoldsBits L f payload.old
        → HoldsBits L (flipped_at f cell) payload.new }
{
    if cells <= cell {
        return;
    }
    let k = checks_before(checks, amount, cell);
    if is_at(checks, amount, k, cell) {
        return;
    }
    if k <= cell {
        flip_bit(payload, cell - k);
    }
}

// Flips the bits of the named cells of the classes below m.
pub(crate) fn flip_bits(
    checks: &[u16; MAX_CHECKS],
    amount: usize,
    cells: usize,
    m: usize,
    named: &[u32; Shape::MAX_CLASSES],
    payload: &mut [u8],
)
    requires { (amount ≤ max_checks) × (m ≤ max_classes) }
    ensures { (L : Layout)
        → L.cells ≡ cells
        → ListsChecks L L.cells amount checks.now
        → (f : Field)
        → Names L m named.now
        → HoldsBits L f payload.old
        → HoldsBits L (flipped_to L named.now f m) payload.new }
{
    for cell in &named[..m] {
        flip_at(checks, amount, cells, *cell as usize, payload);
    }
}
