// The payload gathered from the 1 cells of a field, run by run between the cells that hold a check.
ghost use Rattle.std.specs.Prelude.{true, ◌≡◌, ℕ, ◌+◌, ◌<◌, ◌≤◌, get_or, length};
ghost use Rattle.lattice.specs.Shape.{cells_of};
ghost use Rattle.lattice.specs.Class.{layout_of};
ghost use Rattle.lattice.specs.Position.{Layout};
ghost use Rattle.lattice.specs.Listing.{max_checks, ListsChecks, Run};
ghost use Rattle.codec.specs.Field.{field_of, Received, having};
ghost use Rattle.codec.specs.Packing.{BeginsByte, packed_at, four_at, eight_at, HoldsBytes, BitStored};
ghost use Rattle.codec.specs.Working.{FieldFits};

use crate::cell::{cell_value, one_at};
use lattice::shape::Shape;
use passes::check_cells::MAX_CHECKS;

// Does a byte of the payload begin at the cell of this rank, with room for its eight cells?
pub(crate) fn begins_byte(rank: usize, room: usize, bytes: usize) -> bool
    ensures { result ≡ true → BeginsByte rank room bytes }
{
    if rank % 8 != 0 {
        return false;
    }
    if room < 8 {
        return false;
    }
    rank / 8 < bytes
}

// Four cells as the bytes of a number, the first the lowest: the compiler reads them at once.
fn packed(field: &[u8], i: usize) -> u32
    requires { i + 4 ≤ length field.now }
    ensures { result ≡ packed_at (field_of field.now) i }
{
    let first = cell_value(field, i) as u32;
    let second = cell_value(field, i + 1) as u32;
    let third = cell_value(field, i + 2) as u32;
    let fourth = cell_value(field, i + 3) as u32;
    first + second * 0x100 + third * 0x1_0000 + fourth * 0x100_0000
}

// Four cells as a number, the first the highest bit. An erasure is 0: of each cell the lowest bit is kept, and the product moves
// the four of them to the bits from 24 on.
fn four(field: &[u8], i: usize) -> u32
    requires i_in_bounds { i + 4 ≤ length field.now }
    requires received { Received (field_of field.now) (length field.now) }
    ensures { result ≡ four_at (having 1 (field_of field.now)) i }
{
    let lowest = packed(field, i) & 0x0101_0101;
    (lowest as u64 * 0x0804_0201 / 0x100_0000 % 16) as u32
}

// Eight cells as a byte.
fn eight(field: &[u8], i: usize) -> u8
    requires i_in_bounds { i + 8 ≤ length field.now }
    requires received { Received (field_of field.now) (length field.now) }
    ensures { result ≡ eight_at (having 1 (field_of field.now)) i }
{
    (four(field, i) * 16 + four(field, i + 4)) as u8
}

// Puts the value of a data cell behind the bits of its byte; padding cells have no byte.
fn store_bit(payload: &mut [u8], rank: usize, value: u8)
    ensures { BitStored payload.old payload.new rank value }
{
    let j = rank / 8;
    if j < payload.len() {
        payload[j] = ((payload[j] as u32 * 2 + value as u32) % 256) as u8;
    }
}

// Gathers a whole byte, or one cell; gives the cell behind.
fn gather_some(field: &[u8], payload: &mut [u8], k: usize, i: usize, end: usize) -> usize
    requires k_le_i { (k ≤ i) × (i < end) × (end ≤ length field.now) }
    requires received { Received (field_of field.now) (length field.now) }
    ensures lower_bound { (i < result) × (result ≤ end) }
    ensures holds_bytes { (L : Layout)
        → Run L k i end
        → HoldsBytes L (having 1 (field_of field.now)) payload.old i
        → HoldsBytes L (having 1 (field_of field.now)) payload.new result }
{
    let rank = i - k;
    if begins_byte(rank, end - i, payload.len()) {
        let j = rank / 8;
        payload[j] = eight(field, i);
        return i + 8;
    }
    store_bit(payload, rank, one_at(field, i));
    i + 1
}

// Gathers the run of cells from `begin` up to `end`, which k checks stand before.
fn gather_run(field: &[u8], payload: &mut [u8], k: usize, begin: usize, end: usize)
    requires k_le_begin { (k ≤ begin) × (begin ≤ end) × (end ≤ length field.now) }
    requires received { Received (field_of field.now) (length field.now) }
    ensures { (L : Layout)
        → Run L k begin end
        → HoldsBytes L (having 1 (field_of field.now)) payload.old begin
        → HoldsBytes L (having 1 (field_of field.now)) payload.new end }
{
    let mut i = begin;
    // its step is eight cells or one
    while i < end {
        i = gather_some(field, payload, k, i, end);
    }
}

// Gathers every run; the payload is 0 at entry.
pub(crate) fn gather(
    shape: Shape,
    checks: &[u16; MAX_CHECKS],
    amount: usize,
    cells: usize,
    field: &[u8],
    payload: &mut [u8],
)
    requires cells_value { cells ≡ cells_of shape }
    requires field_fits { FieldFits shape field.now × Received (field_of field.now) (length field.now) }
    requires amount_le_max_checks { (amount ≤ max_checks) × ListsChecks (layout_of shape) (cells_of shape) amount checks.now }
    requires by_index { (j : ℕ) → get_or payload.old j 0 ≡ 0 }
    ensures { HoldsBytes (layout_of shape) (having 1 (field_of field.now))
        payload.new (cells_of shape) }
{
    let mut begin = 0;
    for k in 0..amount {
        let end = checks[k] as usize;
        gather_run(field, payload, k, begin, end);
        begin = end + 1;
    }
    gather_run(field, payload, amount, begin, cells);
}
