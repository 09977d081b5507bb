// The tests of a field that decoding and correcting share: 5, 10, 6 and 7.
ghost use Rattle.std.specs.Prelude.{◌≡◌, true, cond, ℕ, ◌+◌, ◌<◌, ◌≤◌, get_or, length};
ghost use Rattle.lattice.specs.Refusal.{number_of};
ghost use Rattle.lattice.specs.Shape.{max_classes, cells_of};
ghost use Rattle.lattice.specs.Class.{layout_of};
ghost use Rattle.lattice.specs.Counting.{all_below};
ghost use Rattle.lattice.specs.Sizes.{HoldsSizes};
ghost use Rattle.codec.specs.Field.{field_of, is_received, cells_ok};
ghost use Rattle.codec.specs.Payload.{padded_with, padding_ok};
ghost use Rattle.codec.specs.Decode.{corrected_field, field_number};
ghost use Rattle.codec.specs.Working.{FieldFits, HoldsNone, padding_of, right_at, reached_by, Located, Sound};

use crate::cell::{is_received, one_at};
use crate::erasures::{count_erased, locate};
use crate::hamming::{corrected_value, holds_data};
use crate::payload::{Padding, padding_value};
use crate::syndromes::field_syndromes;
use lattice::capacity::data_in;
use lattice::refusal::Refusal;
use lattice::shape::Shape;
use passes::cell_places::NO_CELL;
use passes::place::place_back;

// The greatest of the first n bytes, which tells whether each is a cell or an erasure.
fn greatest(field: &[u8], n: usize) -> u8
    requires { n ≤ length field.now }
    ensures result_value { is_received result ≡ cells_ok (field_of field.now) n }
    ensures by_index { (i : ℕ) → i < n → field_of field.now i ≤ result }
{
    let mut most = 0;
    for cell in &field[..n] {
        most = most.max(*cell);
    }
    most
}

// Is a codeword in reach of a class: is its syndrome 0, or is a cell to be flipped?
fn in_reach(syndrome: u32, damaged: u32, first: u32, second: u32) -> bool
    ensures { result ≡ reached_by syndrome damaged first second }
{
    if syndrome == 0 {
        return true;
    }
    if damaged != NO_CELL {
        return true;
    }
    if first != NO_CELL {
        return true;
    }
    second != NO_CELL
}

// Is a codeword in reach of each class below m?
fn all_in_reach(
    m: usize,
    syndromes: &[u32; Shape::MAX_CLASSES],
    damaged: &[u32; Shape::MAX_CLASSES],
    first: &[u32; Shape::MAX_CLASSES],
    second: &[u32; Shape::MAX_CLASSES],
) -> bool
    requires { m ≤ max_classes }
    ensures { result
        ≡ all_below
        (λ a. reached_by (get_or syndromes.now a 0) (get_or damaged.now a 0)
        (get_or first.now a 0) (get_or second.now a 0)) m }
{
    for a in (0..m).rev() {
        if !in_reach(syndromes[a], damaged[a], first[a], second[a]) {
            return false;
        }
    }
    true
}

// Does a cell pass as padding cell j: does it hold a check, or the padding's value?
fn is_right(is_data: bool, padding: Padding, j: usize, value: u8) -> bool
    ensures { result ≡ right_at (padding_of padding) is_data j value }
{
    if !is_data {
        return true;
    }
    value == padding_value(padding, j)
}

// Do the padding cells hold this padding after correction? They are the last of the data, so the cells are looked at from the
// field's end, until no padding cell is unseen.
fn padded_with(
    padding: Padding,
    shape: Shape,
    field: &[u8],
    sizes: &[u32; Shape::MAX_CLASSES],
    damaged: &[u32; Shape::MAX_CLASSES],
    first: &[u32; Shape::MAX_CLASSES],
    second: &[u32; Shape::MAX_CLASSES],
) -> bool
    requires field_fits { FieldFits shape field.now }
    requires holds_sizes { HoldsSizes (layout_of shape) sizes.now (cells_of shape) }
    requires located { Located shape field.now damaged.now first.now second.now }
    ensures { result
        ≡ padded_with (layout_of shape) (padding_of padding) (corrected_field shape (field_of field.now)) }
{
    let placement = shape.placement();
    let mut behind = [0u32; Shape::MAX_CLASSES];
    let mut unseen = data_in(sizes, shape.classes()) % 8;
    let mut i = shape.cells();
    // it ends by the count of the padding cells, and not by that of the cells
    while unseen > 0 {
        i -= 1;
        let place = place_back(&mut behind, sizes, shape, placement, i as u32);
        let is_data = holds_data(sizes, place);
        let value = corrected_value(
            damaged,
            first,
            second,
            place.class,
            i as u32,
            one_at(field, i),
        );
        if !is_right(is_data, padding, unseen - 1, value) {
            return false;
        }
        unseen -= usize::from(is_data);
    }
    true
}

// Is the padding right after correction: is it the pattern or, where that fails, zeros?
fn padding_ok(
    shape: Shape,
    field: &[u8],
    sizes: &[u32; Shape::MAX_CLASSES],
    damaged: &[u32; Shape::MAX_CLASSES],
    first: &[u32; Shape::MAX_CLASSES],
    second: &[u32; Shape::MAX_CLASSES],
) -> bool
    requires field_fits { FieldFits shape field.now }
    requires holds_sizes { HoldsSizes (layout_of shape) sizes.now (cells_of shape) }
    requires located { Located shape field.now damaged.now first.now second.now }
    ensures { result ≡ padding_ok (layout_of shape) (corrected_field shape (field_of field.now)) }
{
    if padded_with(
        Padding::Pattern,
        shape,
        field,
        sizes,
        damaged,
        first,
        second,
    ) {
        return true;
    }
    padded_with(Padding::Zeros, shape, field, sizes, damaged, first, second)
}

// The tests of a field of cells and erasures in their order, 10, 6, 7, where no byte is above `most`.
fn examine_received(
    shape: Shape,
    field: &[u8],
    most: u8,
    sizes: &[u32; Shape::MAX_CLASSES],
    damaged: &mut [u32; Shape::MAX_CLASSES],
    first: &mut [u32; Shape::MAX_CLASSES],
    second: &mut [u32; Shape::MAX_CLASSES],
) -> Result<(), Refusal>
    requires field_fits { FieldFits shape field.now × (cells_ok (field_of field.now) (cells_of shape) ≡ true) }
    requires by_index { (i : ℕ) → i < cells_of shape → field_of field.now i ≤ most }
    requires holds_sizes { HoldsSizes (layout_of shape) sizes.now (cells_of shape) }
    requires holds_none { HoldsNone first.old × HoldsNone second.old }
    ensures result_value { number_of result ≡ field_number shape (field_of field.now) }
    ensures located { number_of result ≡ 0
        → Located shape field.now damaged.new first.new second.new }
{
    let mut syndromes = [0u32; Shape::MAX_CLASSES];
    field_syndromes(shape.pass(), field, 1, &mut syndromes);
    if !locate(shape, field, most, &syndromes, damaged, first, second) {
        return Err(Refusal::TooManyErasures);
    }
    if !all_in_reach(shape.classes(), &syndromes, damaged, first, second) {
        return Err(Refusal::OutOfReach);
    }
    if !padding_ok(shape, field, sizes, damaged, first, second) {
        return Err(Refusal::BadPadding);
    }
    Ok(())
}

// The field's own tests in their order, 5, 10, 6, 7, where `sizes` holds the size of each class; where they pass, the cells that
// correction flips are stored, and the number of erased cells is given. At entry no cell is named as first or second.
pub(crate) fn examine(
    shape: Shape,
    field: &[u8],
    sizes: &[u32; Shape::MAX_CLASSES],
    damaged: &mut [u32; Shape::MAX_CLASSES],
    first: &mut [u32; Shape::MAX_CLASSES],
    second: &mut [u32; Shape::MAX_CLASSES],
) -> Result<usize, Refusal>
    requires field_fits { FieldFits shape field.now }
    requires holds_sizes { HoldsSizes (layout_of shape) sizes.now (cells_of shape) }
    requires holds_none { HoldsNone first.old × HoldsNone second.old }
    ensures result_value { number_of result ≡ field_number shape (field_of field.now) }
    ensures sound { number_of result ≡ 0
        → Sound shape field.now damaged.new first.new second.new result }
{
    let most = greatest(field, field.len());
    if !is_received(most) {
        return Err(Refusal::BadCell);
    }
    examine_received(shape, field, most, sizes, damaged, first, second)?;
    Ok(count_erased(field, most))
}
