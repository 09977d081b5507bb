// Correcting: the tests, 0 in each erased cell, and cells flipped.
ghost use Rattle.std.specs.Prelude.{◌≡◌, length};
ghost use Rattle.lattice.specs.Refusal.{number_of, NoOutside};
ghost use Rattle.lattice.specs.Shape.{cells_of};
ghost use Rattle.lattice.specs.Class.{classes_of, layout_of};
ghost use Rattle.lattice.specs.Counting.{count};
ghost use Rattle.codec.specs.Field.{field_of, list_of, Received, Same, having};
ghost use Rattle.codec.specs.Erasure.{is_erased};
ghost use Rattle.codec.specs.Decode.{corrected_field, corrected_count};
ghost use Rattle.codec.specs.Correct.{correct_number};
ghost use Rattle.codec.specs.Reach.{Readable};
ghost use Rattle.codec.specs.Answer.{IsCorrected};
ghost use Rattle.codec.specs.Packing.{Names, flipped_by};
ghost use Rattle.codec.specs.Working.{HoldsNone, FieldFits, Located, Sound};

use crate::cell::one_at;
use crate::damage::{count_changed, flip_cells};
use crate::examine::examine;
use lattice::capacity::class_sizes;
use lattice::refusal::Refusal;
use lattice::shape::Shape;
use passes::cell_places::NO_CELL;

// Puts 0 in each erased cell of a field that has so many.
fn clear_erased(erased: usize, field: &mut [u8])
    requires received { Received (field_of field.old) (length field.old) }
    requires erased_value { erased ≡ count (is_erased (field_of field.old)) (length field.old) }
    ensures { Same (field_of field.new) (having 1 (field_of field.old))
        (length field.old) }
{
    if erased == 0 {
        return;
    }
    for i in 0..field.len() {
        field[i] = one_at(field, i);
    }
}

// Flips the cells that correction flips, in a field with 0 in each erased cell.
fn flip_located(
    shape: Shape,
    damaged: &[u32; Shape::MAX_CLASSES],
    first: &[u32; Shape::MAX_CLASSES],
    second: &[u32; Shape::MAX_CLASSES],
    field: &mut [u8],
)
    requires field_fits { FieldFits shape field.old }
    requires names { Names (layout_of shape) (classes_of shape) damaged.now
        × Names (layout_of shape) (classes_of shape) first.now
        × Names (layout_of shape) (classes_of shape) second.now }
    ensures { Same (field_of field.new)
        (flipped_by (layout_of shape) second.now
        (flipped_by (layout_of shape) first.now
        (flipped_by (layout_of shape) damaged.now (field_of field.old)))) (cells_of shape) }
{
    let m = shape.classes();
    flip_cells(m, damaged, field);
    flip_cells(m, first, field);
    flip_cells(m, second, field);
}

// Stores the corrected cells of a field with so many erased ones; gives the number of cells changed.
fn store_corrected(
    shape: Shape,
    erased: usize,
    damaged: &[u32; Shape::MAX_CLASSES],
    first: &[u32; Shape::MAX_CLASSES],
    second: &[u32; Shape::MAX_CLASSES],
    field: &mut [u8],
) -> usize
    requires readable { Readable shape field.old }
    requires erased_value { erased ≡ count (is_erased (field_of field.old)) (cells_of shape) }
    requires located { Located shape field.old damaged.now first.now second.now }
    ensures field_after { field.new ≡ list_of (corrected_field shape (field_of field.old)) (cells_of shape) }
    ensures value { result ≡ corrected_count shape (field_of field.old) }
{
    clear_erased(erased, field);
    flip_located(shape, damaged, first, second, field);
    count_changed(shape, erased, damaged)
}

// The tests of correcting in their order, 1, 2, 11, 4, 5, 10, 6, 7; where they pass, the arrays say which cells are flipped, and
// the number of erased cells is given.
// At entry no cell is named as first or second.
fn correct_tests(
    shape: Shape,
    field: &[u8],
    damaged: &mut [u32; Shape::MAX_CLASSES],
    first: &mut [u32; Shape::MAX_CLASSES],
    second: &mut [u32; Shape::MAX_CLASSES],
) -> Result<usize, Refusal>
    requires { HoldsNone first.old × HoldsNone second.old }
    ensures result_value { number_of result ≡ correct_number shape field.now }
    ensures no_outside { NoOutside result }
    ensures sound { number_of result ≡ 0
        → Sound shape field.now damaged.new first.new second.new result }
{
    shape.tests()?;
    if field.len() != shape.cells() {
        return Err(Refusal::FieldLength);
    }
    let mut sizes = [0u32; Shape::MAX_CLASSES];
    class_sizes(shape, &mut sizes);
    examine(shape, field, &sizes, damaged, first, second)
}

// Stores the corrected field and gives the number of cells changed, or gives the refusal 1, 2, 11, 4, 5, 10, 6 or 7.
pub fn correct(shape: Shape, field: &mut [u8]) -> Result<usize, Refusal>
    ensures { IsCorrected shape field.old field.new result }
{
    let mut damaged = [NO_CELL; Shape::MAX_CLASSES];
    let mut first = [NO_CELL; Shape::MAX_CLASSES];
    let mut second = [NO_CELL; Shape::MAX_CLASSES];
    let erased = correct_tests(shape, field, &mut damaged, &mut first, &mut second)?;
    Ok(store_corrected(shape, erased, &damaged, &first, &second, field))
}
