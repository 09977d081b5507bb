// Decoding: the tests, the payload gathered from the 1 cells of the field, and bits of cells flipped.
ghost use Rattle.std.specs.Prelude.{◌≡◌, ℕ, ◌≤◌, get_or, length};
ghost use Rattle.lattice.specs.Refusal.{number_of, NoOutside};
ghost use Rattle.lattice.specs.Shape.{Accepted, cells_of};
ghost use Rattle.lattice.specs.Class.{classes_of, layout_of};
ghost use Rattle.lattice.specs.Listing.{max_checks, ListsChecks};
ghost use Rattle.lattice.specs.Sizes.{HoldsSizes};
ghost use Rattle.codec.specs.Field.{Field, field_of};
ghost use Rattle.codec.specs.Payload.{payload_bytes, held_payload};
ghost use Rattle.codec.specs.Decode.{corrected_field, decode_number};
ghost use Rattle.codec.specs.Reach.{Readable};
ghost use Rattle.codec.specs.Answer.{IsDecoded};
ghost use Rattle.codec.specs.Packing.{HoldsBits, Names, flipped_by};
ghost use Rattle.codec.specs.Working.{HoldsNone, Located, Sound};

use crate::damage::{count_changed, flip_bits};
use crate::examine::examine;
use crate::gather::gather;
use crate::lengths::length_tests;
use lattice::refusal::Refusal;
use lattice::shape::Shape;
use passes::cell_places::NO_CELL;
use passes::check_cells::{MAX_CHECKS, check_cells};

// Flips the bits of the cells that correction flips.
fn correct_payload(
    shape: Shape,
    checks: &[u16; MAX_CHECKS],
    amount: usize,
    cells: usize,
    damaged: &[u32; Shape::MAX_CLASSES],
    first: &[u32; Shape::MAX_CLASSES],
    second: &[u32; Shape::MAX_CLASSES],
    payload: &mut [u8],
)
    requires accepted { Accepted shape × (cells ≡ cells_of shape) }
    requires names { Names (layout_of shape) (classes_of shape) damaged.now
        × Names (layout_of shape) (classes_of shape) first.now
        × Names (layout_of shape) (classes_of shape) second.now }
    requires amount_le_max_checks { (amount ≤ max_checks) × ListsChecks (layout_of shape) (cells_of shape) amount checks.now }
    ensures { (f : Field)
        → HoldsBits (layout_of shape) f payload.old
        → HoldsBits (layout_of shape)
        (flipped_by (layout_of shape) second.now
        (flipped_by (layout_of shape) first.now (flipped_by (layout_of shape) damaged.now f)))
        payload.new }
{
    let m = shape.classes();
    flip_bits(checks, amount, cells, m, damaged, payload);
    flip_bits(checks, amount, cells, m, first, payload);
    flip_bits(checks, amount, cells, m, second, payload);
}

// Stores the payload that the corrected field holds.
fn store_payload(
    shape: Shape,
    field: &[u8],
    sizes: &[u32; Shape::MAX_CLASSES],
    damaged: &[u32; Shape::MAX_CLASSES],
    first: &[u32; Shape::MAX_CLASSES],
    second: &[u32; Shape::MAX_CLASSES],
    payload: &mut [u8],
)
    requires readable { Readable shape field.now }
    requires holds_sizes { HoldsSizes (layout_of shape) sizes.now (cells_of shape) }
    requires located { Located shape field.now damaged.now first.now second.now }
    requires payload_len { length payload.old ≡ payload_bytes (layout_of shape) }
    ensures { payload.new ≡ held_payload (layout_of shape) (corrected_field shape (field_of field.now)) }
{
    let mut checks = [0u16; MAX_CHECKS];
    let mut places = [0u16; MAX_CHECKS];
    let amount = check_cells(shape, sizes, &mut checks, &mut places);
    let cells = shape.cells();
    payload.fill(0);
    gather(shape, &checks, amount, cells, field, payload);
    correct_payload(
        shape, &checks, amount, cells, damaged, first, second, payload,
    );
}

// The tests of decoding in their order, 1, 2, 11, 3, 4, 5, 10, 6, 7; where they pass, the arrays hold the size of each class
// and say which cells are flipped, and the number of erased cells is given. At entry no cell is named as first or second.
fn decode_tests(
    shape: Shape,
    payload: &[u8],
    field: &[u8],
    sizes: &mut [u32; Shape::MAX_CLASSES],
    damaged: &mut [u32; Shape::MAX_CLASSES],
    first: &mut [u32; Shape::MAX_CLASSES],
    second: &mut [u32; Shape::MAX_CLASSES],
) -> Result<usize, Refusal>
    requires { HoldsNone first.old × HoldsNone second.old }
    ensures result_value { number_of result ≡ decode_number shape payload.now field.now }
    ensures no_outside { NoOutside result }
    ensures holds_sizes { number_of result ≡ 0
        → HoldsSizes (layout_of shape) sizes.new (cells_of shape)
        × Sound shape field.now damaged.new first.new second.new result }
{
    length_tests(shape, payload, field, sizes)?;
    examine(shape, field, sizes, damaged, first, second)
}

// Stores the payload and gives the number of cells changed, or gives the refusal 1, 2, 11, 3, 4, 5, 10, 6 or 7.
pub fn decode(shape: Shape, payload: &mut [u8], field: &[u8]) -> Result<usize, Refusal>
    ensures { IsDecoded shape payload.old field.now payload.new result }
{
    let mut sizes = [0u32; Shape::MAX_CLASSES];
    let mut damaged = [NO_CELL; Shape::MAX_CLASSES];
    let mut first = [NO_CELL; Shape::MAX_CLASSES];
    let mut second = [NO_CELL; Shape::MAX_CLASSES];
    let erased = decode_tests(
        shape,
        payload,
        field,
        &mut sizes,
        &mut damaged,
        &mut first,
        &mut second,
    )?;
    store_payload(shape, field, &sizes, &damaged, &first, &second, payload);
    Ok(count_changed(shape, erased, &damaged))
}
