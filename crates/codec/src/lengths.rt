// The tests that encoding and decoding share: the shape's, then 3 and 4 for the lengths of the payload and of the field.
ghost use Rattle.std.specs.Prelude.{◌≡◌};
ghost use Rattle.lattice.specs.Refusal.{number_of, NoOutside};
ghost use Rattle.codec.specs.Working.{length_number, Fits};

use lattice::capacity::{class_sizes, data_in};
use lattice::refusal::Refusal;
use lattice::shape::Shape;

// Those of levels are a function of their own (levels::lengths): the payload's length is asked by other arrays, which it fills.

// The tests in their order, 1 to 4; where they pass, the array holds the size of each class.
pub(crate) fn length_tests(
    shape: Shape,
    payload: &[u8],
    field: &[u8],
    sizes: &mut [u32; Shape::MAX_CLASSES],
) -> Result<(), Refusal>
    ensures result_value { number_of result ≡ length_number shape payload.now field.now }
    ensures no_outside { NoOutside result }
    ensures fits { number_of result ≡ 0 → Fits shape payload.now field.now sizes.new }
{
    shape.tests()?;
    class_sizes(shape, sizes);
    if payload.len() != data_in(sizes, shape.classes()) / 8 {
        return Err(Refusal::PayloadLength);
    }
    if field.len() != shape.cells() {
        return Err(Refusal::FieldLength);
    }
    Ok(())
}
