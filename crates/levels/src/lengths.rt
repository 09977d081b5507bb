// The tests that encoding and decoding share: the shape's, then 3 and 4 for the lengths of the payload and of the field.
ghost use Rattle.std.specs.Prelude.{◌≡◌};
ghost use Rattle.lattice.specs.Refusal.{number_of, NoOutside};
ghost use Rattle.levels.specs.Working.{lengths_number, LengthsFit};

use crate::words::WordTable;
use lattice::refusal::Refusal;
use lattice::shape::Shape;

// The tests in their order, 1, 2, 11, 3, 4; where they pass, the table holds where the words lie.
pub(crate) fn length_tests(
    shape: Shape,
    payload: &[u8],
    field: &[u8],
    words: &mut WordTable,
) -> Result<(), Refusal>
    ensures result_value { number_of result ≡ lengths_number shape payload.now field.now }
    ensures no_outside { NoOutside result }
    ensures lengths_fit { number_of result ≡ 0 → LengthsFit shape payload.now field.now words.new }
{
    shape.tests()?;
    if payload.len() != words.lay(shape) {
        return Err(Refusal::PayloadLength);
    }
    if field.len() != shape.cells() {
        return Err(Refusal::FieldLength);
    }
    Ok(())
}
