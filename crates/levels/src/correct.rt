// Correcting of levels: the tests, and then every change taken back, with 0 in the ignored cells.
ghost use Rattle.std.specs.Prelude.{◌≡◌, ℕ, get_or};
ghost use Rattle.lattice.specs.Refusal.{number_of, NoOutside};
ghost use Rattle.lattice.specs.Shape.{cells_of};
ghost use Rattle.codec.specs.Field.{field_of, list_of, differences};
ghost use Rattle.levels.specs.Decode.{restored_field};
ghost use Rattle.levels.specs.Correct.{correct_levels_number};
ghost use Rattle.levels.specs.Answer.{IsCorrectedLevels};
ghost use Rattle.levels.specs.Working.{LevelsExamined};

use crate::examine::examine_levels;
use crate::restore::{change_of, restored_level};
use crate::tour::Tour;
use crate::words::{MAX_WORDS, WordTable};
use lattice::refusal::Refusal;
use lattice::shape::Shape;

// Stores the corrected cells; gives the number of cells that change.
fn store_corrected(
    shape: Shape,
    words: &WordTable,
    remainders: &[u8; MAX_WORDS],
    field: &mut [u8],
) -> usize
    requires { LevelsExamined shape field.old words.now remainders.now }
    ensures field_after { field.new ≡ list_of (restored_field shape (field_of field.old)) (cells_of shape) }
    ensures value { result
        ≡ differences (field_of field.old) (restored_field shape (field_of field.old)) (cells_of shape) }
{
    let mut tour = Tour::new(shape);
    let mut counts = [0u32; Shape::MAX_CLASSES];
    let mut changed = 0;
    for (i, cell) in field.iter_mut().enumerate() {
        let spot = tour.spot(&mut counts, words, shape, i);
        let before = *cell;
        let value = restored_level(spot.inside, before, change_of(remainders, spot));
        *cell = value;
        changed += usize::from(before != value);
        tour.step();
    }
    changed
}

// The tests of correcting in their order, 1, 2, 11, 4, 12, 6; where they pass, the table holds where the words lie, and the array
// the remainder of each word. The array is 0 at entry.
fn correct_tests(
    shape: Shape,
    field: &[u8],
    words: &mut WordTable,
    remainders: &mut [u8; MAX_WORDS],
) -> Result<(), Refusal>
    requires { (w : ℕ) → get_or remainders.old w 0 ≡ 0 }
    ensures result_value { number_of result ≡ correct_levels_number shape field.now }
    ensures no_outside { NoOutside result }
    ensures levels_examined { number_of result ≡ 0 → LevelsExamined shape field.now words.new remainders.new }
{
    shape.tests()?;
    if field.len() != shape.cells() {
        return Err(Refusal::FieldLength);
    }
    words.lay(shape);
    examine_levels(shape, field, words, remainders)
}

// Stores the corrected field and gives the number of cells that change, or gives the refusal 1, 2, 11, 4, 12 or 6.
pub fn correct_levels(shape: Shape, field: &mut [u8]) -> Result<usize, Refusal>
    ensures { IsCorrectedLevels shape field.old field.new result }
{
    let mut words = WordTable::EMPTY;
    let mut remainders = [0u8; MAX_WORDS];
    correct_tests(shape, field, &mut words, &mut remainders)?;
    Ok(store_corrected(shape, &words, &remainders, field))
}
