// The tests of a field of levels that decoding and correcting share.
ghost use Rattle.std.specs.Prelude.{◌≡◌, ℕ, get_or, length};
ghost use Rattle.lattice.specs.Refusal.{number_of};
ghost use Rattle.lattice.specs.Shape.{cells_of};
ghost use Rattle.lattice.specs.Class.{layout_of};
ghost use Rattle.codec.specs.Field.{field_of};
ghost use Rattle.levels.specs.Level.{levels_ok};
ghost use Rattle.levels.specs.Restored.{levels_in_reach};
ghost use Rattle.levels.specs.Decode.{levels_number};
ghost use Rattle.levels.specs.Working.{Laid, LevelsExamined};

use crate::remainders::field_remainders;
use crate::restore::{MAX_LEVEL, can_restore, change_of};
use crate::tour::Tour;
use crate::words::{MAX_WORDS, WordTable};
use lattice::refusal::Refusal;
use lattice::shape::Shape;

// Is every byte a level?
pub(crate) fn levels_ok(bytes: &[u8]) -> bool
    ensures { result ≡ levels_ok (field_of bytes.now) (length bytes.now) }
{
    bytes.iter().all(|level| *level <= MAX_LEVEL)
}

// Can every change be taken back?
fn levels_in_reach(
    shape: Shape,
    field: &[u8],
    words: &WordTable,
    remainders: &[u8; MAX_WORDS],
) -> bool
    requires { LevelsExamined shape field.now words.now remainders.now }
    ensures { result ≡ levels_in_reach (layout_of shape) (field_of field.now) }
{
    let mut tour = Tour::new(shape);
    let mut counts = [0u32; Shape::MAX_CLASSES];
    for (i, cell) in field.iter().enumerate() {
        let spot = tour.spot(&mut counts, words, shape, i);
        if !can_restore(*cell, change_of(remainders, spot)) {
            return false;
        }
        tour.step();
    }
    true
}

// The field's own tests, 12 and 6; where they pass, the array holds the remainder of each word. It is 0 at entry.
pub(crate) fn examine_levels(
    shape: Shape,
    field: &[u8],
    words: &WordTable,
    remainders: &mut [u8; MAX_WORDS],
) -> Result<(), Refusal>
    requires laid { Laid shape words.now }
    requires field_len { length field.now ≡ cells_of shape }
    requires by_index { (w : ℕ) → get_or remainders.old w 0 ≡ 0 }
    ensures result_value { number_of result ≡ levels_number shape (field_of field.now) }
    ensures levels_examined { number_of result ≡ 0
        → LevelsExamined shape field.now words.now remainders.new }
{
    if !levels_ok(field) {
        return Err(Refusal::BadLevel);
    }
    field_remainders(shape, field, words, remainders);
    if !levels_in_reach(shape, field, words, remainders) {
        return Err(Refusal::OutOfReach);
    }
    Ok(())
}
