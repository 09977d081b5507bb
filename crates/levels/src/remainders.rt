// The remainders of the words, cell by cell.
ghost use Rattle.std.specs.Prelude.{◌≡◌, true, ℕ, ◌+◌, ◌*◌, ◌%◌, ◌<◌, get_or, length};
ghost use Rattle.lattice.specs.Shape.{cells_of};
ghost use Rattle.lattice.specs.Class.{layout_of};
ghost use Rattle.codec.specs.Field.{field_of};
ghost use Rattle.levels.specs.Faults.{multiplier};
ghost use Rattle.levels.specs.Working.{Laid, HoldsRemainders, LevelTaken};

use crate::faults::multiplier;
use crate::spot::Spot;
use crate::tour::Tour;
use crate::words::{MAX_WORDS, WordTable};
use lattice::shape::Shape;

// The remainder with a cell more.
fn next_remainder(remainder: u8, slot: usize, value: u8) -> u8
    requires { slot < 6 }
    ensures { result ≡ (remainder + multiplier slot * value) % 25 }
{
    ((remainder as u32 + multiplier(slot) * value as u32) % 25) as u8
}

// A cell is taken into the remainder of its word.
pub(crate) fn take_level(remainders: &mut [u8], spot: Spot, value: u8)
    requires word_in_bounds { spot.inside ≡ true → spot.word < length remainders.old }
    requires slot_bound { spot.slot < 6 }
    ensures { LevelTaken remainders.old remainders.new spot value }
{
    let word = spot.word;
    if spot.inside {
        remainders[word] = next_remainder(remainders[word], spot.slot, value);
    }
}

// The remainder of each word of a field; the array is 0 at entry. That is asked from function to function: filled with 0 here, it
// makes decoding and correcting of 12 cells take an eighth longer.
pub(crate) fn field_remainders(
    shape: Shape,
    field: &[u8],
    words: &WordTable,
    remainders: &mut [u8; MAX_WORDS],
)
    requires laid { Laid shape words.now }
    requires field_len { length field.now ≡ cells_of shape }
    requires by_index { (w : ℕ) → get_or remainders.old w 0 ≡ 0 }
    ensures { HoldsRemainders (layout_of shape) (field_of field.now) remainders.new (cells_of shape) }
{
    let mut tour = Tour::new(shape);
    let mut counts = [0u32; Shape::MAX_CLASSES];
    for (i, cell) in field.iter().enumerate() {
        let spot = tour.spot(&mut counts, words, shape, i);
        take_level(remainders, spot, *cell);
        tour.step();
    }
}
