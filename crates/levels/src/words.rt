// The words of a field: the size of each class, and the number of words of the classes before it.
ghost use Rattle.std.specs.Prelude.{◌≡◌, ℕ, ◌<◌, ◌≤◌, get_or};
ghost use Rattle.lattice.specs.Shape.{max_cells, max_classes, Accepted};
ghost use Rattle.lattice.specs.Counting.{sum_below};
ghost use Rattle.lattice.specs.Digits.{words_in, digits_of};
ghost use Rattle.levels.specs.Working.{Laid};

use lattice::capacity::{class_sizes, words_in};
use lattice::shape::Shape;

// No accepted shape has more words.
pub(crate) const MAX_WORDS: usize = 10922;

// The number of words of the classes before each of so many; gives the number of all their words.
fn word_offsets(
    sizes: &[u32; Shape::MAX_CLASSES],
    classes: usize,
    offsets: &mut [u32; Shape::MAX_CLASSES],
) -> usize
    requires classes_le_max_classes { classes ≤ max_classes }
    requires by_index { (a : ℕ) → a < max_classes → get_or sizes.now a 0 ≤ max_cells }
    ensures by_index_2 { (a : ℕ)
        → a < classes
        → get_or offsets.new a 0 ≡ sum_below (λ b. words_in (get_or sizes.now b 0)) a }
    ensures value { (result ≡ sum_below (λ b. words_in (get_or sizes.now b 0)) classes) × (result ≤ 6000000) }
{
    let mut sum: u32 = 0;
    for a in 0..classes {
        offsets[a] = sum;
        sum += words_in(sizes[a]);
    }
    sum as usize
}

// Where the words of a field lie: the size of each class, and the number of words of the classes before it. These are two arrays,
// as lattice lists the sizes alone. The remainders of the words stand beside the table: in it, each function that reads where a
// word lies and writes its remainder would have to promise that the rest stays.
#[derive(Clone, Copy)]
pub(crate) struct WordTable {
    pub sizes: [u32; Shape::MAX_CLASSES],
    pub offsets: [u32; Shape::MAX_CLASSES],
}

impl WordTable {
    // A table to be filled where it stands: handed on by value, it makes a field of 12 cells take twice as long.
    pub(crate) const EMPTY: WordTable = WordTable {
        sizes: [0; Shape::MAX_CLASSES],
        offsets: [0; Shape::MAX_CLASSES],
    };

    // Fills the table for an accepted shape; gives the number of digits.
    pub(crate) fn lay(&mut self, shape: Shape) -> usize
        requires { Accepted shape }
        ensures laid { Laid shape self.new }
        ensures value { result ≡ digits_of shape }
    {
        class_sizes(shape, &mut self.sizes);
        5 * word_offsets(&self.sizes, shape.classes(), &mut self.offsets)
    }
}
