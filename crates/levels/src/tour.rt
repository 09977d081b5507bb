// The tour of the cells of a field, the first ones first: where each stands in the table of classes, with no division, and the
// spot of each.
ghost use Rattle.std.specs.Prelude.{◌≡◌, ℕ, ◌+◌, ◌<◌, ◌≤◌, get_or, length};
ghost use Rattle.lattice.specs.declared.shape.Shape.{Shape};
ghost use Rattle.lattice.specs.Shape.{max_cells, Accepted};
ghost use Rattle.lattice.specs.Class.{layout_of};
ghost use Rattle.lattice.specs.Sizes.{HoldsSizes, EntryStored};
ghost use Rattle.levels.specs.Working.{Laid, AtTour, AtCell, spot_at, SpotOf};

use crate::spot::{Spot, spot_at};
use crate::words::WordTable;
use lattice::line::{Line, Pass, next_line, next_place};
use lattice::shape::Shape;

// Counts one more cell of a class, and gives its position there. Passes has its like for itself: a public function asks nothing
// of its callers, and one that tests the class and the count costs each cell two tests.
fn count_in(counts: &mut [u32], class: usize) -> u32
    requires class_in_bounds { class < length counts.old }
    requires class_bound { get_or counts.old class 0 < max_cells }
    ensures value { result ≡ get_or counts.old class 0 + 1 }
    ensures entry_stored { EntryStored counts.old counts.new class result }
{
    let position = counts[class] + 1;
    counts[class] = position;
    position
}

// What a tour needs of the shape, and the cell at which it is: the cells of its line from it on, its place in the table, the
// slice of its line, and its line. The counts of the cells stand beside it: an array in it would keep the cell in memory, and a
// tour would take half as long again. One method that gives the spot and goes on would take a tenth longer.
#[derive(Clone, Copy)]
pub(crate) struct Tour {
    pub pass: Pass,
    pub left: usize,
    pub place: usize,
    pub slice: usize,
    pub line: Line,
}

impl Tour {
    // The tour at the first cell of an accepted shape.
    pub(crate) fn new(shape: Shape) -> Tour
        requires { Accepted shape }
        ensures { AtTour shape 0 result }
    {
        let pass = shape.pass();
        Tour {
            pass,
            left: pass.columns,
            place: 0,
            slice: 0,
            line: Line {
                left: pass.last,
                start: 0,
            },
        }
    }

    // The spot of the cell, where `counts` holds the number of cells of each class before it; the cell is counted. The shape and
    // the number of the cell are there for the contract.
    pub(crate) fn spot(
        &self,
        counts: &mut [u32; Shape::MAX_CLASSES],
        words: &WordTable,
        shape: Shape,
        cell: usize,
    ) -> Spot
        requires laid { Laid shape words.now }
        requires at_cell { AtCell shape self.now counts.old cell }
        ensures spot_of { SpotOf shape cell result }
        ensures holds_sizes { HoldsSizes (layout_of shape) counts.new (cell + 1) }
    {
        let class = self.slice * self.pass.period + self.place;
        let position = count_in(counts, class);
        spot_at(position, words.sizes[class], words.offsets[class])
    }

    // Goes on to the cell after.
    pub(crate) fn step(&mut self)
        ensures { (s : Shape) → Accepted s → (i : ℕ) → AtTour s i self.old → AtTour s (i + 1) self.new }
    {
        if self.left > 1 {
            self.left -= 1;
            self.place = next_place(self.place, self.pass.period);
        } else {
            let line = next_line(self.pass, self.line);
            self.left = self.pass.columns;
            self.place = line.start;
            self.slice = next_place(self.slice, self.pass.slices);
            self.line = line;
        }
    }
}
