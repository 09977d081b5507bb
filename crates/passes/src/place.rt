// The place of a cell, the last cells first: its class, and its position there.
ghost use Rattle.std.specs.Prelude.{◌≡◌, ◌+◌, ◌-◌, ◌<◌, get_or, length};
ghost use Rattle.lattice.specs.Shape.{max_cells};
ghost use Rattle.lattice.specs.Class.{layout_of};
ghost use Rattle.lattice.specs.Sizes.{HoldsRest, EntryStored, AtCellBack, AtPlace};

use lattice::class::{Placement, class_at};
use lattice::shape::Shape;

// The class of a cell and its position there, from 1.
#[derive(Clone, Copy)]
pub struct Place {
    pub class: usize,
    pub position: u32,
}

// Counts one more cell of a class, and gives its position there.
pub(crate) fn count_in(counts: &mut [u32], class: usize) -> u32
    requires class_in_bounds { class < length counts.old }
    requires class_bound { get_or counts.old class 0 < max_cells }
    ensures value { result ≡ get_or counts.old class 0 + 1 }
    ensures entry_stored { EntryStored counts.old counts.new class result }
{
    let position = counts[class] + 1;
    counts[class] = position;
    position
}

// Counts one more cell of a class from its end, and gives its position there.
fn count_back(behind: &mut [u32], class: usize, size: u32) -> u32
    requires class_in_bounds { class < length behind.old }
    requires class_bound { get_or behind.old class 0 < size }
    ensures value { result ≡ size - get_or behind.old class 0 }
    ensures entry_stored { EntryStored behind.old behind.new class (get_or behind.old class 0 + 1) }
{
    let count = behind[class];
    behind[class] = count + 1;
    size - count
}

// The place of a cell of an accepted shape, where `sizes` holds the size of each class and `behind` the number of its cells
// behind the cell; the cell is counted. Where the arrays do not hold that, the position may be 0, and nothing is counted.
pub fn place_back(
    behind: &mut [u32; Shape::MAX_CLASSES],
    sizes: &[u32; Shape::MAX_CLASSES],
    shape: Shape,
    placement: Placement,
    cell: u32,
) -> Place
    ensures at_place { AtCellBack shape placement sizes.now behind.old cell
        → AtPlace shape cell result.class result.position }
    ensures holds_rest { AtCellBack shape placement sizes.now behind.old cell
        → HoldsRest (layout_of shape) behind.new cell }
{
    let class = class_at(shape, placement, cell);
    if class >= Shape::MAX_CLASSES {
        return Place { class, position: 0 };
    }
    let size = sizes[class];
    if behind[class] >= size {
        return Place { class, position: 0 };
    }
    let position = count_back(behind, class, size);
    Place { class, position }
}
