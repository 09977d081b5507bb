// A shape with the sizes of a field and a payload: those that are written and damaged, and those that are lent.
ghost use Rattle.std.specs.Prelude.{◌<◌, ◌≤◌};

use lattice::shape::Shape;
use second::answer::CELLS;

// A shape, with the number of cells of its field, and of bytes or digits of the payload.
#[derive(Clone, Copy)]
pub(crate) struct Sizes {
    pub(crate) shape: Shape,
    pub(crate) cells: usize,
    pub(crate) payload: usize,
    ghost small: { (0 < cells) × (cells ≤ 512) × (payload ≤ 512) },
}

impl Sizes {
    // The sizes that a plan gives, at most what is lent; none where the plan has no cells.
    pub(crate) fn planned(shape: Shape, cells: usize, payload: usize) -> Option<Sizes> {
        if cells == 0 {
            return None;
        }
        Some(Sizes {
            shape,
            cells: cells.min(CELLS),
            payload: payload.min(CELLS),
        })
    }

    // Those that are lent where a plan has no cells, with so many bytes or digits.
    pub(crate) fn unplanned(shape: Shape, payload: usize) -> Sizes
        requires { payload ≤ 512 }
    {
        Sizes {
            shape,
            cells: 7,
            payload,
        }
    }

    // As many cells and bytes or digits are lent.
    pub(crate) fn lent(self) -> Lent {
        Lent {
            shape: self.shape,
            cells: self.cells,
            payload: self.payload,
        }
    }
}

// A shape, with how many cells of a field, maybe none, and how many bytes or digits of a payload are lent for it.
#[derive(Clone, Copy)]
pub(crate) struct Lent {
    pub(crate) shape: Shape,
    pub(crate) cells: usize,
    pub(crate) payload: usize,
    ghost small: { (cells ≤ 512) × (payload ≤ 512) },
}
