// Shapes whose plans alone are compared: every flat shape up to 12 by 12 at every strength, stacks, and windows larger and
// smaller than their fields.
use crate::cases::random::Case;
use crate::cases::shapes::shape_of;
use crate::cases::windows::ruled;
use crate::given;
use crate::tally::{Operation, Tally};
use lattice::shape::Shape;

// How many shapes of each kind there are: 12 × 12 × 32, 6 × 5 × 4 × 8 and 5 × 4 × 7 × 8.
const FLAT: u16 = 4608;

const STACKS: u16 = 960;

const WINDOWS: u16 = 1120;

const SHAPES: u16 = FLAT + STACKS + WINDOWS;

// Shape k: a flat one of 1 to 12 columns and rows; a stack of 1 to 6 columns, 1 to 5 rows and 2 to 5 planes; or 1 to 5 columns
// and 1 to 4 rows with a window of 1 to 7 rows by 1 to 8 columns.
fn shape(k: u16) -> Shape {
    if k < FLAT {
        return shape_of(k % 12 + 1, k / 12 % 12 + 1, 1, k / 144 + 1);
    }
    if k < FLAT + STACKS {
        let j = k - FLAT;
        return shape_of(j % 6 + 1, j / 6 % 5 + 1, j / 30 % 4 + 2, j / 120 + 1);
    }
    let j = k - FLAT - STACKS;
    ruled(
        j % 5 + 1,
        j / 5 % 4 + 1,
        (j / 20 % 7 + 1) as usize,
        (j / 140 + 1) as usize,
    )
}

pub(crate) fn all(tally: &mut Tally) {
    for k in 0..SHAPES {
        let shape = shape(k);
        let case = Case::new(k as usize, 700);
        let expected = second::placing::plan(shape);
        tally.compare(Operation::Plan, case, &given::plan(shape), &expected);
    }
}
