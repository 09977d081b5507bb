// A window of p rows by q columns, which rules at strength 0: its classes, and the class of a cell.
ghost use Rattle.std.specs.Prelude.{◌≡◌, ◌*◌, ◌<◌, ◌≤◌, IfSome};

use crate::settings::CLASSES;
use lattice::shape::Window;

// Whether both sides are 0.
pub(crate) fn is_none(window: Window) -> bool {
    window.rows == 0 && window.columns == 0
}

// p × q, where that is from 1 to 512.
pub(crate) fn classes(window: Window) -> Option<usize>
    ensures { IfSome result (λ m. (m ≡ window.rows * window.columns) × (m ≤ 512)) }
{
    window
        .rows
        .checked_mul(window.columns)
        .filter(|m| (1..=CLASSES).contains(m))
}

// Whether x − i is a multiple of a side, where i is below the side; so it is none where x is less than i.
fn falls_on(side: usize, i: usize, x: usize) -> bool {
    side != 0 && i <= x && (x - i) % side == 0
}

// The class of a cell, by search. The cells of a window are numbered row by row, i and j being the row and the column of number a
// in it. The class is the first number for which row − i is a multiple of p and column − j one of q.
pub(crate) fn class(window: Window, row: usize, column: usize) -> usize
    ensures { result < 512 }
{
    if classes(window).is_none() {
        return 0;
    }
    let p = window.rows;
    let q = window.columns;
    for i in 0..p {
        for j in 0..q {
            if falls_on(p, i, row) && falls_on(q, j, column) {
                return i * q + j;
            }
        }
    }
    0
}
