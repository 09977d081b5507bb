// Damage in one window, wherever it lies: it may hang over each edge of the field.
ghost use Rattle.std.specs.Prelude.{◌<◌, ◌≤◌};

use crate::cases::damage::Stroke;
use crate::cases::random;
use crate::cases::random::After;
use crate::cases::sizes::Sizes;
use lattice::shape::Window;
use second::answer::Buffer;

// A side of a window, from 1 to 512.
pub(crate) fn span(side: usize) -> usize
    ensures { (0 < result) × (result ≤ 512) }
{
    side.clamp(1, 512)
}

// Whether x is one of the numbers, as many as `span` says, that start so many before `first`.
fn covers(first: usize, before: usize, span: usize, x: usize) -> bool {
    let shifted = x.wrapping_add(before);
    first <= shifted && shifted - first < span
}

// Whether cell i lies in a window with cell `start`, which has a row and a column there by chance.
fn lies_in(columns: u16, window: Window, start: usize, x: u64, i: usize) -> bool {
    let w = columns as usize;
    if w == 0 {
        return false;
    }
    let p = span(window.rows);
    let q = span(window.columns);
    covers(start / w, random::below(x, p), p, i / w)
        && covers(start % w, random::below(random::next(x), q), q, i % w)
}

impl Sizes {
    // Erases or turns over the cells of such a window: all of them, or each by chance.
    pub(crate) fn tear(
        self,
        window: Window,
        start: usize,
        stroke: Stroke,
        x: u64,
        field: &mut Buffer,
    ) {
        let y = random::later(x);
        let z = random::later(y);
        let some = random::below(z, 2);
        let cells = field[..self.cells].iter_mut().enumerate();
        for ((i, cell), state) in cells.zip(After(z)) {
            if lies_in(self.shape.columns, window, start, y, i) && some <= random::below(state, 2) {
                *cell = stroke.on(*cell);
            }
        }
    }
}
