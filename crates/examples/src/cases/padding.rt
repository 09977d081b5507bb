// Paddings of 1 to 7 cells with all their values: clean, and with each padding cell turned over or erased.
ghost use Rattle.std.specs.Prelude.{◌<◌, ◌≤◌};

use crate::cases::damage::Stroke;
use crate::cases::random;
use crate::cases::random::Case;
use crate::cases::shapes::Listed;
use crate::cases::sizes::Sizes;
use crate::coding::{Plain, receive};
use crate::tally::Tally;
use second::answer::CELLS;
use second::write::write;

// For each number of padding cells a flat shape, a stack and a field that a window rules. Some have room for no payload.
pub(crate) const SHAPES: [Listed; 21] = [
    ([3, 1, 1, 1], [0, 0]),
    ([5, 2, 3, 3], [0, 0]),
    ([5, 4, 1, 0], [1, 3]),
    ([5, 5, 1, 3], [0, 0]),
    ([3, 1, 2, 2], [0, 0]),
    ([4, 6, 1, 0], [2, 3]),
    ([6, 1, 1, 1], [0, 0]),
    ([5, 4, 2, 3], [0, 0]),
    ([5, 3, 1, 0], [3, 2]),
    ([5, 7, 1, 3], [0, 0]),
    ([5, 1, 2, 2], [0, 0]),
    ([5, 6, 1, 0], [2, 4]),
    ([4, 7, 1, 3], [0, 0]),
    ([5, 1, 4, 3], [0, 0]),
    ([5, 7, 1, 0], [4, 2]),
    ([4, 3, 1, 2], [0, 0]),
    ([5, 3, 2, 2], [0, 0]),
    ([6, 5, 1, 0], [3, 2]),
    ([5, 6, 1, 3], [0, 0]),
    ([4, 3, 2, 3], [0, 0]),
    ([7, 5, 1, 0], [1, 3]),
];

// Padding cell j. Where it alone of the cells that hold no check is 1, it is the last cell that is 1: the checks that are 1 are
// of its class and lie before it.
fn padding_cell(sizes: Sizes, j: usize) -> usize
    requires { j < 8 }
    ensures { result < 512 }
{
    let alone = write(
        sizes.shape,
        [0; CELLS],
        sizes.payload,
        128 >> j,
        [0; CELLS],
        sizes.cells,
    );
    alone
        .buffer
        .iter()
        .rposition(|&cell| cell == 1)
        .unwrap_or(0)
}

// How many bytes there are, with 8 numbers of a padding cell each, and two ways to damage it.
const STEPS: usize = 256 * 8 * 2;

// A step for n padding cells: their bits, as the first of a byte whose others are 0, and the number of the cell that is turned
// over or erased; where that is n, the field is clean.
fn compare(tally: &mut Tally, k: usize, sizes: Sizes, n: usize, step: usize)
    requires { (n < 8) × (step < 4096) }
{
    let bits = step / 16;
    let j = step / 2 % 8;
    if (bits << n) % 256 != 0 || n < j {
        return;
    }
    let case = Case::new(k, 1000 + step);
    let x = case.seed();
    let payload = random::buffer(x, 256);
    let before = random::buffer(random::next(x), 256);
    let mut field = write(
        sizes.shape,
        payload,
        sizes.payload,
        bits as u8,
        before,
        sizes.cells,
    )
    .buffer;
    if j != n {
        let stroke = if step % 2 == 1 {
            Stroke::Erase
        } else {
            Stroke::TurnOver
        };
        let i = padding_cell(sizes, j);
        field[i] = stroke.on(field[i]);
    }
    receive::<Plain>(tally, case, sizes.lent(), field, before);
}

pub(crate) fn all(tally: &mut Tally, k: usize, sizes: Sizes, n: usize)
    requires { n < 8 }
{
    for step in 0..STEPS {
        compare(tally, k, sizes, n, step);
    }
}
