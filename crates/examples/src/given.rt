// What the library gives for a shape, a cell and settings, as an answer.

use lattice::distance::{distance_test, failing, holds, tried};
use lattice::refusal::{figure, number};
use lattice::shape::{Shape, ShapeNumbers};
use second::answer;
use second::answer::Answer;

// The figures: the numbers of a shape.
pub(crate) fn of_numbers(n: ShapeNumbers) -> Answer {
    let window = n.window;
    answer::of(
        0,
        [
            n.columns,
            n.rows,
            n.planes,
            n.strength,
            window.rows,
            window.columns,
        ],
    )
}

pub(crate) fn shape(numbers: ShapeNumbers) -> Answer {
    match Shape::new(numbers) {
        Ok(s) => of_numbers(s.numbers()),
        Err(why) => answer::of(why.number(), [0; 6]),
    }
}

pub(crate) fn plan(shape: Shape) -> Answer {
    let given = codec::plan::plan(shape);
    let p = codec::plan::figures(given);
    answer::of(
        number(&given),
        [p.classes, p.capacity, p.bytes, p.cells, p.used, p.digits],
    )
}

pub(crate) fn class(shape: Shape, row: usize, plane: usize, column: usize) -> Answer {
    let given = shape.class_of(row, plane, column);
    answer::of(number(&given), [figure(given), 0, 0, 0, 0, 0])
}

// A coordinate from −17 to 17, with 17 added; 99, which the second implementation never gives, for any other.
fn shifted(z: i32) -> usize {
    if (-17..=17).contains(&z) {
        (z + 17) as usize
    } else {
        99
    }
}

// The figures: whether the settings hold, the triple, with 17 added to each coordinate, and how many were tried.
pub(crate) fn gauge(m: usize, b: usize, c: usize, t: usize) -> Answer {
    let given = distance_test(m, b, c, t);
    let x = failing(given);
    let holds = usize::from(holds(given));
    answer::of(
        number(&given),
        [
            holds,
            shifted(x.row),
            shifted(x.plane),
            shifted(x.column),
            tried(given) as usize,
            0,
        ],
    )
}
