// The cases of one shape: its plan, the classes of some cells, and fields that are written, damaged, read and mended.
ghost use Rattle.std.specs.Prelude.{◌<◌, ◌≤◌};

use crate::cases::random::Case;
use crate::cases::sizes::{Lent, Sizes};
use crate::cases::{padding, random, shapes};
use crate::coding::{Plain, receive, send};
use crate::given;
use crate::tally::{Operation, Tally};
use lattice::shape::Shape;
use second::answer::CELLS;
use second::write::{PATTERN, ZEROS, write};

// What is lent in a case: as much as the plan says, or else.
// A case's number draws it, and chooses its padding, its damage and what is lent alike, so it stays a number.
fn lent(case: usize, sizes: Sizes) -> Lent {
    let cells = sizes.cells;
    let bytes = sizes.payload;
    Lent {
        shape: sizes.shape,
        cells: match case {
            11 => cells / 2,
            12 => (cells + 1) % (CELLS + 1),
            _ => cells,
        },
        payload: match case {
            12 => (bytes + 1) % (CELLS + 1),
            13 | 28 => if 0 < bytes { bytes - 1 } else { 3 },
            _ => bytes,
        },
    }
}

// The padding of a case's field, as the first bits of a byte: the pattern or, as often, zeros; but any bits in a fifth of the
// fields, and in all of the cases with wrong padding. The number stays one, as in `lent`.
fn padding_of(case: usize, x: u64) -> u8 {
    let any = (x % 256) as u8;
    match (case, x / 256 % 5) {
        (8 | 9 | 21, _) => any,
        (_, 0 | 1) => PATTERN,
        (_, 2 | 3) => ZEROS,
        _ => any,
    }
}

// The first case with erased cells.
const ERASURES: usize = 14;

// A part of the cases of a shape: a payload is written, and a field, written with some padding and damaged, is read and mended.
fn compare(tally: &mut Tally, case: Case, sizes: Sizes) {
    let shape = sizes.shape;
    let v = case.part;
    let x = case.seed();
    let payload = random::buffer(x, 256);
    let before = random::buffer(random::next(x), 256);
    let padding = padding_of(v, x);
    let mut field = write(shape, payload, sizes.payload, padding, before, sizes.cells).buffer;
    if v < ERASURES {
        sizes.damage(v, x, &mut field);
    } else {
        sizes.erase(v - ERASURES, x, &mut field);
    }
    let lent = lent(v, sizes);
    send::<Plain>(tally, case, lent, payload, before);
    receive::<Plain>(tally, case, lent, field, before);
}

// Some coordinate of a side, and now and then the first one past it.
fn coordinate(x: u64, side: u16) -> usize {
    if side == 0 || x % 16 == 0 {
        return side as usize;
    }
    random::below(x, side as usize)
}

// The class of a cell.
pub(crate) fn class(
    tally: &mut Tally,
    k: usize,
    shape: Shape,
    row: usize,
    plane: usize,
    column: usize,
) {
    let case = Case::new(k, 0);
    let given = given::class(shape, row, plane, column);
    let expected = second::placing::class(shape, row, plane, column);
    tally.compare(Operation::Class, case, &given, &expected);
}

// The class of some cell.
fn some_class(tally: &mut Tally, k: usize, shape: Shape, x: u64) {
    let y = random::next(x);
    let row = coordinate(x, shape.rows);
    let plane = coordinate(y, shape.planes);
    let column = coordinate(random::next(y), shape.columns);
    class(tally, k, shape, row, plane, column);
}

// How many cells of a shape have their classes compared, and how often a field of a shape is written, read and mended.
const CLASSES: usize = 12;

const CASES: usize = ERASURES + 15;

fn cases(tally: &mut Tally, k: usize, sizes: Sizes) {
    let mut x = Case::new(k, 200).seed();
    for v in 0..CASES {
        compare(tally, Case::new(k, v), sizes);
        if v < CLASSES {
            some_class(tally, k, sizes.shape, x);
        }
        x = random::later(x);
    }
}

// All that is compared of one shape. Where the plan has no cells, others are lent. With the last shapes every padding is tried.
fn all_of(tally: &mut Tally, k: usize, shape: Shape) {
    let case = Case::new(k, 0);
    let expected = second::placing::plan(shape);
    tally.compare(Operation::Plan, case, &given::plan(shape), &expected);
    let [_, capacity, bytes, cells, _, _] = expected.figures;
    let Some(sizes) = Sizes::planned(shape, cells, bytes) else {
        cases(tally, k, Sizes::unplanned(shape, 1));
        return;
    };
    cases(tally, k, sizes);
    if shapes::FOR_PADDING as usize <= k {
        padding::all(tally, k, sizes, capacity.min(CELLS) % 8);
    }
}

pub(crate) fn all(tally: &mut Tally) {
    for k in 0..shapes::SHAPES {
        all_of(tally, k as usize, shapes::shape(k));
    }
}
