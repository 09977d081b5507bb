// Shaded fields that are written, damaged, read and mended: of every shape in some ways, and of small ones with each fault of
// each cell, also at both ends of the shades, and with two faults in every two cells.
ghost use Rattle.std.specs.Prelude.{◌<◌, ◌≤◌};

use crate::cases::faults::{CHANGES, ENDS, FAULTS, ROUND};
use crate::cases::random::Case;
use crate::cases::shapes::{Listed, listed};
use crate::cases::sizes::{Lent, Sizes};
use crate::cases::{faults, random, shapes};
use crate::coding::{Coding, Shaded, receive, send};
use crate::tally::Tally;
use lattice::shape::Shape;
use second::answer::{Buffer, CELLS};

// Small shapes, behind those of the plain fields: classes of fewer than six cells, of one word, of one word and cells that belong
// to none, and of two words and more; flat ones, stacks, and windows smaller and larger than the field.
const SMALL: [Listed; 24] = [
    ([6, 1, 1, 1], [0, 0]),
    ([7, 1, 1, 1], [0, 0]),
    ([12, 1, 1, 2], [0, 0]),
    ([5, 1, 1, 1], [0, 0]),
    ([1, 1, 1, 1], [0, 0]),
    ([13, 1, 1, 1], [0, 0]),
    ([4, 5, 1, 2], [0, 0]),
    ([6, 5, 1, 3], [0, 0]),
    ([5, 5, 1, 3], [0, 0]),
    ([6, 6, 1, 3], [0, 0]),
    ([7, 7, 1, 4], [0, 0]),
    ([1, 20, 1, 2], [0, 0]),
    ([9, 2, 1, 1], [0, 0]),
    ([3, 3, 2, 1], [0, 0]),
    ([3, 2, 4, 2], [0, 0]),
    ([4, 4, 3, 3], [0, 0]),
    ([2, 5, 2, 2], [0, 0]),
    ([6, 4, 1, 0], [2, 2]),
    ([5, 5, 1, 0], [2, 2]),
    ([5, 4, 1, 0], [7, 8]),
    ([1, 13, 1, 0], [1, 1]),
    ([8, 3, 1, 0], [1, 4]),
    ([7, 2, 1, 0], [512, 1]),
    ([13, 2, 1, 0], [1, 2]),
];

// What is lent in a case: as much as the plan says, or else.
// A case's number draws it, and chooses its digits, its damage and what is lent alike, so it stays a number.
fn lent(case: usize, sizes: Sizes) -> Lent {
    let cells = sizes.cells;
    let digits = sizes.payload;
    Lent {
        shape: sizes.shape,
        cells: match case {
            15 => cells / 2,
            16 => 0,
            17 | 23 | 24 => (cells + 1) % (CELLS + 1),
            _ => cells,
        },
        payload: match case {
            18 => if 0 < digits { digits - 1 } else { 3 },
            19 | 23 => (digits + 1) % (CELLS + 1),
            20 => 0,
            _ => digits,
        },
    }
}

// What is written into a field of the sizes by the second implementation.
fn written(sizes: Sizes, payload: Buffer, before: Buffer) -> Buffer {
    Shaded::expected_write(sizes.lent(), payload, before).buffer
}

// A part of the cases of a shape: digits are written, and a field, written and damaged, is read and mended.
fn compare(tally: &mut Tally, case: Case, sizes: Sizes) {
    let x = case.seed();
    let mut payload = faults::digits(case.part, x);
    let before = random::buffer(random::next(x), 256);
    let mut field = written(sizes, payload, before);
    sizes.damage_shades(case.part, x, &mut field);
    let lent = lent(case.part, sizes);
    faults::soil(case.part, sizes.payload, x, &mut payload);
    send::<Shaded>(tally, case, lent, payload, before);
    receive::<Shaded>(tally, case, lent, field, before);
}

const CASES: usize = 25;

fn cases(tally: &mut Tally, k: usize, sizes: Sizes) {
    for v in 0..CASES {
        compare(tally, Case::new(k, v), sizes);
    }
}

// A step with cell i: a change of it or, behind these, a fault in it and each fault in each cell before it.
fn struck(i: usize, step: usize, x: u64, written: Buffer) -> Buffer
    requires { i < 512 }
{
    let mut field = written;
    if step < CHANGES.len() {
        field[i] = CHANGES[step].on(field[i]);
        return field;
    }
    let behind = step - CHANGES.len();
    let other = behind / FAULTS.len();
    if other < CELLS {
        field[i] = random::pick(x, &FAULTS).on(field[i]);
        field[other] = FAULTS[behind % FAULTS.len()].on(field[other]);
    }
    field
}

// Every step with cell i of shape k.
fn around(tally: &mut Tally, k: usize, sizes: Sizes, i: usize)
    requires { i < sizes.cells }
{
    let x = Case::new(k, 1000 + i).seed();
    let payload = faults::digits(3 + i % 2 * 2, x);
    let lent = random::buffer(random::next(x), 256);
    let written = written(sizes, payload, lent);
    for step in 0..CHANGES.len() + FAULTS.len() * i {
        let case = Case::new(k, 1000 * (1 + i) + step);
        let field = struck(i, step, x ^ step as u64, written);
        receive::<Shaded>(tally, case, sizes.lent(), field, lent);
    }
}

// Every step with every cell.
fn sweep(tally: &mut Tally, k: usize, sizes: Sizes) {
    for i in 0..sizes.cells {
        around(tally, k, sizes, i);
    }
}

// Each fault of each cell, and so all 24 of every word, where all digits are the same.
fn each_fault(tally: &mut Tally, k: usize, sizes: Sizes, digit: u8) {
    let lent = [77; CELLS];
    let written = written(sizes, [digit; CELLS], lent);
    for i in 0..sizes.cells {
        for (n, fault) in ROUND.iter().enumerate() {
            let part = 1000000 * (1 + digit as usize) + i * ROUND.len() + n;
            let mut field = written;
            field[i] = fault.on(field[i]);
            receive::<Shaded>(tally, Case::new(k, part), sizes.lent(), field, lent);
        }
    }
}

// All that is compared of one shape. Where the plan has no cells, others are lent. Of the small shapes each step and each fault
// is tried, with each digit that brings cells to the ends of the shades.
fn all_of(tally: &mut Tally, k: usize, shape: Shape) {
    let [_, _, _, cells, _, digits] = second::placing::plan(shape).figures;
    let Some(sizes) = Sizes::planned(shape, cells, digits) else {
        cases(tally, k, Sizes::unplanned(shape, 5));
        return;
    };
    cases(tally, k, sizes);
    if shapes::SHAPES as usize <= k {
        sweep(tally, k, sizes);
        for digit in ENDS {
            each_fault(tally, k, sizes, digit);
        }
    }
}

pub(crate) fn all(tally: &mut Tally) {
    for k in 0..shapes::SHAPES {
        all_of(tally, k as usize, shapes::shape(k));
    }
    for (k, shape) in SMALL.iter().enumerate() {
        all_of(tally, shapes::SHAPES as usize + k, listed(*shape));
    }
}
