// Shapes with a window: those that it rules, and those that are refused for it.
ghost use Rattle.std.specs.Prelude.{◌<◌, ◌≤◌};

use crate::cases::shapes::{Listed, listed, shape_of, side};
use lattice::shape::{Shape, Window};
use second::answer::CELLS;

// A shape of one plane that is ruled by a window of p rows by q columns.
pub(crate) fn ruled(columns: u16, rows: u16, p: usize, q: usize) -> Shape {
    Shape {
        window: Window {
            rows: p,
            columns: q,
        },
        ..shape_of(columns, rows, 1, 0)
    }
}

// The rows and columns of windows of at most 512 cells.
const RULING: [(u16, u16); 20] = [
    (1, 1),
    (1, 2),
    (2, 1),
    (2, 2),
    (2, 3),
    (3, 2),
    (1, 7),
    (9, 1),
    (3, 5),
    (5, 3),
    (4, 4),
    (8, 8),
    (7, 13),
    (22, 22),
    (22, 23),
    (511, 1),
    (1, 512),
    (512, 1),
    (2, 256),
    (16, 32),
];

// A small field of about so many columns and rows, with a window of p rows by q columns.
fn field(columns: usize, rows: usize, p: usize, q: usize) -> Shape {
    let w = side(columns);
    let most = side(CELLS / w as usize);
    ruled(w, side(rows).min(most), p, q)
}

// The fields for a window: its sides less 1, its sides, its sides and 1 more, twice its sides and 1 more, a field with room for
// many small windows, and one row or one column.
#[derive(Clone, Copy)]
enum RuledField {
    Less,
    Same,
    More,
    AboveTwice,
    Many,
    Line,
}

const FIELDS: [RuledField; 6] = [
    RuledField::Less,
    RuledField::Same,
    RuledField::More,
    RuledField::AboveTwice,
    RuledField::Many,
    RuledField::Line,
];

// How many of these kinds there are.
const KINDS: u16 = FIELDS.len() as u16;

impl RuledField {
    fn shape(self, (rows, columns): (u16, u16)) -> Shape {
        let p = usize::from(rows);
        let q = usize::from(columns);
        match self {
            RuledField::Less => field(q.saturating_sub(1), p.saturating_sub(1), p, q),
            RuledField::Same => field(q, p, p, q),
            RuledField::More => field(q + 1, p + 1, p, q),
            RuledField::AboveTwice => field(2 * q + 1, 2 * p + 1, p, q),
            RuledField::Many => field(19, 256, p, q),
            RuledField::Line => if p < q {
                field(256, 1, p, q)
            } else {
                field(1, 256, p, q)
            },
        }
    }
}

// How many fields these windows rule: of each kind one.
const RULED: u16 = KINDS * RULING.len() as u16;

// Windows that rule no field: a side is 0, or the product is above 512, or it does not fit, and what is left of it may be 0 or 1.
const UNRULED: [(usize, usize); 22] = [
    (0, 5),
    (5, 0),
    (0, 512),
    (18446744073709551615, 0),
    (513, 1),
    (1, 513),
    (23, 23),
    (22, 24),
    (2, 257),
    (257, 2),
    (512, 2),
    (65536, 65536),
    (65537, 1),
    (1, 65538),
    (4294967296, 4294967296),
    (4294967297, 4294967295),
    (9223372036854775808, 2),
    (2, 9223372036854775808),
    (18446744073709551615, 18446744073709551615),
    (18446744073709551615, 1),
    (1, 18446744073709551615),
    (6148914691236517206, 3),
];

// Windows beside a strength, in more than one plane and in fields that are refused; and large fields, whose buffers are not of
// the plan's length.
const OTHERS: [Listed; 15] = [
    ([5, 9, 1, 3], [2, 2]),
    ([5, 9, 1, 3], [1, 0]),
    ([5, 9, 1, 3], [0, 1]),
    ([5, 9, 1, 32], [18446744073709551615, 0]),
    ([5, 9, 1, 33], [2, 2]),
    ([5, 4, 3, 3], [2, 2]),
    ([5, 4, 3, 9], [2, 2]),
    ([5, 4, 3, 0], [2, 2]),
    ([5, 4, 3, 0], [0, 2]),
    ([5, 4, 3, 0], [513, 1]),
    ([257, 1, 1, 0], [2, 2]),
    ([0, 5, 1, 0], [0, 2]),
    ([256, 256, 1, 0], [1, 1]),
    ([256, 256, 1, 0], [4, 4]),
    ([255, 256, 1, 0], [3, 2]),
];

pub(crate) const SHAPES: u16 = RULED + UNRULED.len() as u16 + OTHERS.len() as u16;

// Case k of the shapes with a window. The last list is counted round.
pub(crate) fn shape(k: u16) -> Shape {
    if k < RULED {
        return FIELDS[(k % KINDS) as usize].shape(RULING[(k / KINDS) as usize]);
    }
    let j = (k - RULED) as usize;
    if j < UNRULED.len() {
        let (p, q) = UNRULED[j];
        return ruled(5, 9, p, q);
    }
    listed(OTHERS[(j - UNRULED.len()) % OTHERS.len()])
}
