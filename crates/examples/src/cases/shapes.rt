// Flat shapes, stacks, refused shapes and, from their own modules, shapes with a window and for each number of padding cells.
ghost use Rattle.std.specs.Prelude.{◌<◌, ◌≤◌};

use crate::cases::random::Case;
use crate::cases::{padding, random, windows};
use lattice::shape::{Shape, Window};
use second::answer::CELLS;

pub(crate) const NO_WINDOW: Window = Window {
    rows: 0,
    columns: 0,
};

pub(crate) fn shape_of(columns: u16, rows: u16, planes: u16, strength: u16) -> Shape {
    Shape {
        columns,
        rows,
        planes,
        strength,
        window: NO_WINDOW,
    }
}

// A shape of a list: the columns, rows and planes and the strength, and the sides of the window, both 0 where it has none.
pub(crate) type Listed = ([u16; 4], [usize; 2]);

pub(crate) fn listed((sizes, window): Listed) -> Shape {
    let [columns, rows, planes, strength] = sizes;
    Shape {
        columns,
        rows,
        planes,
        strength,
        window: Window {
            rows: window[0],
            columns: window[1],
        },
    }
}

// How many shapes of each kind there are.
const FLAT: u16 = 96;

const STACKS: u16 = 64;

const FLAT_EDGES: u16 = 192;

const STACK_EDGES: u16 = 48;

// How many have no window, how many come before those for every padding, and how many there are.
const PLAIN: u16 = FLAT + STACKS + ODD.len() as u16 + FLAT_EDGES + STACK_EDGES;

pub(crate) const FOR_PADDING: u16 = PLAIN + windows::SHAPES;

pub(crate) const SHAPES: u16 = FOR_PADDING + padding::SHAPES.len() as u16;

// A flat shape of some sides from `low` on.
fn small(low: u16, columns: usize, rows: usize, x: u64, t: u16) -> Shape
    requires { (low ≤ 9) × (0 < columns) × (columns ≤ 99) × (0 < rows) × (rows ≤ 99) }
{
    shape_of(
        low + random::below(x, columns) as u16,
        low + random::below(random::next(x), rows) as u16,
        1,
        t,
    )
}

// Columns and rows of large flat fields.
const LARGE: [(u16, u16); 6] = [(22, 23), (256, 2), (31, 16), (2, 256), (13, 39), (17, 29)];

// Case k of the flat shapes: each strength from 1 to 32, each with a small, a middling and a large field. The
// number counts the cases.
fn flat(k: u16) -> Shape {
    let t = k / 3 + 1;
    let x = Case::new(k as usize, 100).seed();
    match k % 3 {
        0 => small(1, 9, 9, x, t),
        1 => small(3, 12, 10, x, t),
        _ => {
            let (columns, rows) = LARGE[(k / 3 % 6) as usize];
            shape_of(columns, rows, 1, t)
        }
    }
}

// Columns, rows and planes of stacks, which all differ.
const STACKED: [(u16, u16, u16); 8] = [
    (5, 4, 3),
    (3, 7, 5),
    (1, 6, 2),
    (10, 3, 7),
    (4, 2, 16),
    (9, 11, 5),
    (2, 9, 4),
    (7, 13, 2),
];

// Case k of the stacks: each strength from 1 to 8, with each of these.
fn stack(k: u16) -> Shape {
    let (columns, rows, planes) = STACKED[(k % 8) as usize];
    shape_of(columns, rows, planes, k / 8 + 1)
}

// Shapes that plan declines, and large ones whose buffers are not of the plan's length.
const ODD: [[u16; 4]; 20] = [
    [0, 5, 1, 3],
    [5, 0, 1, 3],
    [5, 5, 0, 3],
    [257, 1, 1, 1],
    [1, 257, 1, 1],
    [2, 2, 17, 1],
    [256, 256, 2, 1],
    [256, 17, 16, 8],
    [65535, 65535, 65535, 65535],
    [0, 0, 0, 0],
    [257, 1, 1, 33],
    [5, 5, 1, 0],
    [5, 5, 1, 33],
    [5, 5, 1, 65535],
    [5, 4, 3, 0],
    [5, 4, 3, 9],
    [5, 4, 3, 32],
    [256, 256, 1, 1],
    [16, 256, 16, 2],
    [1, 1, 1, 32],
];

// A side of about x cells.
pub(crate) fn side(x: usize) -> u16
    ensures { (0 < result) × (result ≤ 256) }
{
    x.clamp(1, 256) as u16
}

// The shapes at the edges of the classes: one column, one row, and one column less than classes, as many, one more, and one above
// a multiple of them.
#[derive(Clone, Copy)]
enum Edge {
    OneColumn,
    OneRow,
    OneLess,
    AsMany,
    OneMore,
    AboveTwice,
}

const EDGES: [Edge; 6] = [
    Edge::OneColumn,
    Edge::OneRow,
    Edge::OneLess,
    Edge::AsMany,
    Edge::OneMore,
    Edge::AboveTwice,
];

impl Edge {
    // The number of columns for m classes.
    fn columns(self, m: usize) -> u16
        requires { m ≤ 512 }
        ensures { (0 < result) × (result ≤ 256) }
    {
        match self {
            Edge::OneColumn => 1,
            Edge::OneLess => if 1 < m { side(m - 1) } else { 2 },
            Edge::AsMany => side(m),
            Edge::OneMore => side(m + 1),
            Edge::OneRow | Edge::AboveTwice => side(2 * m + 1),
        }
    }

    // The shape, with as many rows as a small field has room for.
    fn shape(self, planes: u16, strength: u16) -> Shape
        requires { (0 < planes) × (planes ≤ 3) }
    {
        let [classes, ..] = second::placing::plan(shape_of(1, 1, planes, strength)).figures;
        let columns = self.columns(classes.min(CELLS));
        let rows = match self {
            Edge::OneRow => 1,
            _ => side(CELLS / columns as usize / planes as usize),
        };
        shape_of(columns, rows, planes, strength)
    }
}

// Case k of the edges: each strength from 1 to 32 in one plane, then each from 1 to 8 in two planes or three.
fn edge_case(k: u16) -> Shape {
    if k < FLAT_EDGES {
        return EDGES[(k % 6) as usize].shape(1, k / 6 + 1);
    }
    let j = k - FLAT_EDGES;
    EDGES[(j % 6) as usize].shape(2 + j % 2, j / 6 + 1)
}

// Shape k: the flat ones, the stacks, the odd ones, those at the edges of the classes, those with a window, and those for
// every padding, which are counted round.
pub(crate) fn shape(k: u16) -> Shape {
    if k < FLAT {
        return flat(k);
    }
    if k < FLAT + STACKS {
        return stack(k - FLAT);
    }
    let odd = (k - FLAT - STACKS) as usize;
    if odd < ODD.len() {
        return listed((ODD[odd], [0, 0]));
    }
    if k < PLAIN {
        return edge_case(k - FLAT - STACKS - ODD.len() as u16);
    }
    if k < FOR_PADDING {
        return windows::shape(k - PLAIN);
    }
    listed(padding::SHAPES[(k - FOR_PADDING) as usize % padding::SHAPES.len()])
}
