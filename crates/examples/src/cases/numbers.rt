// Cases for making a shape, with a window and without, the class of a cell far outside, and the gauge.
ghost use Rattle.std.specs.Prelude.{◌<◌};

use crate::cases::random::Case;
use crate::cases::shapes::{NO_WINDOW, shape_of};
use crate::cases::{fields, random, windows};
use crate::given;
use crate::tally::{Operation, Tally};
use lattice::shape::{Shape, ShapeNumbers, Window};
use second::answer;
use second::answer::Answer;

// Numbers near the limits.
const EDGES: [usize; 16] = [
    0,
    2,
    8,
    9,
    15,
    16,
    17,
    32,
    33,
    255,
    256,
    257,
    65536,
    65537,
    18446744073709551615,
    1,
];

fn edge(x: u64) -> usize {
    random::pick(x, &EDGES)
}

// A number of 16 bits; 65,535, which is outside every limit, stands for the larger ones.
fn narrow(x: usize) -> u16 {
    u16::try_from(x).unwrap_or(u16::MAX)
}

// The shape with the numbers that it is made of.
fn expected(n: ShapeNumbers) -> Answer {
    let number = second::placing::shape(Shape {
        columns: narrow(n.columns),
        rows: narrow(n.rows),
        planes: narrow(n.planes),
        strength: narrow(n.strength),
        window: n.window,
    });
    if number != 0 {
        return answer::of(number, [0; 6]);
    }
    given::of_numbers(n)
}

// Four numbers near a limit, for a shape, or three of them for a cell.
fn numbers(x: u64) -> ShapeNumbers {
    let y = random::next(x);
    let z = random::next(y);
    ShapeNumbers {
        columns: edge(x),
        rows: edge(y),
        planes: edge(z),
        strength: edge(random::next(z)),
        window: NO_WINDOW,
    }
}

// Making a shape of some numbers.
fn make(tally: &mut Tally, case: Case, n: ShapeNumbers) {
    tally.compare(Operation::Shape, case, &given::shape(n), &expected(n));
}

// Making a shape.
fn shape(tally: &mut Tally, k: usize) {
    let case = Case::new(k, 300);
    make(tally, case, numbers(case.seed()));
}

// Sides of a window near the limits.
const SIDES: [usize; 16] = [
    0,
    1,
    2,
    21,
    22,
    23,
    24,
    255,
    256,
    257,
    511,
    512,
    513,
    4294967296,
    9223372036854775808,
    18446744073709551615,
];

// Making a shape with window k of 256, each side one of these.
fn window(tally: &mut Tally, k: usize, planes: usize, strength: usize) {
    let case = Case::new(k, 600);
    let n = ShapeNumbers {
        columns: 5,
        rows: 9,
        planes,
        strength,
        window: Window {
            rows: SIDES[k % 16],
            columns: SIDES[k / 16 % 16],
        },
    };
    make(tally, case, n);
}

// Every such window at strength 0, in one plane and in two, and at strengths that have none or are outside the limits; and every
// cell of a field that a window rules.
pub(crate) fn with_windows(tally: &mut Tally) {
    for k in 0..256 {
        window(tally, k, 1, 0);
        window(tally, k, 2, 0);
        window(tally, k, 1, 3);
        window(tally, k, 1, 33);
        fields::class(tally, k, windows::ruled(16, 16, 3, 5), k / 16, 0, k % 16);
    }
}

// A cell far outside a shape.
fn class(tally: &mut Tally, k: usize) {
    let n = numbers(Case::new(k, 400).seed());
    fields::class(tally, k, shape_of(16, 9, 2, 5), n.columns, n.rows, n.planes);
}

// The least of a number of the settings, and how far it goes beyond it.
type Spread = (u16, u16);

// The kinds of settings: of the stack's table, near the limits, and with few or many classes. Of each kind m, b, c and t; where
// there is none, each is near a limit.
const KINDS: [Option<[Spread; 4]>; 7] = [
    Some([(7, 0), (2, 0), (3, 0), (0, 19)]),
    Some([(38, 0), (7, 0), (11, 0), (0, 19)]),
    Some([(92, 0), (9, 0), (39, 0), (0, 19)]),
    None,
    Some([(4090, 9), (0, 4099), (0, 4099), (0, 19)]),
    Some([(0, 29), (0, 29), (0, 29), (0, 19)]),
    Some([(100, 899), (0, 29), (0, 29), (0, 19)]),
];

// Some number of a spread.
fn within((least, beyond): Spread, x: u64) -> usize {
    usize::from(least) + random::below(x, usize::from(beyond) + 1)
}

// The settings m, b, c and t of case k.
fn settings(k: usize) -> [usize; 4] {
    let [x, y, z, u] = [500, 501, 502, 503].map(|part| Case::new(k, part).seed());
    match KINDS[k % 7] {
        None => [edge(x), edge(y), edge(z), edge(u)],
        Some(kind) => {
            let [m, b, c, t] = kind;
            [within(m, x), within(b, y), within(c, z), within(t, u)]
        }
    }
}

fn gauge(tally: &mut Tally, k: usize) {
    let [m, b, c, t] = settings(k);
    let given = given::gauge(m, b, c, t);
    let expected = second::gauge::gauge(m, b, c, t);
    tally.compare(Operation::Gauge, Case::new(k, 500), &given, &expected);
}

// In 200 rounds 3 shapes are made, a cell is looked up and 2 settings are gauged.
pub(crate) fn all(tally: &mut Tally) {
    for k in 0..200 {
        shape(tally, k);
        shape(tally, k + 200);
        shape(tally, k + 400);
        gauge(tally, k);
        gauge(tally, k + 200);
        class(tally, k);
    }
}
