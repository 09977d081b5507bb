// The gauge: every triple of a cube is looked at, in order, and those that do not count are passed over.
ghost use Rattle.std.specs.Prelude.{◌≡◌, ◌<◌, ◌≤◌, MatchResult, IfSome, slice_index};
ghost use Rattle.second.specs.Declined.{number_of};

use crate::answer;
use crate::answer::{Answer, Figures};
use crate::declined::Declined;
use crate::settings::Settings;

// A coordinate of the cube is a number from −17 to 17, held with 17 added.
const ZERO: usize = 17;

const SIDE: usize = 35;

// A triple is its number in rising order of row, then plane, then column. That of (0, 0, 0) is in the middle: the first number
// of a triple that isn't 0 is positive where the triple comes after it.
const TRIPLES: usize = SIDE * SIDE * SIDE;

const MIDDLE: usize = TRIPLES / 2;

fn row(x: usize) -> usize
    requires { x < 42875 }
    ensures { result < 35 }
{
    x / SIDE / SIDE
}

fn plane(x: usize) -> usize
    ensures { result < 35 }
{
    x / SIDE % SIDE
}

// The absolute value of a coordinate.
fn size(coordinate: usize) -> usize
    requires { coordinate < 35 }
    ensures { result ≤ 17 }
{
    coordinate.abs_diff(ZERO)
}

// Whether a triple is tried at strength t.
fn counts(x: usize, t: usize) -> bool
    requires { x < 42875 }
{
    MIDDLE < x && size(row(x)) + size(plane(x)) + size(x % SIDE) < t
}

// Whether column − b × row − c × plane is divisible by m: the negative parts are moved to the other side.
fn divides(s: Settings, x: usize) -> bool
    requires { (0 < s.m) × (x < 42875) }
{
    let m = s.m as usize;
    let left = x % SIDE + s.steps(ZERO, ZERO);
    let right = ZERO + s.steps(row(x), plane(x));
    left % m == right % m
}

// The figures: whether the settings hold, as no triple is found, the triple, with 17 added to each coordinate, and how many were
// tried.
fn verdict(found: Option<usize>, tried: usize) -> Figures
    requires { IfSome found (λ x. x < 42875) }
    ensures { slice_index result 0 ≤ 1 }
{
    let x = found.unwrap_or(MIDDLE);
    [
        usize::from(found.is_none()),
        row(x),
        plane(x),
        x % SIDE,
        tried,
        0,
    ]
}

// The figures of settings at a strength: the first triple that counts and divides is looked for.
fn search(s: Settings, t: usize) -> Figures
    requires { 0 < s.m }
    ensures { slice_index result 0 ≤ 1 }
{
    let mut tried = 0;
    for x in 0..TRIPLES {
        if counts(x, t) {
            tried += 1;
            if divides(s, x) {
                return verdict(Some(x), tried);
            }
        }
    }
    verdict(None, tried)
}

// The figures, where the settings and the strength are within the limits.
fn gauged(m: usize, b: usize, c: usize, t: usize) -> Result<Figures, Declined>
    ensures { MatchResult result (λ figures. slice_index figures 0 ≤ 1) (λ why. number_of why ≤ 9) }
{
    if !(1..=18).contains(&t) {
        return Err(Declined::BadStrength);
    }
    if 4096 < m || m <= b || m <= c {
        return Err(Declined::BadSettings);
    }
    let s = Settings {
        m: m as u16,
        b: b as u16,
        c: c as u16,
    };
    Ok(search(s, t))
}

// Whether settings hold at a strength. Any numbers are taken: what is outside the limits is declined, and beside its number the
// triple is (0, 0, 0).
pub fn gauge(m: usize, b: usize, c: usize, t: usize) -> Answer
    ensures { (result.number ≤ 9) × (slice_index result.figures 0 ≤ 1) }
{
    match gauged(m, b, c, t) {
        Ok(figures) => answer::of(0, figures),
        Err(why) => answer::of(why.number(), [0, ZERO, ZERO, ZERO, 0, 0]),
    }
}
