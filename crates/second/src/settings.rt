// The limits of a shape, its settings, and the class of a cell.
ghost use Rattle.std.specs.Prelude.{◌<◌, ◌≤◌, IfErr, MatchResult};
ghost use Rattle.second.specs.Declined.{IsUnshaded};

use crate::declined::Declined;
use crate::window;
use lattice::shape::Shape;

// A cell is of class (column − b × row − c × plane) mod m. At strength 0 a window of m cells rules, and b and c say nothing.
#[derive(Clone, Copy)]
pub(crate) struct Settings {
    pub(crate) m: u16,
    pub(crate) b: u16,
    pub(crate) c: u16,
}

// Where a cell stands in a field.
#[derive(Clone, Copy)]
pub(crate) struct Spot {
    pub(crate) row: usize,
    pub(crate) plane: usize,
    pub(crate) column: usize,
}

// The most classes that a shape has.
pub(crate) const CLASSES: usize = 512;

const MOST_CELLS: usize = 65536;

// The product with a number below 65,536.
fn times(x: u16, y: usize) -> usize
    ensures { result < 4294967296 }
{
    x as usize * (y % 65536)
}

// W × H × D.
fn product(shape: Shape) -> usize {
    times(shape.columns, shape.rows as usize) * shape.planes as usize
}

// Whether the strength and the window of a shape are accepted, where its sides are.
fn accept_strength(shape: Shape) -> Result<(), Declined>
    ensures { IfErr result IsUnshaded }
{
    let most = if shape.planes == 1 { 32 } else { 8 };
    let window = shape.window;
    if most < shape.strength || (shape.strength == 0 && window::is_none(window)) {
        return Err(Declined::BadStrength);
    }
    let fits = if shape.strength == 0 {
        shape.planes == 1 && window::classes(window).is_some()
    } else {
        window::is_none(window)
    };
    if fits {
        Ok(())
    } else {
        Err(Declined::BadWindow)
    }
}

// The number of cells of a shape that is accepted.
pub(crate) fn accept(shape: Shape) -> Result<usize, Declined>
    ensures { MatchResult result (λ cells. cells ≤ 65536) IsUnshaded }
{
    let sides = (1..=256).contains(&shape.columns) && (1..=256).contains(&shape.rows);
    let cells = product(shape);
    if !sides || !(1..=16).contains(&shape.planes) || MOST_CELLS < cells {
        return Err(Declined::BadSize);
    }
    accept_strength(shape)?;
    Ok(cells)
}

// The settings of a stack of planes at strength t.
fn stack(t: u16) -> Settings
    ensures { result.m ≤ 512 }
{
    match t {
        1 => Settings { m: 1, b: 0, c: 0 },
        2 => Settings { m: 2, b: 1, c: 1 },
        3 => Settings { m: 7, b: 2, c: 3 },
        4 => Settings { m: 12, b: 3, c: 5 },
        5 => Settings { m: 27, b: 4, c: 10 },
        6 => Settings { m: 38, b: 7, c: 11 },
        7 => Settings {
            m: 70,
            b: 16,
            c: 25,
        },
        _ => Settings { m: 92, b: 9, c: 39 },
    }
}

// The settings of one plane at strength t: an even square is halved, and of an odd one the half is rounded up.
fn flat(t: u16) -> Settings
    requires { t ≤ 32 }
    ensures { result.m ≤ 512 }
{
    let b = if t % 2 == 1 { t } else { t + 1 };
    let m = (t * t + 1) / 2;
    Settings { m, b, c: 0 }
}

// The settings of an accepted shape.
pub(crate) fn settings_of(shape: Shape) -> Settings
    ensures { result.m ≤ 512 }
{
    match shape.strength {
        0 => Settings {
            m: window::classes(shape.window).unwrap_or(0) as u16,
            b: 0,
            c: 0,
        },
        t if shape.planes == 1 && t <= 32 => flat(t),
        t => stack(t),
    }
}

impl Settings {
    // b × row + c × plane.
    pub(crate) fn steps(self, row: usize, plane: usize) -> usize
        ensures { result < 8589934592 }
    {
        times(self.b, row) + times(self.c, plane)
    }

    // The class of a cell, by search: the first a of 0 to m − 1 of which a + b × row + c × plane and the column have the same
    // remainder.
    fn class(self, spot: Spot) -> usize
        requires { self.m ≤ 512 }
        ensures { result < 512 }
    {
        let m = self.m as usize;
        let before = self.steps(spot.row, spot.plane);
        let column = spot.column.checked_rem(m).unwrap_or(0);
        // by `find` a class takes a fifth longer
        for a in 0..m {
            if (a + before) % m == column {
                return a;
            }
        }
        0
    }
}

// The class of a cell of an accepted shape.
pub(crate) fn class(shape: Shape, spot: Spot) -> usize
    ensures { result < 512 }
{
    if shape.strength == 0 {
        return window::class(shape.window, spot.row, spot.column);
    }
    settings_of(shape).class(spot)
}
