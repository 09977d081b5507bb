// What is done to a written field before it is read.
ghost use Rattle.std.specs.Prelude.{◌<◌, ◌≤◌};

use crate::cases::random;
use crate::cases::random::After;
use crate::cases::sizes::Sizes;
use crate::cases::tears::span;
use lattice::shape::{Shape, Window};
use second::answer::{Buffer, CELLS};

// What is done to a cell: it is turned over, or erased and so not read.
#[derive(Clone, Copy, PartialEq, Eq, Debug)]
pub(crate) enum Stroke {
    TurnOver,
    Erase,
}

impl Stroke {
    // A cell after it.
    pub(crate) fn on(self, cell: u8) -> u8 {
        match self {
            Stroke::TurnOver => u8::from(cell == 0),
            Stroke::Erase => 2,
        }
    }
}

// A side of a cell, where another is joined to it.
#[derive(Clone, Copy, PartialEq, Eq, Debug)]
pub(crate) enum Side {
    Right,
    Left,
    Below,
    Above,
    Behind,
    Before,
}

pub(crate) const SIDES: [Side; 6] = [
    Side::Right,
    Side::Left,
    Side::Below,
    Side::Above,
    Side::Behind,
    Side::Before,
];

// The most cells of a cluster that is undone: the strength or, where a window rules, its smaller side.
fn extent(shape: Shape) -> u16 {
    if shape.strength != 0 {
        return shape.strength;
    }
    span(shape.window.rows).min(span(shape.window.columns)) as u16
}

// The cell that is `by` bytes before cell i, where there is one and `open` says that it is joined to i; else i.
fn back(i: usize, by: usize, open: bool) -> usize
    ensures { result ≤ i }
{
    if open && by <= i { i - by } else { i }
}

impl Sizes {
    // The cell that is `by` bytes after cell i, where there is one and `open` says that it is joined to i; else i.
    fn ahead(self, i: usize, by: usize, open: bool) -> usize
        requires { i < self.cells }
        ensures { result < self.cells }
    {
        if open && by < self.cells - i {
            i + by
        } else {
            i
        }
    }

    // The cell that is joined to cell i at a side; i itself where the field ends there.
    pub(crate) fn joined(self, i: usize, side: Side) -> usize
        requires { i < self.cells }
        ensures { result < self.cells }
    {
        let columns = self.shape.columns as usize;
        let rows = self.shape.rows as usize;
        let planes = self.shape.planes as usize;
        if columns == 0 || rows == 0 || planes == 0 {
            return i;
        }
        match side {
            Side::Right => self.ahead(i, 1, i % columns != columns - 1),
            Side::Left => back(i, 1, i % columns != 0),
            Side::Below => self.ahead(i, columns, i / columns % rows != rows - 1),
            Side::Above => back(i, columns, i / columns % rows != 0),
            Side::Behind => self.ahead(i, self.cells / planes, true),
            Side::Before => back(i, self.cells / planes, true),
        }
    }

    // A cell that is joined to cell i or, where a window rules, that touches it by a side or a corner; i itself where the field
    // ends there.
    fn beside(self, i: usize, x: u64) -> usize
        requires { i < self.cells }
        ensures { result < self.cells }
    {
        if self.shape.strength != 0 {
            return self.joined(i, random::pick(x, &SIDES));
        }
        // The third side is to another plane, and there is none.
        let sides = [Side::Below, Side::Above, Side::Behind];
        let moved = self.joined(i, random::pick(x, &sides));
        // One draw in three goes on to each of the two sides, and one stays.
        match random::below(random::next(x), 3) {
            0 => self.joined(moved, Side::Right),
            1 => self.joined(moved, Side::Left),
            _ => moved,
        }
    }

    // Erases or turns over a cluster of at most `size` cells: those of a walk that starts at `start` and goes on to cells
    // beside.
    fn strike_cluster(self, start: usize, size: u16, stroke: Stroke, x: u64, field: &mut Buffer)
        requires { start < self.cells }
    {
        let mut walked = [false; CELLS];
        let mut i = start;
        for state in After(x).take(size as usize) {
            if !walked[i] {
                walked[i] = true;
                field[i] = stroke.on(field[i]);
            }
            i = self.beside(i, state);
        }
    }

    // Damage that is undone, erased or turned over, with cell `start` in it or near it: a cluster or, where a window rules,
    // mostly cells of one window.
    pub(crate) fn strike(self, start: usize, stroke: Stroke, x: u64, field: &mut Buffer)
        requires { start < self.cells }
    {
        if self.shape.strength == 0 && random::below(random::next(x), 3) != 0 {
            self.tear(self.shape.window, start, stroke, x, field);
        } else {
            self.strike_cluster(start, extent(self.shape), stroke, x, field);
        }
    }

    // The same, turned over, wherever it lies.
    pub(crate) fn punch(self, x: u64, field: &mut Buffer) {
        self.strike(random::below(x, self.cells), Stroke::TurnOver, x, field);
    }

    // Turns over more: a larger cluster or, where a window rules, now and then cells of a window with a row more.
    fn punch_beyond(self, x: u64, field: &mut Buffer) {
        let start = random::below(x, self.cells);
        if self.shape.strength == 0 && random::below(random::next(x), 2) == 0 {
            let window = self.shape.window;
            let longer = Window {
                rows: span(window.rows) + 1,
                columns: window.columns,
            };
            self.tear(longer, start, Stroke::TurnOver, x, field);
        } else {
            let size = 2 + extent(self.shape) % 40 * 2;
            self.strike_cluster(start, size, Stroke::TurnOver, x, field);
        }
    }

    // Turns over `count` cells, wherever they lie.
    pub(crate) fn scatter(self, count: usize, x: u64, field: &mut Buffer) {
        for state in After(x).take(count) {
            let i = random::below(state, self.cells);
            field[i] = Stroke::TurnOver.on(field[i]);
        }
    }

    // Puts a byte above 2 into some cell.
    pub(crate) fn soil(self, x: u64, field: &mut Buffer) {
        field[random::below(x, self.cells)] = 3 + random::below(random::next(x), 253) as u8;
    }

    // The damage of a case without erased cells: none, what is undone, more than that, scattered, a cell above 2, or all cells
    // by chance.
    pub(crate) fn damage(self, case: usize, x: u64, field: &mut Buffer) {
        // A case's number draws it, and chooses its padding, its damage and what is lent alike, so it stays a number.
        match case {
            1 | 9 | 10 => self.punch(x, field),
            2 => self.punch_beyond(x, field),
            3 => self.scatter(1, x, field),
            4 => self.scatter(2 + random::below(x, 5), x, field),
            5 | 11 => self.soil(x, field),
            6 | 12 => *field = random::buffer(x, 2),
            7 | 13 => {
                *field = random::buffer(x, 2);
                self.soil(x, field);
            }
            _ => {}
        }
    }
}
