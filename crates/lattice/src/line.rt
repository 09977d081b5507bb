// The lines of a field: where each begins in the table of classes.
ghost use Rattle.std.specs.Prelude.{◌≡◌, ℕ, ◌+◌, ◌%◌, ◌<◌};
ghost use Rattle.lattice.specs.declared.shape.Shape.{Shape};
ghost use Rattle.lattice.specs.Shape.{Accepted};
ghost use Rattle.lattice.specs.Class.{minus_mod, placement_of};
ghost use Rattle.lattice.specs.Lines.{table_of, pass_of, pass_given, IsLine};

use crate::class::{Placement, minus_mod};
use crate::shape::Shape;

// What a pass over the cells needs of a shape, weighed once: columns, lines, cells and classes; the slices, and the period of the
// table of classes; the steps back in the table to the next row, and from a plane's last row to the next plane; and the number of
// a plane's last row. That it is a shape's is no invariant: `Shape::pass` promises one that is all 0 beside a refusal.
#[derive(Clone, Copy)]
pub struct Pass {
    pub columns: usize,
    pub lines: usize,
    pub cells: usize,
    pub classes: usize,
    pub slices: usize,
    pub period: usize,
    pub row: usize,
    pub plane: usize,
    pub last: usize,
}

// A line: the rows behind it in its plane, and where it begins in the table.
#[derive(Clone, Copy)]
pub struct Line {
    pub left: usize,
    pub start: usize,
}

// The pass over the field of an accepted shape, from its placement.
fn pass_with(shape: Shape, placement: Placement) -> Pass
    requires { Accepted shape × (placement ≡ placement_of shape) }
    ensures { result ≡ pass_of shape }
{
    let settings = placement.settings;
    let m = settings.m as usize;
    let b = settings.b as usize;
    let columns = shape.columns as usize;
    let rows = shape.rows as usize;
    let slices = placement.slices as usize;
    let lines = rows * shape.planes as usize;
    let last = rows - 1;
    Pass {
        columns,
        lines,
        cells: columns * lines,
        classes: slices * m,
        slices,
        period: m,
        row: b % m,
        plane: minus_mod(settings.c as usize, b * last, m),
        last,
    }
}

impl Shape {
    // The pass over the field; all 0 for a shape that the constructor refuses.
    pub fn pass(self) -> Pass
        ensures { result ≡ pass_given self }
    {
        let Ok(()) = self.tests() else {
            return Pass {
                columns: 0,
                lines: 0,
                cells: 0,
                classes: 0,
                slices: 0,
                period: 0,
                row: 0,
                plane: 0,
                last: 0,
            };
        };
        pass_with(self, self.placed())
    }
}

// (start − step) mod m, where both are below m.
pub fn next_start(start: usize, step: usize, m: usize) -> usize
    ensures { start < m → step < m → result ≡ minus_mod start step m }
{
    if step <= start {
        return start - step;
    }
    if m < step - start {
        return 0;
    }
    m - (step - start)
}

// The place after a place of a table of m: (a + 1) mod m, where a is below m.
pub fn next_place(a: usize, m: usize) -> usize
    ensures { a < m → result ≡ (a + 1) % m }
{
    if m <= a {
        return 0;
    }
    if a + 1 < m { a + 1 } else { 0 }
}

// The line after, of the field or of a slice.
pub fn next_line(pass: Pass, line: Line) -> Line
    ensures { (s : Shape)
        → Accepted s
        → pass ≡ pass_of s
        → (l : ℕ)
        → IsLine (table_of s) s.rows l line
        → IsLine (table_of s) s.rows (l + 1) result }
{
    if line.left > 0 {
        Line {
            left: line.left - 1,
            start: next_start(line.start, pass.row, pass.period),
        }
    } else {
        Line {
            left: pass.last,
            start: next_start(line.start, pass.plane, pass.period),
        }
    }
}
