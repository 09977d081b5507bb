// The cells that have given positions in their classes, found by going from line to line.
ghost use Rattle.std.specs.Prelude.{◌≡◌, ◌<◌, ◌≤◌, length};
ghost use Rattle.lattice.specs.declared.shape.Shape.{Shape};
ghost use Rattle.lattice.specs.Shape.{max_classes, Accepted};
ghost use Rattle.lattice.specs.Class.{classes_of, layout_of};
ghost use Rattle.lattice.specs.Lines.{pass_of, OfShape};
ghost use Rattle.lattice.specs.Listing.{CellOrNone, CellsAt};

use crate::line_positions::raised;
use lattice::line::{Line, Pass, next_line, next_start};
use lattice::shape::Shape;

// What stands for a cell where there is none, as `cells_at` promises (`CellOrNone`): an array of options would be twice as long.
pub const NO_CELL: u32 = 65536;

// The cell of a class that has a position from 1 on, or `NO_CELL`. The class is number y of its slice. Of it `before` cells stand
// in the slice's lines before its line k, and `here` in that: the first of them in column x, and m columns from one to the next.
fn find_cell(pass: Pass, class: usize, position: usize) -> u32
    requires { OfShape pass × (class < pass.classes) × (1 ≤ position) }
    ensures { (s : Shape) → Accepted s → pass ≡ pass_of s → CellOrNone (layout_of s) class position result }
{
    let m = pass.period;
    let y = class % m;
    let whole = (pass.columns / m) as u16;
    let rest = pass.columns % m;
    let mut line = Line {
        left: pass.last,
        start: 0,
    };
    let mut before = 0;
    // the lines are counted: by a range with a step the search takes a third longer
    let first = class / m;
    let lines = pass.lines.saturating_sub(first).div_ceil(pass.slices);
    for k in 0..lines {
        let x = next_start(y, line.start, m);
        let here = raised(x, rest, whole) as usize;
        if position <= before + here {
            let l = first + k * pass.slices;
            return (l * pass.columns + x + (position - before - 1) * m) as u32;
        }
        before += here;
        line = next_line(pass, line);
    }
    NO_CELL
}

// The cell of a class that has a position, or `NO_CELL`.
fn cell_at(pass: Pass, class: usize, position: u32) -> u32
    requires { OfShape pass × (class < pass.classes) }
    ensures { (s : Shape) → Accepted s → pass ≡ pass_of s → CellOrNone (layout_of s) class position result }
{
    if position == 0 {
        return NO_CELL;
    }
    find_cell(pass, class, position as usize)
}

// For each class of an accepted shape the cell that has the class's entry as its position, or `NO_CELL`.
fn place_all(pass: Pass, positions: &[u32], cells: &mut [u32])
    requires { OfShape pass × (max_classes ≤ length positions.now) × (max_classes ≤ length cells.old) }
    ensures { (s : Shape)
        → Accepted s
        → pass ≡ pass_of s
        → CellsAt (layout_of s) pass.classes positions.now cells.new }
{
    for a in 0..pass.classes {
        cells[a] = cell_at(pass, a, positions[a]);
    }
}

// For each class the cell that has the class's entry as its position, or `NO_CELL`; for a shape that the constructor refuses the
// array keeps its entries.
pub fn cells_at(
    shape: Shape,
    positions: &[u32; Shape::MAX_CLASSES],
    cells: &mut [u32; Shape::MAX_CLASSES],
)
    ensures cells_at { Accepted shape
        → CellsAt (layout_of shape) (classes_of shape) positions.now cells.new }
    ensures cells_unchanged { (Accepted shape → ⊥) → cells.new ≡ cells.old }
{
    let Ok(()) = shape.tests() else {
        return;
    };
    place_all(shape.pass(), positions, cells);
}
