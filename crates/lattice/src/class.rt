// The class of a cell.
ghost use Rattle.std.specs.Prelude.{◌≡◌, ◌/◌, ◌%◌, ◌<◌};
ghost use Rattle.lattice.specs.Cell.{cell, cell_at};
ghost use Rattle.lattice.specs.Refusal.{number_of, NoLength, figure};
ghost use Rattle.lattice.specs.Shape.{shape_number, Accepted};
ghost use Rattle.lattice.specs.Class.{minus_mod, class_with, classes_of, inside, class_number};
ghost use Rattle.lattice.specs.Class.{placement_of, placement_given, class_by};
ghost use Rattle.lattice.specs.Answer.{IsCellClass};

use crate::refusal::Refusal;
use crate::settings::Settings;
use crate::shape::Shape;

// How the cells of a field are placed in classes: what a pass over the cells is handed, to find the class of each. The rows have
// so many slices of classes by turns, and the settings place the cells in the classes of a slice.
#[derive(Clone, Copy)]
pub struct Placement {
    pub slices: u32,
    pub settings: Settings,
}

// The quotient, 0 where b is 0.
fn quotient(a: u32, b: u32) -> u32
    ensures { result ≡ a / b }
{
    a.checked_div(b).unwrap_or(0)
}

// The remainder, a where b is 0.
fn remainder(a: u32, b: u32) -> u32
    ensures { result ≡ a % b }
{
    a.checked_rem(b).unwrap_or(a)
}

// (a − z) mod m, from 0 to m − 1 also where z is above a.
pub(crate) fn minus_mod(a: usize, z: usize, m: usize) -> usize
    requires { (0 < m) × (m < 65536) × (a < 1152921504606846976) × (z < 1152921504606846976) }
    ensures { result ≡ minus_mod a z m }
{
    (a + (m - z % m)) % m
}

// (column − b × row − c × plane) mod m; the column where m is 0.
pub fn class_with(settings: Settings, row: u32, plane: u32, column: u32) -> usize
    ensures { result ≡ class_with settings (cell row plane column) }
{
    let m = settings.m as usize;
    if m == 0 {
        return column as usize;
    }
    let z = settings.b as usize * row as usize + settings.c as usize * plane as usize;
    minus_mod(column as usize, z, m)
}

// The class of a cell by a placement.
fn class_by(placement: Placement, row: u32, plane: u32, column: u32) -> usize
    ensures { result ≡ class_by placement (cell row plane column) }
{
    let settings = placement.settings;
    let slice = remainder(row, placement.slices) as usize;
    slice * settings.m as usize + class_with(settings, row, plane, column)
}

// The class of the cell with a byte number.
pub fn class_at(shape: Shape, placement: Placement, cell: u32) -> usize
    ensures { result ≡ class_by placement (cell_at shape cell) }
{
    let line = quotient(cell, shape.columns as u32);
    let row = remainder(line, shape.rows as u32);
    let plane = quotient(line, shape.rows as u32);
    let column = remainder(cell, shape.columns as u32);
    class_by(placement, row, plane, column)
}

impl Shape {
    // Does the cell lie in the field?
    #[tactic(auto, unfolding(crate::specs::Class::inside))]
    fn contains(self, row: usize, plane: usize, column: usize) -> bool
        ensures { result ≡ inside self (cell row plane column) }
    {
        row < self.rows as usize && plane < self.planes as usize && column < self.columns as usize
    }

    // The tests of the class of a cell: 1, 2, 11, 4.
    fn class_tests(self, row: usize, plane: usize, column: usize) -> Result<(), Refusal>
        ensures result_value { number_of result ≡ class_number self (cell row plane column) }
        ensures no_length { NoLength result }
    {
        self.tests()?;
        if !self.contains(row, plane, column) {
            return Err(Refusal::OutsideShape);
        }
        Ok(())
    }

    // The class of the cell, or the refusal 1, 2, 11 or 4.
    pub fn class_of(self, row: usize, plane: usize, column: usize) -> Result<usize, Refusal>
        ensures { IsCellClass self (cell row plane column) result }
    {
        self.class_tests(row, plane, column)?;
        Ok(class_by(self.placement(), row as u32, plane as u32, column as u32))
    }

    // How the cells of an accepted field are placed in classes.
    pub(crate) fn placed(self) -> Placement
        requires { Accepted self }
        ensures { result ≡ placement_of self }
    {
        if self.strength == 0 {
            let settings = Settings {
                m: self.window.columns as u16,
                b: 0,
                c: 0,
            };
            return Placement {
                slices: self.window.rows as u32,
                settings,
            };
        }
        let settings = self.settings();
        Placement {
            slices: 1,
            settings,
        }
    }

    // How the cells of the field are placed in classes; all 0 for a shape that the constructor refuses.
    pub fn placement(self) -> Placement
        ensures { result ≡ placement_given self }
    {
        let Ok(()) = self.tests() else {
            let settings = Settings { m: 0, b: 0, c: 0 };
            return Placement {
                slices: 0,
                settings,
            };
        };
        self.placed()
    }

    // The number of classes, m; 0 for a shape that the constructor refuses.
    pub fn classes(self) -> usize
        ensures { result ≡ figure (shape_number self) (classes_of self) }
    {
        let placement = self.placement();
        placement.slices as usize * placement.settings.m as usize
    }
}
