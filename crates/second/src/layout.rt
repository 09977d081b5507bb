// Which class each cell of a small field has, and which cells hold checks.
ghost use Rattle.std.specs.Prelude.{◌<◌, ◌≤◌, length, IfErr, MatchResult};
ghost use Rattle.second.specs.Declined.{IsUnshaded};

use crate::answer::CELLS;
use crate::declined::Declined;
use crate::settings;
use crate::settings::{CLASSES, Spot};
use lattice::shape::Shape;

// The class of a cell, and whether it holds a check of the class.
#[derive(Clone, Copy)]
pub(crate) struct Entry {
    pub(crate) class: u16,
    pub(crate) is_check: bool,
}

// The entries of the cells of a field, at the start of an array.
#[derive(Clone, Copy)]
pub(crate) struct Layout {
    start: [Entry; CELLS],
    cells: usize,
    ghost fits: { cells ≤ 512 },
}

impl Layout {
    // The entry of each cell of the field.
    pub(crate) fn entries(&self) -> &[Entry]
        ensures { length result.now ≤ 512 }
    {
        &self.start[..self.cells]
    }
}

// The class of the cell that is byte i of a field.
pub(crate) fn class_of_byte(shape: Shape, i: usize) -> usize
    ensures { result < 512 }
{
    let columns = shape.columns as usize;
    let rows = shape.rows as usize;
    if columns == 0 || rows == 0 {
        return 0;
    }
    let spot = Spot {
        row: i / columns % rows,
        plane: i / columns / rows,
        column: i % columns,
    };
    settings::class(shape, spot)
}

// The entry of the next cell of class a, which is counted. A check stands at the positions 1, 2, 4 and so on of a class.
fn next_entry(sizes: &mut [u32; CLASSES], a: usize) -> Entry
    requires { a < 512 }
{
    sizes[a] = sizes[a].wrapping_add(1);
    Entry {
        class: a as u16,
        is_check: sizes[a].is_power_of_two(),
    }
}

// The layout of the first cells of an accepted shape, its classes and cells, its capacity: how many of its cells hold no check,
// and its words: how many of its cells are the sixth, the twelfth and so on of their class.
#[derive(Clone, Copy)]
pub(crate) struct Laid {
    pub(crate) layout: Layout,
    pub(crate) classes: u16,
    pub(crate) cells: usize,
    pub(crate) capacity: usize,
    pub(crate) words: usize,
}

// Whether a field has the length of the plan. One that is longer than the buffer is declined, whatever its plan.
pub(crate) fn accept_field(planned: usize, cells: usize) -> Result<(), Declined>
    ensures { IfErr result IsUnshaded }
{
    if cells != planned || CELLS < cells {
        return Err(Declined::FieldLength);
    }
    Ok(())
}

impl Laid {
    // Whether a payload has the length asked for, and a field that of the plan.
    pub(crate) fn accept(&self, asked: usize, length: usize, cells: usize) -> Result<(), Declined>
        ensures { IfErr result IsUnshaded }
    {
        if length != asked {
            return Err(Declined::PayloadLength);
        }
        accept_field(self.cells, cells)
    }
}

// Lays out a shape that is accepted.
pub(crate) fn lay_out(shape: Shape) -> Result<Laid, Declined>
    ensures { MatchResult result
        (λ laid. (laid.classes ≤ 512) × (laid.cells ≤ 65536) × (laid.capacity ≤ laid.cells) × (laid.words ≤ laid.cells))
        IsUnshaded }
{
    let cells = settings::accept(shape)?;
    let mut start = [Entry {
        class: 0,
        is_check: false,
    }; CELLS];
    let mut sizes = [0u32; CLASSES];
    let mut capacity = 0;
    let mut words = 0;
    for i in 0..cells {
        let a = class_of_byte(shape, i);
        let entry = next_entry(&mut sizes, a);
        if !entry.is_check {
            capacity += 1;
        }
        if sizes[a] % 6 == 0 {
            words += 1;
        }
        if i < CELLS {
            start[i] = entry;
        }
    }
    Ok(Laid {
        layout: Layout {
            start,
            cells: cells.min(CELLS),
        },
        classes: settings::settings_of(shape).m,
        cells,
        capacity,
        words,
    })
}
