// The number of a shape, the plan of a field and the class of a cell.
ghost use Rattle.std.specs.Prelude.{◌<◌, ◌≤◌, MatchResult, slice_index};
ghost use Rattle.second.specs.Declined.{IsUnshaded};

use crate::answer::{Answer, Figures};
use crate::declined::Declined;
use crate::layout::lay_out;
use crate::settings::Spot;
use crate::used::used_classes;
use crate::{answer, settings};
use lattice::shape::Shape;

// The number with which a shape is declined, 0 where it is accepted. A number alone, as there is no figure and nothing is lent.
pub fn shape(shape: Shape) -> usize
    ensures { result ≤ 11 }
{
    match settings::accept(shape) {
        Ok(_) => 0,
        Err(why) => why.number(),
    }
}

// The figures of a plan, where its shape is accepted.
fn planned(shape: Shape) -> Result<Figures, Declined>
    ensures { MatchResult result (λ figures. slice_index figures 0 ≤ 512) IsUnshaded }
{
    let laid = lay_out(shape)?;
    let k = laid.capacity;
    let used = used_classes(shape, laid.cells);
    Ok([
        laid.classes as usize,
        k,
        k / 8,
        laid.cells,
        used,
        5 * laid.words,
    ])
}

// The figures: m, K, payload bytes, cells, the classes that hold at least one cell, and the digits of a shaded field, five for
// each word.
pub fn plan(shape: Shape) -> Answer
    ensures { (result.number ≤ 11) × (slice_index result.figures 0 ≤ 512) }
{
    answer::figured(planned(shape))
}

// The figure of a cell, where it lies in an accepted shape.
fn placed(shape: Shape, spot: Spot) -> Result<Figures, Declined>
    ensures { MatchResult result (λ figures. slice_index figures 0 < 512) IsUnshaded }
{
    settings::accept(shape)?;
    let within = spot.row < shape.rows as usize && spot.plane < shape.planes as usize;
    if !within || shape.columns as usize <= spot.column {
        return Err(Declined::OutsideShape);
    }
    Ok(answer::alone(settings::class(shape, spot)))
}

// The figure: the class.
pub fn class(shape: Shape, row: usize, plane: usize, column: usize) -> Answer
    ensures { (result.number ≤ 11) × (slice_index result.figures 0 < 512) }
{
    let spot = Spot { row, plane, column };
    answer::figured(placed(shape, spot))
}
