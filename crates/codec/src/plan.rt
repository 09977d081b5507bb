// The plan of a field.
ghost use Rattle.std.specs.Prelude.{◌≡◌};
ghost use Rattle.codec.specs.Answer.{IsPlan, plan_figures};

use lattice::capacity::{class_sizes, data_in, digits_in, used_in};
use lattice::refusal::Refusal;
use lattice::shape::Shape;

// The classes m, the capacity K, the payload's bytes, the cells, how many of the classes hold at least one cell, and the digits
// of a field of levels.
#[derive(Clone, Copy)]
pub struct FieldPlan {
    pub classes: usize,
    pub capacity: usize,
    pub bytes: usize,
    pub cells: usize,
    pub used: usize,
    pub digits: usize,
}

// The six figures of an answer, each 0 beside a refusal.
pub fn figures(answer: Result<FieldPlan, Refusal>) -> FieldPlan
    ensures { result ≡ plan_figures answer }
{
    answer.unwrap_or(FieldPlan {
        classes: 0,
        capacity: 0,
        bytes: 0,
        cells: 0,
        used: 0,
        digits: 0,
    })
}

// The figures of a field, or the refusal 1, 2 or 11.
pub fn plan(shape: Shape) -> Result<FieldPlan, Refusal>
    ensures { IsPlan shape result }
{
    shape.tests()?;
    let mut sizes = [0u32; Shape::MAX_CLASSES];
    class_sizes(shape, &mut sizes);
    let classes = shape.classes();
    let capacity = data_in(&sizes, classes);
    let used = used_in(&sizes, classes);
    let digits = digits_in(&sizes, classes);
    let cells = shape.cells();
    Ok(FieldPlan {
        classes,
        capacity,
        bytes: capacity / 8,
        cells,
        used,
        digits,
    })
}
