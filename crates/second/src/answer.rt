// An answer as document 01 has it: a number, the figures that come with it, and what it leaves in the lent buffer.
ghost use Rattle.std.specs.Prelude.{◌≡◌, ◌≤◌, MatchResult, slice_index};
ghost use Rattle.second.specs.Declined.{number_of};

use crate::declined::Declined;

// The most figures that an operation gives.
pub const FIGURES: usize = 6;

pub type Figures = [usize; FIGURES];

// The most cells of a field that is lent, and the most bytes of a payload.
pub const CELLS: usize = 512;

// A payload or a field lies at its start.
pub type Buffer = [u8; CELLS];

// The figures that an operation does not have are 0, and so is every figure on each number above 0. An operation that is lent
// no buffer to change has zeros for it.
#[derive(Clone, Copy, PartialEq, Eq)]
pub struct Answer {
    pub number: usize,
    pub figures: Figures,
    pub buffer: Buffer,
}

// What an operation leaves in the lent buffer, and in how many cells of the field it found another value than was lent.
#[derive(Clone, Copy)]
pub(crate) struct Left {
    pub(crate) count: usize,
    pub(crate) buffer: Buffer,
    ghost at_most_all: { count ≤ 512 },
}

// The figures of an operation that has one.
pub(crate) fn alone(figure: usize) -> Figures
    ensures { slice_index result 0 ≡ figure }
{
    [figure, 0, 0, 0, 0, 0]
}

// A number and figures, where no buffer is lent.
pub fn of(number: usize, figures: Figures) -> Answer
    ensures { (result.number ≡ number) × (slice_index result.figures 0 ≡ slice_index figures 0) }
{
    Answer {
        number,
        figures,
        buffer: [0; CELLS],
    }
}

// A number and what is left in the lent buffer, with no figure.
pub fn leaving(number: usize, buffer: Buffer) -> Answer
    ensures { (result.number ≡ number) × (slice_index result.figures 0 ≡ 0) }
{
    Answer {
        buffer,
        ..of(number, [0; FIGURES])
    }
}

// The buffer of an operation that gives no figure, or, where it declines, its number and the buffer as it was lent.
pub(crate) fn stored(given: Result<Buffer, Declined>, lent: Buffer) -> Answer
    ensures { MatchResult given (λ buffer. result.number ≡ 0) (λ why. result.number ≡ number_of why) }
{
    match given {
        Ok(buffer) => leaving(0, buffer),
        Err(why) => leaving(why.number(), lent),
    }
}

// The figures of an operation, or, where it declines, its number and no figure.
pub(crate) fn figured(given: Result<Figures, Declined>) -> Answer
    ensures { MatchResult given
        (λ figures. (result.number ≡ 0) × (slice_index result.figures 0 ≡ slice_index figures 0))
        (λ why. (result.number ≡ number_of why) × (slice_index result.figures 0 ≡ 0)) }
{
    match given {
        Ok(figures) => of(0, figures),
        Err(why) => of(why.number(), [0; FIGURES]),
    }
}

// The count and the buffer of an operation, or, where it declines, its number and the buffer as it was lent.
pub(crate) fn counted(given: Result<Left, Declined>, lent: Buffer) -> Answer
    ensures { MatchResult given
        (λ left. (result.number ≡ 0) × (slice_index result.figures 0 ≡ left.count))
        (λ why. (result.number ≡ number_of why) × (slice_index result.figures 0 ≡ 0)) }
{
    match given {
        Ok(left) => Answer {
            figures: alone(left.count),
            ..leaving(0, left.buffer)
        },
        Err(why) => leaving(why.number(), lent),
    }
}
