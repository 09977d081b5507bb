// How often each operation gave each number, and how often the two implementations differed.
use crate::cases::random::Case;
use crate::print::{Form, say};
use second::answer::Answer;

// The operations that are compared.
#[derive(Clone, Copy, PartialEq, Eq, Debug)]
pub(crate) enum Operation {
    Shape,
    Plan,
    Class,
    Write,
    Read,
    Mend,
    Gauge,
    ShadedWrite,
    ShadedRead,
    ShadedMend,
}

// All of them, in the order in which they are declared and printed.
const OPERATIONS: [Operation; 10] = [
    Operation::Shape,
    Operation::Plan,
    Operation::Class,
    Operation::Write,
    Operation::Read,
    Operation::Mend,
    Operation::Gauge,
    Operation::ShadedWrite,
    Operation::ShadedRead,
    Operation::ShadedMend,
];

impl Operation {
    pub(crate) fn name(self) -> &'static str {
        match self {
            Operation::Shape => "shape",
            Operation::Plan => "plan",
            Operation::Class => "class",
            Operation::Write => "write",
            Operation::Read => "read",
            Operation::Mend => "mend",
            Operation::Gauge => "gauge",
            Operation::ShadedWrite => "shaded write",
            Operation::ShadedRead => "shaded read",
            Operation::ShadedMend => "shaded mend",
        }
    }
}

// How many numbers an operation may give, from 0 on.
const NUMBERS: usize = 13;

// Of an operation: how often it was compared, how often it gave each number, and how often it differed.
#[derive(Clone, Copy)]
struct Counts {
    compared: usize,
    gave: [usize; NUMBERS],
    differed: usize,
}

// One more.
fn count(n: &mut usize) {
    *n = n.wrapping_add(1);
}

impl Counts {
    const NONE: Counts = Counts {
        compared: 0,
        gave: [0; NUMBERS],
        differed: 0,
    };

    // Counts a comparison in which the operation gave a number: one that no operation may give is a difference.
    fn add(&mut self, number: usize) {
        count(&mut self.compared);
        if number < NUMBERS {
            count(&mut self.gave[number]);
        } else {
            count(&mut self.differed);
        }
    }

    // The line of an operation.
    fn line(&self, operation: Operation) {
        say(Form::Name(operation), &[]);
        say(Form::Compared, &[self.compared]);
        for (number, n) in self.gave.iter().enumerate() {
            if *n != 0 {
                say(Form::Gave, &[*n, number]);
            }
        }
        say(Form::Differ, &[self.differed]);
    }
}

// The counts of each operation.
#[derive(Drop)]
pub(crate) struct Tally {
    counts: [Counts; OPERATIONS.len()],
}

// Says what an operation gave, what was expected, and in which case. Where the two look alike, the buffers differ.
fn differ(operation: Operation, case: Case, given: &Answer, expected: &Answer) {
    say(Form::Name(operation), &[]);
    say(
        Form::Difference,
        &[given.number, expected.number, case.number, case.part],
    );
    say(Form::AllFigures, &given.figures);
    say(Form::AllFigures, &expected.figures);
    say(Form::EndLine, &[]);
}

impl Tally {
    pub(crate) fn new() -> Tally {
        Tally {
            counts: [Counts::NONE; OPERATIONS.len()],
        }
    }

    // Counts one comparison: of the number, every figure, every byte of the lent buffer and of what lies behind the lent part.
    pub(crate) fn compare(
        &mut self,
        operation: Operation,
        case: Case,
        given: &Answer,
        expected: &Answer,
    ) {
        let counts = &mut self.counts[operation as usize];
        counts.add(given.number);
        if *given != *expected {
            differ(operation, case, given, expected);
            count(&mut counts.differed);
        }
    }

    // A line for each operation.
    pub(crate) fn lines(&self) {
        for operation in OPERATIONS {
            self.counts[operation as usize].line(operation);
        }
    }
}
