// The two codings that are compared, of plain fields and of shaded ones: what the library gives, and what the second
// implementation gives, as answers.
ghost use Rattle.std.specs.Prelude.{◌≤◌};

use crate::cases::random::Case;
use crate::cases::sizes::Lent;
use crate::tally::{Operation, Tally};
use lattice::refusal::{Refusal, figure, number};
use lattice::shape::Shape;
use second::answer;
use second::answer::{Answer, Buffer};
use second::shaded::{shaded_mend, shaded_read, shaded_write};
use second::write::PATTERN;

// A payload and a field are lent, of each a first part: the field is written, read into the payload, or mended.
pub(crate) trait Coding {
    const WRITING: Operation;

    const READING: Operation;

    const MENDING: Operation;

    fn write(lent: Lent, payload: Buffer, field: Buffer) -> Answer;

    fn read(lent: Lent, payload: Buffer, field: Buffer) -> Answer;

    fn mend(lent: Lent, field: Buffer) -> Answer;

    fn expected_write(lent: Lent, payload: Buffer, field: Buffer) -> Answer;

    fn expected_read(lent: Lent, payload: Buffer, field: Buffer) -> Answer;

    fn expected_mend(lent: Lent, field: Buffer) -> Answer;
}

pub(crate) struct Plain;

pub(crate) struct Shaded;

impl Coding for Plain {
    const WRITING: Operation = Operation::Write;

    const READING: Operation = Operation::Read;

    const MENDING: Operation = Operation::Mend;

    fn write(lent: Lent, payload: Buffer, field: Buffer) -> Answer {
        written(codec::encode::encode, lent, payload, field)
    }

    fn read(lent: Lent, payload: Buffer, field: Buffer) -> Answer {
        read(codec::decode::decode, lent, payload, field)
    }

    fn mend(lent: Lent, field: Buffer) -> Answer {
        mended(codec::correct::correct, lent, field)
    }

    fn expected_write(lent: Lent, payload: Buffer, field: Buffer) -> Answer {
        second::write::write(
            lent.shape,
            payload,
            lent.payload,
            PATTERN,
            field,
            lent.cells,
        )
    }

    fn expected_read(lent: Lent, payload: Buffer, field: Buffer) -> Answer {
        second::read::read(lent.shape, payload, lent.payload, field, lent.cells)
    }

    fn expected_mend(lent: Lent, field: Buffer) -> Answer {
        second::read::mend(lent.shape, field, lent.cells)
    }
}

impl Coding for Shaded {
    const WRITING: Operation = Operation::ShadedWrite;

    const READING: Operation = Operation::ShadedRead;

    const MENDING: Operation = Operation::ShadedMend;

    fn write(lent: Lent, payload: Buffer, field: Buffer) -> Answer {
        written(levels::encode::encode_levels, lent, payload, field)
    }

    fn read(lent: Lent, payload: Buffer, field: Buffer) -> Answer {
        read(levels::decode::decode_levels, lent, payload, field)
    }

    fn mend(lent: Lent, field: Buffer) -> Answer {
        mended(levels::correct::correct_levels, lent, field)
    }

    fn expected_write(lent: Lent, payload: Buffer, field: Buffer) -> Answer {
        shaded_write(lent.shape, payload, lent.payload, field, lent.cells)
    }

    fn expected_read(lent: Lent, payload: Buffer, field: Buffer) -> Answer {
        shaded_read(lent.shape, payload, lent.payload, field, lent.cells)
    }

    fn expected_mend(lent: Lent, field: Buffer) -> Answer {
        shaded_mend(lent.shape, field, lent.cells)
    }
}

// What the library's writing gives.
fn written<F: FnOnce(Shape, &[u8], &mut [u8]) -> Result<(), Refusal>>(
    write: F,
    lent: Lent,
    payload: Buffer,
    field: Buffer,
) -> Answer
    requires { F.IsAlwaysCallable write }
{
    let mut after = field;
    let given = write(
        lent.shape,
        &payload[..lent.payload],
        &mut after[..lent.cells],
    );
    answer::leaving(number(&given), after)
}

// What its reading gives.
fn read<F: FnOnce(Shape, &mut [u8], &[u8]) -> Result<usize, Refusal>>(
    read: F,
    lent: Lent,
    payload: Buffer,
    field: Buffer,
) -> Answer
    requires { F.IsAlwaysCallable read }
{
    let mut after = payload;
    let given = read(lent.shape, &mut after[..lent.payload], &field[..lent.cells]);
    counted(given, after)
}

// What its mending gives.
fn mended<F: FnOnce(Shape, &mut [u8]) -> Result<usize, Refusal>>(
    mend: F,
    lent: Lent,
    field: Buffer,
) -> Answer
    requires { F.IsAlwaysCallable mend }
{
    let mut after = field;
    let given = mend(lent.shape, &mut after[..lent.cells]);
    counted(given, after)
}

// A count, and what is left in the lent buffer.
fn counted(given: Result<usize, Refusal>, buffer: Buffer) -> Answer {
    Answer {
        number: number(&given),
        figures: [figure(given), 0, 0, 0, 0, 0],
        buffer,
    }
}

// Compares what is written into a lent field.
pub(crate) fn send<C: Coding>(
    tally: &mut Tally,
    case: Case,
    lent: Lent,
    payload: Buffer,
    field: Buffer,
) {
    let given = C::write(lent, payload, field);
    let expected = C::expected_write(lent, payload, field);
    tally.compare(C::WRITING, case, &given, &expected);
}

// Compares what is read of a field, into a lent payload, and how it is mended.
pub(crate) fn receive<C: Coding>(
    tally: &mut Tally,
    case: Case,
    lent: Lent,
    field: Buffer,
    payload: Buffer,
) {
    let given = C::read(lent, payload, field);
    let expected = C::expected_read(lent, payload, field);
    tally.compare(C::READING, case, &given, &expected);
    let given = C::mend(lent, field);
    let expected = C::expected_mend(lent, field);
    tally.compare(C::MENDING, case, &given, &expected);
}
