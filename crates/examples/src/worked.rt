// The worked examples of document 01 that are not proved, a case for each error that it lists, and cards of document 02: with
// unread cells, with a window, and with each padding that is read and some that are not; and shaded fields. A line each.
ghost use Rattle.std.specs.Prelude.{◌<◌, ◌≤◌, EachIndex, slice_index};

use crate::cases::damage::Stroke;
use crate::cases::shapes::{Listed, NO_WINDOW, listed, shape_of};
use crate::cases::sizes::Lent;
use crate::cases::windows::ruled;
use crate::coding::{Coding, Plain, Shaded};
use crate::given;
use crate::print::{Form, say};
use lattice::shape::Shape;
use second::answer::{Answer, Buffer, CELLS};
use second::write::ZEROS;

// The number of a refusal, or the figures in a form.
fn show(form: Form, a: &Answer) {
    if a.number != 0 {
        say(Form::Refusal, &[a.number]);
    } else {
        say(form, &a.figures);
    }
}

// The sides and the strength, and the window where it is not 0 by 0.
fn sizes(s: Shape) {
    let numbers = s.numbers();
    let window = numbers.window;
    show(Form::Shape, &given::of_numbers(numbers));
    if (window.rows | window.columns) != 0 {
        say(Form::Window, &[window.rows, window.columns]);
    }
}

// A shape: whether it is made, and its plan.
fn planned(shape: Shape) {
    sizes(shape);
    say(Form::Colon, &[]);
    let made = given::shape(shape.numbers());
    if made.number != 0 {
        show(Form::Plan, &made);
    } else {
        show(Form::Plan, &given::plan(shape));
    }
    say(Form::EndLine, &[]);
}

// The card of document 01: 5 by 5, flat, at strength 3.
const SIDE: usize = 5;

const CARD: usize = SIDE * SIDE;

const CARD_SHAPE: Shape = Shape {
    columns: 5,
    rows: 5,
    planes: 1,
    strength: 3,
    window: NO_WINDOW,
};

// What is lent for a card of this size: its cells, and a payload of one byte.
fn lent_card(shape: Shape) -> Lent {
    Lent {
        shape,
        cells: CARD,
        payload: 1,
    }
}

// The rows of a card, each after a space.
fn show_rows(card: &Buffer) {
    for (i, cell) in card[..CARD].iter().enumerate() {
        if i % SIDE == 0 {
            say(Form::Space, &[]);
        }
        say(Form::Digit, &[*cell as usize]);
    }
    say(Form::EndLine, &[]);
}

// A card is read, into a payload buffer that holds 77.
fn read(shape: Shape, card: Buffer) {
    let read = Plain::read(lent_card(shape), [0x77; CELLS], card);
    show(Form::Count, &read);
    say(Form::Payload, &[read.buffer[0] as usize]);
}

// And then it is mended. Its name is followed by what was done to it.
fn read_and_mend(shape: Shape, name: Form, done: Form, card: Buffer) {
    say(name, &[]);
    say(done, &[]);
    read(shape, card);
    let mended = Plain::mend(lent_card(shape), card);
    show(Form::Count, &mended);
    say(Form::Rows, &[]);
    show_rows(&mended.buffer);
}

fn class(s: Shape, row: usize, plane: usize, column: usize) {
    sizes(s);
    say(Form::Cell, &[row, plane, column]);
    show(Form::Class, &given::class(s, row, plane, column));
    say(Form::EndLine, &[]);
}

// Shapes at the edge: columns, rows, planes and strength.
const EDGES: [[u16; 4]; 9] = [
    [256, 256, 1, 1],
    [257, 1, 1, 1],
    [256, 256, 2, 1],
    [256, 16, 16, 1],
    [256, 256, 1, 32],
    [256, 256, 1, 33],
    [256, 16, 16, 8],
    [256, 16, 16, 9],
    [3, 1, 1, 5],
];

pub(crate) fn run() {
    for sizes in EDGES {
        planned(listed((sizes, [0, 0])));
    }
    // The card of the payload a5, as encode writes it.
    let card = Plain::write(lent_card(CARD_SHAPE), [0xa5; CELLS], [0; CELLS]).buffer;
    say(Form::Written, &[]);
    show_rows(&card);
    damaged(Form::ThatCard, Form::Fourth10001, card);
    errors(card);
    // The card as document 01 prints it, whose padding is zeros.
    let first = second::write::write(CARD_SHAPE, [0xa5; CELLS], 1, ZEROS, [0; CELLS], CARD).buffer;
    damaged(Form::FirstPrinted, Form::Fourth00001, first);
    paddings();
    windows();
    shaded();
}

// A card with some cells turned over or erased.
fn struck(card: Buffer, stroke: Stroke, cells: &[usize]) -> Buffer
    requires { EachIndex cells.now (λ k. slice_index cells.now k < 512) }
{
    let mut field = card;
    for i in cells {
        field[*i] = stroke.on(field[*i]);
    }
    field
}

// A card whole, with three cells turned over, and with erased cells: two clusters of three, the first row as well, and the first
// row alone.
fn damaged(name: Form, three: Form, card: Buffer) {
    let line = |done, card| read_and_mend(CARD_SHAPE, name, done, card);
    line(Form::Whole, card);
    line(three, struck(card, Stroke::TurnOver, &[12, 13, 17]));
    let two = struck(card, Stroke::Erase, &[0, 1, 5, 18, 19, 24]);
    line(Form::TwoClusters, two);
    line(
        Form::AndFirstRow,
        struck(two, Stroke::Erase, &[0, 1, 2, 3, 4]),
    );
    line(
        Form::FirstRow,
        struck(card, Stroke::Erase, &[0, 1, 2, 3, 4]),
    );
}

// A case for each error.
fn errors(card: Buffer) {
    // 1: a remainder of a negative column difference that is negative. Here the differences are −5 and −6, and m is 7.
    class(shape_of(3, 3, 2, 3), 1, 1, 0);
    class(shape_of(3, 3, 2, 3), 2, 1, 1);
    // 2: b = t for even t. Both cells would be of class 0, and they are 2 apart.
    class(shape_of(5, 5, 1, 4), 0, 0, 0);
    class(shape_of(5, 5, 1, 4), 2, 0, 0);
    let line = |name, done, card| read_and_mend(CARD_SHAPE, name, done, card);
    // 3: the cell that an exclusive or above n names, in the next class. The second and the fourth cell of class 0 are turned
    // over, so the exclusive or is 6, and the class has 5 cells.
    line(
        Form::ThatCard,
        Form::BeyondTheClass,
        struck(card, Stroke::TurnOver, &[8, 19]),
    );
    // 4: a payload that is filled before the last class is known to be in reach. Here the last class is out of reach.
    line(
        Form::ThatCard,
        Form::LastClass,
        struck(card, Stroke::TurnOver, &[7, 18]),
    );
    // 5: positions counted along columns. In byte order the three cells are at positions 1, 2 and 3 of class 0, which is
    // lawful; along columns they would be at 1, 4 and 2.
    line(
        Form::ACard,
        Form::ByteOrder,
        struck([0; CELLS], Stroke::TurnOver, &[0, 8, 11]),
    );
}

// A row at strength 1 with room for no payload is read and mended.
fn row(columns: u16, digits: Form, field: Buffer)
    requires { columns ≤ 256 }
{
    let shape = shape_of(columns, 1, 1, 1);
    let lent = Lent {
        shape,
        cells: columns as usize,
        payload: 0,
    };
    sizes(shape);
    say(digits, &[]);
    show(Form::Count, &Plain::read(lent, [0; CELLS], field));
    say(Form::Mended, &[]);
    show(Form::Count, &Plain::mend(lent, field));
    say(Form::EndLine, &[]);
}

// Lawful rows: the padding 1, 1 is refused, and so is 1, 0, 0; a padding of one cell is 1 or 0.
fn paddings() {
    let zeros = [0; CELLS];
    let three = struck(zeros, Stroke::TurnOver, &[0, 1, 2]);
    row(
        5,
        Form::Row01111,
        struck(zeros, Stroke::TurnOver, &[1, 2, 3, 4]),
    );
    row(6, Form::Row111000, three);
    row(3, Form::Row111, three);
    row(3, Form::Row000, zeros);
}

// A card of the same size that a window of 2 rows by 3 columns rules: written, with three cells aslant turned over, with cells
// turned over in a window that hangs over the last corner, and with two windows erased.
fn torn() {
    let shape = ruled(5, 5, 2, 3);
    let card = Plain::write(lent_card(shape), [0xa5; CELLS], [0; CELLS]).buffer;
    say(Form::WrittenByWindow, &[]);
    show_rows(&card);
    let line = |done, card| read_and_mend(shape, Form::ThatCard, done, card);
    line(
        Form::TornCorners,
        struck(card, Stroke::TurnOver, &[6, 12, 8]),
    );
    line(Form::TornEdge, struck(card, Stroke::TurnOver, &[23, 24]));
    line(
        Form::TwoWindows,
        struck(card, Stroke::Erase, &[0, 6, 2, 17, 23, 19]),
    );
}

// Shapes with a window at the edge.
const WINDOWS: [Listed; 9] = [
    ([256, 256, 1, 0], [8, 8]),
    ([256, 256, 1, 0], [22, 22]),
    ([256, 256, 1, 0], [23, 23]),
    ([5, 5, 1, 0], [512, 1]),
    ([9, 9, 1, 0], [512, 1]),
    ([5, 5, 1, 0], [1, 513]),
    ([5, 5, 1, 0], [0, 3]),
    ([5, 5, 2, 0], [2, 2]),
    ([5, 5, 1, 3], [2, 2]),
];

// Their plans, the class of a cell, and a card.
fn windows() {
    for shape in WINDOWS {
        planned(listed(shape));
    }
    class(ruled(5, 5, 2, 3), 3, 0, 4);
    torn();
}

// The numbers of a buffer, each after a space.
fn show_numbers(numbers: &[u8]) {
    for n in numbers {
        say(Form::Space, &[]);
        say(Form::Digit, &[*n as usize]);
    }
}

// A shaded row of one word, and a cell that belongs to none, is read, into a payload buffer that holds 77, and mended. Its other
// cells are 0.
fn shaded_row(first: u8, second: u8, last: u8) {
    let shape = shape_of(7, 1, 1, 1);
    let mut row = [0; CELLS];
    row[0] = first;
    row[1] = second;
    row[6] = last;
    let lent = Lent {
        shape,
        cells: 7,
        payload: 5,
    };
    sizes(shape);
    say(Form::Shades, &[]);
    show_numbers(&row[..7]);
    say(Form::Whole, &[]);
    let read = Shaded::read(lent, [77; CELLS], row);
    show(Form::Count, &read);
    say(Form::Digits, &[]);
    show_numbers(&read.buffer[..5]);
    say(Form::Mended, &[]);
    let mended = Shaded::mend(lent, row);
    show(Form::Count, &mended);
    say(Form::Shades, &[]);
    show_numbers(&mended.buffer[..7]);
    say(Form::EndLine, &[]);
}

// The digits 1 to 10 in two words, a word and a cell that belongs to none with a fault, a shade that is none, and a fault that
// would come from a shade that is none.
fn shaded() {
    let shape = shape_of(12, 1, 1, 2);
    let mut digits = [0; CELLS];
    digits[..10].copy_from_slice(&[1, 2, 3, 4, 5, 6, 7, 8, 9, 10]);
    let lent = Lent {
        shape,
        cells: 12,
        payload: 10,
    };
    let field = Shaded::write(lent, digits, [0; CELLS]).buffer;
    sizes(shape);
    say(Form::From1To10, &[]);
    show_numbers(&field[..12]);
    say(Form::EndLine, &[]);
    shaded_row(0, 3, 9);
    shaded_row(0, 4, 24);
    shaded_row(0, 3, 25);
    shaded_row(24, 0, 0);
}
