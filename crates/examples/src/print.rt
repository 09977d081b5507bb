// What the program prints, on standard output: forms, each a text in which every # stands for the next of some numbers, and
// every % for the next in two hexadecimal digits.
use crate::tally::Operation;

// The standard output.
const STDOUT_FILENO: i32 = 1;

// The forms: the name of an operation, what is said of the tally, and what is said of the worked examples.
#[derive(Clone, Copy, PartialEq, Eq, Debug)]
pub(crate) enum Form {
    Name(Operation),
    Compared,
    Gave,
    Differ,
    Difference,
    AllFigures,
    EndLine,
    Shape,
    Colon,
    Plan,
    Refusal,
    Cell,
    Class,
    Count,
    Written,
    Space,
    Digit,
    Payload,
    Rows,
    ThatCard,
    FirstPrinted,
    ACard,
    Whole,
    Fourth10001,
    Fourth00001,
    TwoClusters,
    AndFirstRow,
    FirstRow,
    BeyondTheClass,
    LastClass,
    ByteOrder,
    Window,
    WrittenByWindow,
    TornCorners,
    TornEdge,
    TwoWindows,
    Row01111,
    Row111000,
    Row111,
    Row000,
    Mended,
    From1To10,
    Shades,
    Digits,
}

impl Form {
    fn text(self) -> &'static str {
        match self {
            Form::Name(operation) => operation.name(),
            Form::Compared => ": # compared",
            Form::Gave => ", # gave #",
            Form::Differ => ", # differ\n",
            Form::Difference => ": # and not #, case #, part #; figures",
            Form::AllFigures => " # # # # # #",
            Form::EndLine => "\n",
            Form::Shape => "# by # in #, strength #",
            Form::Colon => ": ",
            Form::Plan => "accepted, classes #, capacity #, bytes #, cells #, used #, digits #",
            Form::Refusal => "refusal #",
            Form::Cell => ", row #, plane #, column #: ",
            Form::Class => "class #",
            Form::Count => "count #",
            Form::Written => "payload a5 on a card: written",
            Form::Space => " ",
            Form::Digit => "#",
            Form::Payload => ", payload %; mended ",
            Form::Rows => ", rows",
            Form::ThatCard => "that card",
            Form::FirstPrinted => "the card as first printed",
            Form::ACard => "a card",
            Form::Whole => ": read ",
            Form::Fourth10001 => " with third row 10010 and fourth 10001: read ",
            Form::Fourth00001 => " with third row 10010 and fourth 00001: read ",
            Form::TwoClusters => " with two clusters of three cells unread: read ",
            Form::AndFirstRow => " with its first row unread too: read ",
            Form::FirstRow => " with its first row unread alone: read ",
            Form::BeyondTheClass => " with cells 2 and 4 of class 0 turned over: read ",
            Form::LastClass => " with cells 2 and 4 of class 4 turned over: read ",
            Form::ByteOrder => " with cells 1, 2 and 3 of class 0 alone: read ",
            Form::Window => ", window # by #",
            Form::WrittenByWindow => "payload a5 on a card with a window of 2 by 3: written",
            Form::TornCorners => " with three cells aslant turned over: read ",
            Form::TornEdge => " with its last two cells turned over: read ",
            Form::TwoWindows => " with cells of two windows unread: read ",
            Form::Row01111 => ", row 01111: read ",
            Form::Row111000 => ", row 111000: read ",
            Form::Row111 => ", row 111: read ",
            Form::Row000 => ", row 000: read ",
            Form::Mended => "; mended ",
            Form::From1To10 => ", digits 1 to 10: written",
            Form::Shades => ", shades",
            Form::Digits => ", digits",
        }
    }
}

// Prints a form with its numbers; where these run out, 0 stands for each further one.
pub(crate) fn say(form: Form, numbers: &[usize]) {
    let mut rest = numbers.iter();
    for letter in form.text().as_bytes() {
        match *letter {
            b'#' => {
                let n = rest.next().copied().unwrap_or(0);
                io::print_decimal(STDOUT_FILENO, n as u64);
            }
            b'%' => {
                let n = rest.next().copied().unwrap_or(0);
                io::print_hex(STDOUT_FILENO, n as u64, 2);
            }
            other => {
                io::write_all(STDOUT_FILENO, &[other]);
            }
        }
    }
}
