// The first lines of a card text.
ghost use Rattle.std.specs.Prelude.{◌≡◌, ◌≤◌, length};
ghost use Rattle.card.specs.Text.{window_keys, lines_text, window_lines, header_text};
ghost use Rattle.card.specs.Card.{shape_numbers};
ghost use Rattle.card.specs.Parse.{optional_at, header_of};
ghost use Rattle.card.specs.Working.{window_read, HasRoom, Printed};

use crate::keys::{
    HEADER_KEYS, KEY_BYTES, KEYS, LINES, WINDOW_KEYS, WINDOW_LINES, any_key_at, lines_at, put_lines,
};
use crate::scan::Found;
use lattice::shape::{ShapeNumbers, Window};

// What the first lines say; those of the window may be left out.
#[derive(Clone, Copy)]
pub struct Header {
    pub columns: usize,
    pub rows: usize,
    pub planes: usize,
    pub strength: usize,
    pub window: Option<Window>,
}

// The window of a header that leaves its lines out.
const NO_WINDOW: Window = Window {
    rows: 0,
    columns: 0,
};

impl Header {
    // The numbers of its shape; without the window's lines both sides are 0.
    pub fn shape_numbers(self) -> ShapeNumbers
        ensures { result ≡ shape_numbers self }
    {
        ShapeNumbers {
            columns: self.columns,
            rows: self.rows,
            planes: self.planes,
            strength: self.strength,
            window: self.window.unwrap_or(NO_WINDOW),
        }
    }
}

// The lines of the window at a position: both, or none where neither key stands there.
fn window_at(text: &[u8], at: usize) -> Option<Found<Option<Window>>>
    requires { at ≤ length text.now }
    ensures { result ≡ window_read (optional_at window_keys text.now at) }
{
    if !any_key_at(&WINDOW_KEYS, text, at) {
        return Some(Found {
            value: None,
            next: at,
        });
    }
    let lines = lines_at::<WINDOW_LINES>(&WINDOW_KEYS, text, at)?;
    let [rows, columns] = lines.value;
    Some(Found {
        value: Some(Window { rows, columns }),
        next: lines.next,
    })
}

// The header that a card text begins with.
pub fn parse_header(text: &[u8]) -> Option<Found<Header>>
    ensures { result ≡ header_of text.now }
{
    let lines = lines_at::<LINES>(&HEADER_KEYS, text, 0)?;
    let [columns, rows, planes, strength] = lines.value;
    let window = window_at(text, lines.next)?;
    Some(Found {
        value: Header {
            columns,
            rows,
            planes,
            strength,
            window: window.value,
        },
        next: window.next,
    })
}

// Writes the lines of the window, where they are given.
fn put_window(out: &mut [u8], at: usize, window: Option<Window>) -> usize
    requires { HasRoom out.old at (lines_text (window_lines window)) }
    ensures { Printed out.old out.new at (lines_text (window_lines window)) result }
{
    let Some(window) = window else {
        return at;
    };
    let sides = [window.rows, window.columns];
    put_lines(out, at, &WINDOW_KEYS, &sides)
}

// Writes the first lines.
pub(crate) fn put_header(out: &mut [u8], at: usize, header: Header) -> usize
    requires { HasRoom out.old at (header_text header) }
    ensures { Printed out.old out.new at (header_text header) result }
{
    let numbers = [header.columns, header.rows, header.planes, header.strength];
    let next = put_lines(out, at, &HEADER_KEYS, &numbers);
    put_window(out, next, header.window)
}

// Room for the first lines of any header: five digits and a line feed beside each key.
const MAX_LINES: usize = KEY_BYTES + 6 * KEYS;

// The length of the first lines: where they end in a buffer of their own.
pub fn header_length(header: Header) -> usize
    ensures { result ≡ length (header_text header) }
{
    let mut lines = [0u8; MAX_LINES];
    put_header(&mut lines, 0, header)
}
