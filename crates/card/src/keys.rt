// The keys of the first lines, and the lines of some of them.
ghost use Rattle.std.specs.Prelude.{◌≡◌, ◌≤◌, length, map};
ghost use Rattle.card.specs.Text.{lines_of, lines_text};
ghost use Rattle.card.specs.Parse.{any_key_at, lines_at};
ghost use Rattle.card.specs.Working.{HasRoom, Printed};

use crate::line::line_at;
use crate::print::put_number_line;
use crate::scan::{Found, key_at};

// How many lines every header has, and how many the window, whose lines come behind them.
pub const LINES: usize = 4;

pub const WINDOW_LINES: usize = 2;

// How many keys there are, and how many bytes they have.
pub const KEYS: usize = LINES + WINDOW_LINES;

pub const KEY_BYTES: usize = 56;

// Their keys.
pub const HEADER_KEYS: [&[u8]; LINES] = [b"columns=", b"rows=", b"planes=", b"strength="];

pub const WINDOW_KEYS: [&[u8]; WINDOW_LINES] = [b"window_rows=", b"window_columns="];

// The numbers of the lines of these keys at a position.
pub(crate) fn lines_at<const COUNT: usize>(
    keys: &[&[u8]],
    text: &[u8],
    at: usize,
) -> Option<Found<[usize; COUNT]>>
    requires keys_len { length keys.now ≡ COUNT }
    requires count_in_bounds { COUNT ≤ 4 }
    requires at_in_bounds { at ≤ length text.now }
    ensures { result ≡ lines_at (map (λ key. key.now) keys.now) text.now at }
{
    let mut value = [0usize; COUNT];
    let mut next = at;
    for (k, key) in keys.iter().enumerate() {
        let line = line_at(key, text, next)?;
        value[k] = line.value;
        next = line.next;
    }
    Some(Found { value, next })
}

// Does one of these keys stand at a position?
pub(crate) fn any_key_at(keys: &[&[u8]], text: &[u8], at: usize) -> bool
    ensures { result ≡ any_key_at (map (λ key. key.now) keys.now) text.now at }
{
    keys.iter().any(|key| key_at(key, text, at))
}

// Writes the lines of these keys, one for each number.
pub(crate) fn put_lines(out: &mut [u8], at: usize, keys: &[&[u8]], numbers: &[usize]) -> usize
    requires numbers_len { length numbers.now ≡ length keys.now }
    requires has_room { HasRoom out.old at (lines_text (lines_of (map (λ key. key.now) keys.now) numbers.now)) }
    ensures { Printed out.old out.new at
        (lines_text (lines_of (map (λ key. key.now) keys.now) numbers.now)) result }
{
    let mut next = at;
    for (k, key) in keys.iter().enumerate() {
        next = put_number_line(out, next, key, numbers[k]);
    }
    next
}
