// A line key=number of a card text.
ghost use Rattle.std.specs.Prelude.{◌≡◌, ◌≤◌, length};
ghost use Rattle.card.specs.Parse.{is_digit, digit_run, digits_value, number_ends, number_at, line_at};

use crate::scan::{Found, byte_at, key_at};
use lattice::range::within;

// Is the byte a decimal digit?
#[tactic(auto, unfolding(lattice::specs::Range::in_range))]
fn is_digit(byte: u8) -> bool
    ensures { result ≡ is_digit byte }
{
    byte.is_ascii_digit()
}

// How many decimal digits follow one another from a position, counted up to 6.
fn digit_run(text: &[u8], at: usize) -> usize
    ensures { result ≡ digit_run text.now at 6 }
{
    for k in 0..6 {
        if !is_digit(byte_at(text, at, k)) {
            return k;
        }
    }
    6
}

// The value of the k digits from a position.
fn digits_value(text: &[u8], at: usize, k: usize) -> usize
    requires { (k ≡ digit_run text.now at 6) × (k ≤ 5) }
    ensures { result ≡ digits_value text.now at k }
{
    let mut value = 0;
    for i in 0..k {
        value = value * 10 + (byte_at(text, at, i) - b'0') as usize;
    }
    value
}

// Are k digits from a position a number that ends its line?
#[tactic(auto, unfolding(crate::specs::Parse::number_ends))]
fn number_ends(text: &[u8], at: usize, k: usize) -> bool
    ensures { result ≡ number_ends text.now at k }
{
    within(1, 5, k) && byte_at(text, at, k) == b'\n' && (k == 1 || byte_at(text, at, 0) != b'0')
}

// The number that stands at a position and ends its line; behind it the next line starts.
fn number_at(text: &[u8], at: usize) -> Option<Found<usize>>
    ensures { result ≡ number_at text.now at }
{
    let k = digit_run(text, at);
    if !number_ends(text, at, k) {
        return None;
    }
    Some(Found {
        value: digits_value(text, at, k),
        next: at + k + 1,
    })
}

// The line key=number at a position.
pub(crate) fn line_at(key: &[u8], text: &[u8], at: usize) -> Option<Found<usize>>
    requires { at ≤ length text.now }
    ensures { result ≡ line_at key.now text.now at }
{
    if !key_at(key, text, at) {
        return None;
    }
    number_at(text, at + key.len())
}
