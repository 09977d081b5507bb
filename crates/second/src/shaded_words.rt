// Words of six cells of one class, one after the other in byte order.
ghost use Rattle.std.specs.Prelude.{◌<◌, ◌≤◌, length};

use crate::answer::CELLS;
use crate::layout::{Entry, Layout};

pub(crate) const WORD: usize = 6;

// The shades of a word. The first is the check.
pub(crate) type Word = [u8; WORD];

// What a cell is in its word: the first holds the check, and each other a digit. A cell may be left over, and past the end of the
// field there is none.
#[derive(Clone, Copy, PartialEq, Eq)]
pub(crate) enum Place {
    Check,
    Digit,
    LeftOver,
    NoCell,
}

pub(crate) type Places = [Place; CELLS];

// How many of the entries are cells of class a.
fn size(entries: &[Entry], a: u16) -> usize {
    entries.iter().filter(|entry| entry.class == a).count()
}

// The place of cell i in its word: the cells of its class are counted, those before it and all. It is left over where the cells
// before it fill all the words of the class.
fn place_of(entries: &[Entry], i: usize) -> Place
    requires { i < length entries.now }
{
    let a = entries[i].class;
    let before = size(&entries[..i], a);
    if before / WORD == size(entries, a) / WORD {
        return Place::LeftOver;
    }
    if before % WORD == 0 {
        Place::Check
    } else {
        Place::Digit
    }
}

// The place of every cell.
pub(crate) fn places(layout: &Layout) -> Places {
    let mut places = [Place::NoCell; CELLS];
    let entries = layout.entries();
    for (i, place) in places[..entries.len()].iter_mut().enumerate() {
        *place = place_of(entries, i);
    }
    places
}

// The shades of the next word of class a: those of the next six of its cells.
pub(crate) fn taken(entries: &[Entry], a: u16, field: &[u8]) -> Word {
    let mut word = [0u8; WORD];
    let cells = entries
        .iter()
        .zip(field.iter())
        .filter(|(entry, _)| entry.class == a);
    for (shade, (_, cell)) in word.iter_mut().zip(cells) {
        *shade = *cell;
    }
    word
}

// Gives the next word of class a other shades.
pub(crate) fn put(entries: &[Entry], a: u16, word: Word, field: &mut [u8]) {
    let cells = entries
        .iter()
        .zip(field.iter_mut())
        .filter(|(entry, _)| entry.class == a);
    for (shade, (_, cell)) in word.iter().zip(cells) {
        *cell = *shade;
    }
}

// Whether a word is lawful: 1, 5, 6, 11, 16 and 21 times its shades add up to a multiple of 25.
pub(crate) fn is_lawful(word: Word) -> bool {
    let [first, second, third, fourth, fifth, sixth] = word.map(u32::from);
    (first + 5 * second + 6 * third + 11 * fourth + 16 * fifth + 21 * sixth) % 25 == 0
}
