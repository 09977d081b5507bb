// The shaded operations, by search: the check of a word is the shade that makes it lawful, and a word that was read is tried with
// every change of every cell.
ghost use Rattle.std.specs.Prelude.{◌≤◌, slice_index};

use crate::answer::{Answer, Buffer, Left};
use crate::declined::Declined;
use crate::layout::{Layout, accept_field, lay_out};
use crate::read::{differences, is_soiled};
use crate::shaded_words::{Place, Places, WORD, Word, is_lawful, places, put, taken};
use crate::{answer, settings};
use lattice::shape::Shape;

// The highest shade, and the highest digit.
const HIGHEST: u8 = 24;

// A word with each shade as its check, until it is lawful.
fn with_check(before: Word) -> Word {
    let mut word = before;
    for shade in 0..=HIGHEST {
        word[0] = shade;
        if is_lawful(word) {
            return word;
        }
    }
    word
}

// Makes the cells that are left over 0.
fn clear(places: &Places, field: &mut Buffer) {
    for (place, cell) in places.iter().zip(field.iter_mut()) {
        if *place == Place::LeftOver {
            *cell = 0;
        }
    }
}

// Puts the digits, in byte order over the cells of all words that hold no check.
fn lay(places: &Places, payload: &Buffer, field: &mut Buffer) {
    let cells = places
        .iter()
        .zip(field.iter_mut())
        .filter(|(place, _)| **place == Place::Digit);
    for (digit, (_, cell)) in payload.iter().zip(cells) {
        *cell = *digit;
    }
}

// Gives every word its check.
fn settle(layout: &Layout, places: &Places, field: &mut Buffer) {
    let entries = layout.entries();
    for (i, entry) in entries.iter().enumerate() {
        if places[i] == Place::Check {
            let rest = &entries[i..];
            let word = with_check(taken(rest, entry.class, &field[i..]));
            put(rest, entry.class, word, &mut field[i..]);
        }
    }
}

// A field with the payload's digits and the checks of all words, where the operation does not decline.
fn written(
    shape: Shape,
    payload: &Buffer,
    digits: usize,
    before: Buffer,
    cells: usize,
) -> Result<Buffer, Declined> {
    let laid = lay_out(shape)?;
    laid.accept(5 * laid.words, digits, cells)?;
    if is_soiled(digits, payload, HIGHEST) {
        return Err(Declined::BadShade);
    }
    let places = places(&laid.layout);
    let mut field = before;
    clear(&places, &mut field);
    lay(&places, payload, &mut field);
    settle(&laid.layout, &places, &mut field);
    Ok(field)
}

// Writes the first `digits` of a payload into the first `cells` of a field, where those are the lengths of the plan. What lies
// behind the field stays.
pub fn shaded_write(
    shape: Shape,
    payload: Buffer,
    digits: usize,
    field: Buffer,
    cells: usize,
) -> Answer
    ensures { result.number ≤ 12 }
{
    answer::stored(written(shape, &payload, digits, field, cells), field)
}

// The lawful word that a word comes from by a change of one cell by −1 to 3, if one is: every change of every cell is tried.
fn mend_word(read: Word) -> Option<Word> {
    for k in 0..WORD {
        for change in -1..=3 {
            let shade = i16::from(read[k]).saturating_sub(change);
            if (0..=i16::from(HIGHEST)).contains(&shade) {
                let mut word = read;
                word[k] = shade as u8;
                if is_lawful(word) {
                    return Some(word);
                }
            }
        }
    }
    None
}

// Mends every word of the first `cells` of a field.
fn mended(
    layout: &Layout,
    places: &Places,
    before: Buffer,
    cells: usize,
) -> Result<Left, Declined> {
    if is_soiled(cells, &before, HIGHEST) {
        return Err(Declined::BadShade);
    }
    let mut field = before;
    let entries = layout.entries();
    for (i, entry) in entries.iter().enumerate() {
        if places[i] == Place::Check {
            let rest = &entries[i..];
            let read = taken(rest, entry.class, &field[i..]);
            let word = mend_word(read).ok_or(Declined::OutOfReach)?;
            put(rest, entry.class, word, &mut field[i..]);
        }
    }
    Ok(Left {
        count: differences(&before, &field),
        buffer: field,
    })
}

// A mended field whose cells that are left over are 0, where the operation does not decline. A field of another length is not
// laid out.
fn mended_by_shape(shape: Shape, field: Buffer, cells: usize) -> Result<Left, Declined> {
    accept_field(settings::accept(shape)?, cells)?;
    let laid = lay_out(shape)?;
    let places = places(&laid.layout);
    let mut buffer = mended(&laid.layout, &places, field, cells)?.buffer;
    clear(&places, &mut buffer);
    Ok(Left {
        count: differences(&field, &buffer),
        buffer,
    })
}

// Mends the first `cells` of a field; there is no payload, and none is asked for. The figure: the count, of the cells that are
// left over too.
pub fn shaded_mend(shape: Shape, field: Buffer, cells: usize) -> Answer
    ensures { (result.number ≤ 12) × (slice_index result.figures 0 ≤ 512) }
{
    answer::counted(mended_by_shape(shape, field, cells), field)
}

// What the cells of all words that hold no check spell, a digit each, before what is left of a payload.
fn spelt(places: &Places, field: &Buffer, before: Buffer) -> Buffer {
    let mut payload = before;
    let cells = places
        .iter()
        .zip(field.iter())
        .filter(|(place, _)| **place == Place::Digit);
    for (digit, (_, cell)) in payload.iter_mut().zip(cells) {
        *digit = *cell;
    }
    payload
}

// A payload with the digits of a mended field, where the operation does not decline.
fn payload_of(
    shape: Shape,
    payload: Buffer,
    digits: usize,
    field: Buffer,
    cells: usize,
) -> Result<Left, Declined> {
    let laid = lay_out(shape)?;
    laid.accept(5 * laid.words, digits, cells)?;
    let places = places(&laid.layout);
    let mended = mended(&laid.layout, &places, field, cells)?;
    Ok(Left {
        buffer: spelt(&places, &mended.buffer, payload),
        count: mended.count,
    })
}

// Reads the first `cells` of a field into the first `digits` of a payload. The figure: the count, of cells of words alone.
pub fn shaded_read(
    shape: Shape,
    payload: Buffer,
    digits: usize,
    field: Buffer,
    cells: usize,
) -> Answer
    ensures { (result.number ≤ 12) × (slice_index result.figures 0 ≤ 512) }
{
    answer::counted(payload_of(shape, payload, digits, field, cells), payload)
}
