// Decoding of levels: the tests, and then the digits that the corrected field holds.
ghost use Rattle.std.specs.Prelude.{◌≡◌, not, ◌&&◌, ℕ, eqb, get_or, length};
ghost use Rattle.lattice.specs.Refusal.{number_of, NoOutside};
ghost use Rattle.lattice.specs.Class.{layout_of};
ghost use Rattle.lattice.specs.Digits.{digits_of};
ghost use Rattle.codec.specs.Field.{field_of};
ghost use Rattle.levels.specs.Payload.{held_digits, word_differences};
ghost use Rattle.levels.specs.Decode.{restored_field, decode_levels_number};
ghost use Rattle.levels.specs.Answer.{IsDecodedLevels};
ghost use Rattle.levels.specs.Working.{LevelsExamined, DigitStored};

use crate::examine::examine_levels;
use crate::lengths::length_tests;
use crate::restore::{change_of, restored_level};
use crate::spot::holds_digit;
use crate::tour::Tour;
use crate::words::{MAX_WORDS, WordTable};
use lattice::refusal::Refusal;
use lattice::shape::Shape;

// Stores the value of a cell that holds a digit.
fn store_digit(payload: &mut [u8], held: bool, rank: usize, value: u8)
    ensures { DigitStored payload.old payload.new held rank value }
{
    if held && rank < payload.len() {
        payload[rank] = value;
    }
}

// Does a cell of a word differ?
fn differs(inside: bool, before: u8, after: u8) -> bool
    ensures { result ≡ (inside && not (eqb before after)) }
{
    inside && before != after
}

// Stores the digits that the corrected field holds; gives the number of word cells that differ.
fn store_digits(
    shape: Shape,
    field: &[u8],
    words: &WordTable,
    remainders: &[u8; MAX_WORDS],
    payload: &mut [u8],
) -> usize
    requires levels_examined { LevelsExamined shape field.now words.now remainders.now }
    requires payload_len { length payload.old ≡ digits_of shape }
    ensures payload_after { payload.new
        ≡ held_digits (layout_of shape) (digits_of shape) (restored_field shape (field_of field.now)) }
    ensures value { result
        ≡ word_differences (layout_of shape) (field_of field.now) (restored_field shape (field_of field.now)) }
{
    let mut tour = Tour::new(shape);
    let mut counts = [0u32; Shape::MAX_CLASSES];
    let mut rank = 0;
    let mut changed = 0;
    for (i, cell) in field.iter().enumerate() {
        let spot = tour.spot(&mut counts, words, shape, i);
        let held = holds_digit(spot);
        let value = restored_level(spot.inside, *cell, change_of(remainders, spot));
        store_digit(payload, held, rank, value);
        rank += usize::from(held);
        changed += usize::from(differs(spot.inside, *cell, value));
        tour.step();
    }
    changed
}

// The tests of decoding in their order, 1, 2, 11, 3, 4, 12, 6; where they pass, the table holds where the words lie, and the
// array the remainder of each word. The array is 0 at entry.
fn decode_tests(
    shape: Shape,
    payload: &[u8],
    field: &[u8],
    words: &mut WordTable,
    remainders: &mut [u8; MAX_WORDS],
) -> Result<(), Refusal>
    requires { (w : ℕ) → get_or remainders.old w 0 ≡ 0 }
    ensures result_value { number_of result ≡ decode_levels_number shape payload.now field.now }
    ensures no_outside { NoOutside result }
    ensures levels_examined { number_of result ≡ 0
        → LevelsExamined shape field.now words.new remainders.new × (length payload.now ≡ digits_of shape) }
{
    length_tests(shape, payload, field, words)?;
    examine_levels(shape, field, words, remainders)
}

// Stores the digits and gives the number of word cells that differ, or gives the refusal 1, 2, 11, 3, 4, 12 or 6.
pub fn decode_levels(shape: Shape, payload: &mut [u8], field: &[u8]) -> Result<usize, Refusal>
    ensures { IsDecodedLevels shape payload.old field.now payload.new result }
{
    let mut words = WordTable::EMPTY;
    let mut remainders = [0u8; MAX_WORDS];
    decode_tests(shape, payload, field, &mut words, &mut remainders)?;
    Ok(store_digits(shape, field, &words, &remainders, payload))
}
