// Encoding of levels: the remainders of the digits alone, and then every cell from them.
ghost use Rattle.std.specs.Prelude.{◌≡◌, cond, true, ℕ, ◌<◌, get_or, length};
ghost use Rattle.lattice.specs.Refusal.{number_of, NoOutside};
ghost use Rattle.lattice.specs.Shape.{cells_of};
ghost use Rattle.levels.specs.Payload.{check_for};
ghost use Rattle.levels.specs.Encode.{encode_levels_number, encoded_levels_field};
ghost use Rattle.levels.specs.Answer.{IsEncodedLevels};
ghost use Rattle.levels.specs.Working.{max_words, Laid, HoldsDigits, LengthsFit, Remainders, encoded_at};

use crate::examine::levels_ok;
use crate::lengths::length_tests;
use crate::remainders::take_level;
use crate::spot::{Spot, holds_digit};
use crate::tour::Tour;
use crate::words::{MAX_WORDS, WordTable};
use lattice::refusal::Refusal;
use lattice::shape::Shape;

// The digit of a cell, or 0 for a cell that holds none.
fn digit_value(payload: &[u8], held: bool, rank: usize) -> u8
    ensures { result ≡ cond held (get_or payload.now rank 0) 0 }
{
    if held && rank < payload.len() {
        return payload[rank];
    }
    0
}

// The level that makes a multiple of 25 of a remainder.
fn check_for(remainder: u8) -> u8
    requires { remainder < 25 }
    ensures { result ≡ check_for remainder }
{
    (25 - remainder) % 25
}

// The value of a cell in the field written: the check of its word, or the digit.
#[tactic(auto, unfolding(crate::specs::Working::encoded_at))]
fn encoded_value(remainders: &[u8; MAX_WORDS], spot: Spot, digit: u8) -> u8
    requires word_lt_max_words { spot.inside ≡ true → spot.word < max_words }
    requires remainders { Remainders remainders.now }
    ensures { result ≡ encoded_at remainders.now spot digit }
{
    let word = spot.word;
    if spot.inside && spot.slot == 0 {
        return check_for(remainders[word]);
    }
    digit
}

// The remainder of each word of the digits alone; the array is 0 at entry.
fn digit_remainders(
    shape: Shape,
    payload: &[u8],
    words: &WordTable,
    remainders: &mut [u8; MAX_WORDS],
)
    requires laid { Laid shape words.now }
    requires by_index { (w : ℕ) → get_or remainders.old w 0 ≡ 0 }
    ensures { HoldsDigits shape payload.now remainders.new }
{
    let mut tour = Tour::new(shape);
    let mut counts = [0u32; Shape::MAX_CLASSES];
    let cells = shape.cells();
    let mut rank = 0;
    for i in 0..cells {
        let spot = tour.spot(&mut counts, words, shape, i);
        let held = holds_digit(spot);
        take_level(remainders, spot, digit_value(payload, held, rank));
        rank += usize::from(held);
        tour.step();
    }
}

// Stores the field written from a payload.
fn store_encoded(
    shape: Shape,
    payload: &[u8],
    words: &WordTable,
    remainders: &[u8; MAX_WORDS],
    field: &mut [u8],
)
    requires laid { Laid shape words.now }
    requires field_len { length field.old ≡ cells_of shape }
    requires holds_digits { HoldsDigits shape payload.now remainders.now }
    ensures { field.new ≡ encoded_levels_field shape payload.now }
{
    let mut tour = Tour::new(shape);
    let mut counts = [0u32; Shape::MAX_CLASSES];
    let mut rank = 0;
    for (i, cell) in field.iter_mut().enumerate() {
        let spot = tour.spot(&mut counts, words, shape, i);
        let held = holds_digit(spot);
        *cell = encoded_value(remainders, spot, digit_value(payload, held, rank));
        rank += usize::from(held);
        tour.step();
    }
}

// The tests of encoding in their order, 1, 2, 11, 3, 4, 12; where they pass, the table holds where the words lie.
fn encode_tests(
    shape: Shape,
    payload: &[u8],
    field: &[u8],
    words: &mut WordTable,
) -> Result<(), Refusal>
    ensures result_value { number_of result ≡ encode_levels_number shape payload.now field.now }
    ensures no_outside { NoOutside result }
    ensures lengths_fit { number_of result ≡ 0 → LengthsFit shape payload.now field.now words.new }
{
    length_tests(shape, payload, field, words)?;
    if !levels_ok(payload) {
        return Err(Refusal::BadLevel);
    }
    Ok(())
}

// Writes the field of a payload of digits, or gives the refusal 1, 2, 11, 3, 4 or 12.
pub fn encode_levels(shape: Shape, payload: &[u8], field: &mut [u8]) -> Result<(), Refusal>
    ensures { IsEncodedLevels shape payload.now field.old field.new result }
{
    let mut words = WordTable::EMPTY;
    encode_tests(shape, payload, field, &mut words)?;
    let mut remainders = [0u8; MAX_WORDS];
    digit_remainders(shape, payload, &words, &mut remainders);
    store_encoded(shape, payload, &words, &remainders, field);
    Ok(())
}
