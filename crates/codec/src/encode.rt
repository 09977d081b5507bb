// Encoding: the data cells are filled, and then the checks are set from the syndromes of the data.
ghost use Rattle.std.specs.Prelude.{◌≡◌, ℕ, ◌/◌, ◌<◌, ◌≤◌, get_or, length};
ghost use Rattle.lattice.specs.Shape.{max_classes, cells_of};
ghost use Rattle.lattice.specs.Class.{layout_of};
ghost use Rattle.lattice.specs.Listing.{max_checks};
ghost use Rattle.lattice.specs.Sizes.{HoldsZeros};
ghost use Rattle.codec.specs.Field.{field_of};
ghost use Rattle.codec.specs.Encode.{encoded_field};
ghost use Rattle.codec.specs.Answer.{IsEncoded};
ghost use Rattle.codec.specs.Working.{HoldsSyndromes, PayloadFits, FieldFits};
ghost use Rattle.codec.specs.Filling.{ChecksPut, bit_at};

use crate::fill::fill_planes;
use crate::lengths::length_tests;
use crate::syndromes::field_syndromes;
use lattice::refusal::Refusal;
use lattice::shape::Shape;
use passes::check_cells::{MAX_CHECKS, check_cells};

// The bit of its class's syndrome that a check at a place holds.
fn check_bit(syndromes: &[u32; Shape::MAX_CLASSES], place: usize) -> u8
    requires { place / 32 < max_classes }
    ensures { result ≡ bit_at syndromes.now place }
{
    ((syndromes[place / 32] >> (place % 32)) % 2) as u8
}

// The syndromes of the field that holds the data alone; the array is 0 at entry.
fn data_syndromes(shape: Shape, field: &[u8], syndromes: &mut [u32; Shape::MAX_CLASSES])
    requires field_fits { FieldFits shape field.now }
    requires holds_zeros { HoldsZeros syndromes.old }
    ensures { HoldsSyndromes (layout_of shape) (field_of field.now) syndromes.new (cells_of shape) }
{
    field_syndromes(shape.pass(), field, 1, syndromes);
}

// Sets the listed checks in the field, which holds the data alone.
fn set_checks(
    amount: usize,
    checks: &[u16; MAX_CHECKS],
    places: &[u16; MAX_CHECKS],
    syndromes: &[u32; Shape::MAX_CLASSES],
    field: &mut [u8],
)
    requires amount_le_max_checks { amount ≤ max_checks }
    requires by_index { (k : ℕ) → k < amount → get_or checks.now k 0 < length field.old }
    requires by_index_2 { (k : ℕ) → k < amount → get_or places.now k 0 / 32 < max_classes }
    ensures { ChecksPut checks.now places.now syndromes.now
        field.old field.new amount }
{
    for k in 0..amount {
        let cell = checks[k] as usize;
        field[cell] = check_bit(syndromes, places[k] as usize);
    }
}

// Writes the field of a payload, where `sizes` holds the size of each class.
fn write_field(shape: Shape, payload: &[u8], sizes: &[u32; Shape::MAX_CLASSES], field: &mut [u8])
    requires payload_fits { PayloadFits shape payload.now sizes.now }
    requires field_len { length field.old ≡ cells_of shape }
    ensures { field.new ≡ encoded_field shape payload.now }
{
    let mut checks = [0u16; MAX_CHECKS];
    let mut places = [0u16; MAX_CHECKS];
    let amount = check_cells(shape, sizes, &mut checks, &mut places);
    fill_planes(shape, payload, &checks, amount, field);
    let mut syndromes = [0u32; Shape::MAX_CLASSES];
    data_syndromes(shape, field, &mut syndromes);
    set_checks(amount, &checks, &places, &syndromes, field);
}

// Writes the field of a payload, or gives the refusal 1, 2, 11, 3 or 4.
pub fn encode(shape: Shape, payload: &[u8], field: &mut [u8]) -> Result<(), Refusal>
    ensures { IsEncoded shape payload.now field.old field.new result }
{
    let mut sizes = [0u32; Shape::MAX_CLASSES];
    length_tests(shape, payload, field, &mut sizes)?;
    write_field(shape, payload, &sizes, field);
    Ok(())
}
