// The payload's bits put into the cells of a field, run by run between the cells that hold a check.
ghost use Rattle.std.specs.Prelude.{◌≡◌, ◌+◌, ◌<◌, ◌≤◌, length};
ghost use Rattle.codec.specs.Filling.{BitsPut, ValuesPut};
ghost use Rattle.codec.specs.Payload.{padding, data_value};

use crate::gather::begins_byte;
use crate::payload::{Padding, padding_value, payload_bit};

// Four cells from a number below 16, the highest bit first.
fn put_four(part: &mut [u8], x: usize, four: u8)
    requires { x + 4 ≤ length part.old }
    ensures { BitsPut part.old part.new x 4 four }
{
    part[x] = four / 8 % 2;
    part[x + 1] = four / 4 % 2;
    part[x + 2] = four / 2 % 2;
    part[x + 3] = four % 2;
}

// Eight cells from a byte.
fn put_byte(part: &mut [u8], x: usize, byte: u8)
    requires { x + 8 ≤ length part.old }
    ensures { BitsPut part.old part.new x 8 byte }
{
    put_four(part, x, byte / 16);
    put_four(part, x + 4, byte % 16);
}

// The value of the k-th of the cells that hold no check: a bit of the payload, or padding behind its last bit.
fn data_value(payload: &[u8], k: usize) -> u8
    ensures { result ≡ data_value padding (length payload.now) payload.now k }
{
    if k / 8 < payload.len() {
        payload_bit(payload, k)
    } else {
        padding_value(Padding::Pattern, k - 8 * payload.len())
    }
}

// Fills the cells of a whole byte, or one cell; gives the cell behind. The part begins at cell `at` of the field.
fn scatter_some(payload: &[u8], part: &mut [u8], at: usize, k: usize, i: usize, end: usize) -> usize
    requires { (k ≤ i) × (at ≤ i) × (i < end) × (end ≤ at + length part.old) }
    ensures lower_bound { (i < result) × (result ≤ end) }
    ensures values_put { ValuesPut payload.now part.old part.new at k i result }
{
    let rank = i - k;
    if begins_byte(rank, end - i, payload.len()) {
        put_byte(part, i - at, payload[rank / 8]);
        return i + 8;
    }
    part[i - at] = data_value(payload, rank);
    i + 1
}

// Fills the run of cells from `begin` up to `end`, which k checks stand before.
pub(crate) fn scatter_run(
    payload: &[u8],
    part: &mut [u8],
    at: usize,
    k: usize,
    begin: usize,
    end: usize,
)
    requires { (k ≤ begin) × (at ≤ begin) × (begin ≤ end) × (end ≤ at + length part.old) }
    ensures { ValuesPut payload.now part.old part.new at k begin end }
{
    let mut i = begin;
    // its step is eight cells or one
    while i < end {
        i = scatter_some(payload, part, at, k, i, end);
    }
}
