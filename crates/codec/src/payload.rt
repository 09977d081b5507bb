// The bits of a payload, and the padding behind them.
ghost use Rattle.std.specs.Prelude.{◌≡◌, ◌*◌, ◌<◌, length};
ghost use Rattle.codec.specs.Payload.{payload_bit};
ghost use Rattle.codec.specs.Working.{padding_of};

// Bit k of the payload, the highest bit of each byte first.
pub(crate) fn payload_bit(payload: &[u8], k: usize) -> u8
    requires { k < 8 * length payload.now }
    ensures { result ≡ payload_bit payload.now k }
{
    payload[k / 8] / (1u8 << (7 - k % 8)) % 2
}

// A padding: 1, 0, 1, 0 and on, which is written, or the zeros that were written before.
#[derive(Clone, Copy)]
pub(crate) enum Padding {
    Pattern,
    Zeros,
}

// The value of cell j of a padding.
pub(crate) fn padding_value(padding: Padding, j: usize) -> u8
    ensures { result ≡ padding_of padding j }
{
    match padding {
        Padding::Pattern => 1 - (j % 2) as u8,
        Padding::Zeros => 0,
    }
}
