// The spot of a cell: whether it belongs to a word, which, and its place there.
ghost use Rattle.std.specs.Prelude.{◌≡◌, ◌≤◌};
ghost use Rattle.levels.specs.Working.{spot_at, holds_at};

// The number of the word, and the place in it from 0; a cell that is ignored is not inside. The bounds of the two are clauses
// where they are used, and no ghost fields: the text is read as Rust too, by rust/build/same.rs.
#[derive(Clone, Copy)]
pub(crate) struct Spot {
    pub inside: bool,
    pub word: usize,
    pub slot: usize,
}

// The spot of the cell at a position, from 1, of a class of that size with so many words in the classes before it.
pub(crate) fn spot_at(position: u32, size: u32, offset: u32) -> Spot
    requires { 1 ≤ position }
    ensures { result ≡ spot_at position size offset }
{
    let before = position - 1;
    Spot {
        inside: position <= size / 6 * 6,
        word: offset as usize + (before / 6) as usize,
        slot: (before % 6) as usize,
    }
}

// Does the cell at a spot hold a digit?
pub(crate) fn holds_digit(spot: Spot) -> bool
    ensures { result ≡ holds_at spot }
{
    spot.inside && spot.slot != 0
}
