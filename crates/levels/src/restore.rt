// The change of a cell that its word's remainder tells, and the level without it.
ghost use Rattle.std.specs.Prelude.{◌≡◌, cond, true, ◌+◌, ◌<◌, ◌≤◌};
ghost use Rattle.levels.specs.Level.{max_level};
ghost use Rattle.levels.specs.Restored.{restored, restores};
ghost use Rattle.levels.specs.Working.{max_words, Remainders, change_of};

use crate::faults::change;
use crate::spot::Spot;
use crate::words::MAX_WORDS;

// The greatest level.
pub(crate) const MAX_LEVEL: u8 = 24;

// The change of a cell, with 1 added, by the remainder of its word; 1 for an ignored cell.
pub(crate) fn change_of(remainders: &[u8; MAX_WORDS], spot: Spot) -> u8
    requires word_lt_max_words { spot.inside ≡ true → spot.word < max_words }
    requires slot_bound { spot.slot < 6 }
    requires remainders { Remainders remainders.now }
    ensures { result ≡ change_of remainders.now spot }
{
    let word = spot.word;
    if spot.inside {
        change(remainders[word], spot.slot)
    } else {
        1
    }
}

// Is the value a level without the change?
pub(crate) fn can_restore(value: u8, up: u8) -> bool
    ensures { result ≡ restores value up }
{
    let raised = value as u32 + 1;
    if raised < up as u32 {
        return false;
    }
    raised - up as u32 <= MAX_LEVEL as u32
}

// The value of a cell without the change; 0 for an ignored cell.
pub(crate) fn restored_level(inside: bool, value: u8, up: u8) -> u8
    requires { value ≤ max_level }
    ensures { result ≡ cond inside (restored value up) 0 }
{
    if inside {
        (value + 1).saturating_sub(up)
    } else {
        0
    }
}
