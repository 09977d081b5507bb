// The faults of a word of six cells, worked out from the multipliers of its cells. A cell below 6 and a remainder below 25 are
// clauses, and no types with ghost fields: the text is read as Rust too, by rust/build/same.rs.
ghost use Rattle.std.specs.Prelude.{◌≢◌, ◌≡◌, ◌+◌, ◌*◌, ◌%◌, ◌<◌, eqb};
ghost use Rattle.levels.specs.Faults.{multiplier, fault_of, none, change};
ghost use Rattle.levels.specs.Working.{only_change};

// A cell of a word, from 0, and its change with 1 added: 0 for −1, and 2, 3, 4 for +1, +2, +3; 1 is no change. No fault is that
// of cell 0 by no change, as the definition has it (`none`), of which the theorems speak.
#[derive(Clone, Copy)]
pub(crate) struct Fault {
    pub cell: u8,
    pub up: u8,
}

// The multipliers of the cells of a word.
const MULTIPLIERS: [u32; 6] = [1, 5, 6, 11, 16, 21];

// The multiplier of a cell of a word.
pub(crate) fn multiplier(cell: usize) -> u32
    requires { cell < 6 }
    ensures value { result ≡ multiplier cell }
    ensures upper_bound { result < 22 }
{
    MULTIPLIERS[cell]
}

// The only change, with 1 added, that can have left a remainder in a cell with that multiplier. Modulo 5 every multiplier but 5
// is 1, so that what a change leaves is the change, modulo 5; the cell of 5 leaves 5 times the change, modulo 25.
fn only_change(factor: u32, remainder: u8) -> u8
    requires { remainder < 25 }
    ensures { result ≡ only_change factor remainder }
{
    if factor == 5 {
        (remainder / 5 + 1) % 5
    } else {
        (remainder + 1) % 5
    }
}

// Does a change, with 1 added, leave the remainder? It leaves multiplier × change, modulo 25, with −1 as 24. To test whether the
// difference is a multiple of 25 is faster than to work the remainder out.
fn leaves(factor: u32, up: u8, remainder: u8) -> bool
    requires factor_bound { factor < 22 }
    requires up_bound { up < 5 }
    requires remainder_bound { remainder < 25 }
    ensures { result ≡ eqb (factor * (up + 24) % 25) remainder }
{
    (factor * (up as u32 + 24) + 25 - remainder as u32) % 25 == 0
}

// The fault that leaves a remainder, where it is one of this cell; else no fault. Of the four changes of the cell only the one
// that can have left the remainder is tried.
fn fault_in(remainder: u8, cell: usize) -> Fault
    requires remainder_nonzero { (0 < remainder) × (remainder < 25) }
    requires cell_bound { cell < 6 }
    ensures value { (fault_of remainder).cell ≡ cell → result ≡ fault_of remainder }
    ensures value_2 { (fault_of remainder).cell ≢ cell → result ≡ none }
{
    let factor = multiplier(cell);
    let up = only_change(factor, remainder);
    if leaves(factor, up, remainder) {
        Fault {
            cell: cell as u8,
            up,
        }
    } else {
        Fault { cell: 0, up: 1 }
    }
}

// The change of a cell, with 1 added, in a word with a remainder. Most words have the remainder 0, and for these nothing is
// worked out.
pub(crate) fn change(remainder: u8, cell: usize) -> u8
    requires remainder_bound { remainder < 25 }
    requires cell_bound { cell < 6 }
    ensures { result ≡ change remainder cell }
{
    if remainder == 0 {
        return 1;
    }
    fault_in(remainder, cell).up
}
