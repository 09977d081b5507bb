// What is done to a shaded field, or to its digits, before it is read or written.
ghost use Rattle.std.specs.Prelude.{◌<◌, ◌≤◌};

use crate::cases::random;
use crate::cases::random::After;
use crate::cases::sizes::Sizes;
use second::answer::{Buffer, CELLS};
use second::shaded::shaded_write;

// How a cell is changed: to the shade below or so many above, where there is one; to so many above, where 0 follows 24, so that
// the word has the remainder of that fault also where the cell comes from no shade; and to a number.
#[derive(Clone, Copy, PartialEq, Eq, Debug)]
pub(crate) enum Change {
    Below,
    Above(u8),
    Round(u8),
    To(u8),
}

// The faults: the shade below, and the first, second and third above.
pub(crate) const FAULTS: [Change; 4] = [
    Change::Below,
    Change::Above(1),
    Change::Above(2),
    Change::Above(3),
];

// The same, round the end of the shades.
pub(crate) const ROUND: [Change; 4] = [
    Change::Round(24),
    Change::Round(1),
    Change::Round(2),
    Change::Round(3),
];

// The changes that each cell of a small field has: the faults, and to the ends of the shades and of what is none.
pub(crate) const CHANGES: [Change; 8] = [
    Change::Below,
    Change::Above(1),
    Change::Above(2),
    Change::Above(3),
    Change::To(0),
    Change::To(24),
    Change::To(25),
    Change::To(255),
];

impl Change {
    // A cell after it.
    pub(crate) fn on(self, cell: u8) -> u8 {
        match self {
            Change::Below => cell.saturating_sub(1),
            Change::Above(by) => match cell.checked_add(by) {
                Some(shade) if shade < 25 => shade,
                _ => cell,
            },
            Change::Round(by) => ((u16::from(cell) + u16::from(by)) % 25) as u8,
            Change::To(number) => number,
        }
    }
}

// Digits such that, where all digits of a field are one of these, each in turn, every cell of a word comes to 0, 1, 21, 22, 23
// and 24: the ends of the shades, and the shades from which a fault leads to an end. The check is 16 times the digit, modulo 25.
pub(crate) const ENDS: [u8; 11] = [0, 1, 3, 6, 11, 14, 17, 21, 22, 23, 24];

impl Sizes {
    // Puts a fault into `count` cells, wherever they lie.
    fn scatter_faults(self, count: usize, x: u64, field: &mut Buffer) {
        for state in After(x).take(count) {
            let i = random::below(state, self.cells);
            let fault = random::pick(random::later(state), &FAULTS);
            field[i] = fault.on(field[i]);
        }
    }

    // Puts any shades into the cells that belong to no word. Those are 0 in the field of the digit 24 alone, and no others are:
    // the check of such a word is 9.
    fn strew(self, x: u64, field: &mut Buffer) {
        let of_24 = shaded_write(
            self.shape,
            [24; CELLS],
            self.payload,
            [1; CELLS],
            self.cells,
        )
        .buffer;
        for ((cell, other), state) in field.iter_mut().zip(of_24.iter()).zip(After(x)) {
            if *other == 0 {
                *cell = random::below(state, 25) as u8;
            }
        }
    }

    // The damage of a case: none, one fault, two, more, shades in the cells that belong to no word, alone and with two faults, a
    // cell of 25 or 255, all cells by chance, also with a cell of 25, and any bytes.
    pub(crate) fn damage_shades(self, case: usize, x: u64, field: &mut Buffer) {
        let i = random::below(x, self.cells);
        // A case's number draws it, and chooses its digits, its damage and what is lent alike, so it stays a number.
        match case {
            4 | 5 => self.scatter_faults(1, x, field),
            6 => self.scatter_faults(2, x, field),
            7 => self.scatter_faults(3 + random::below(x, 5), x, field),
            8 => self.strew(x, field),
            9 => {
                self.scatter_faults(2, x, field);
                self.strew(x, field);
            }
            10 | 23 | 24 => field[i] = 25,
            11 => field[i] = 255,
            12 => *field = random::buffer(x, 25),
            13 => {
                *field = random::buffer(x, 25);
                field[i] = 25;
            }
            14 => *field = random::buffer(x, 256),
            _ => {}
        }
    }
}

// Digits of which about two thirds are 0 or 24.
fn at_ends(x: u64) -> Buffer {
    let mut digits = random::buffer(x, 75);
    for digit in &mut digits {
        *digit = match *digit {
            0..25 => 0,
            50.. => 24,
            other => other % 25,
        };
    }
    digits
}

// The digits of a case: any ones, zeros, all 24, most 0 or 24. The number stays one, as in `damage_shades`.
pub(crate) fn digits(case: usize, x: u64) -> Buffer {
    match case {
        1 => [0; CELLS],
        2 => [24; CELLS],
        3 | 4 | 9 => at_ends(x),
        _ => random::buffer(x, 25),
    }
}

// Makes the digits those that are written in a case: in some, one is 25 or 255. The number stays one, as in `damage_shades`.
pub(crate) fn soil(case: usize, digits: usize, x: u64, payload: &mut Buffer)
    requires { digits ≤ 512 }
{
    if digits != 0 {
        let i = random::below(x, digits);
        match case {
            21 | 23 | 24 => payload[i] = 25,
            22 => payload[i] = 255,
            _ => {}
        }
    }
}
