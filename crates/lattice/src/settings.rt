// The settings m, b and c of a field by strength.
ghost use Rattle.std.specs.Prelude.{◌≡◌, ◌<◌, ◌≤◌};
ghost use Rattle.lattice.specs.Settings.{flat_settings, stack_settings, settings_of};
ghost use Rattle.lattice.specs.Shape.{Accepted};

use crate::shape::Shape;

// m classes; b goes with the row and c with the plane.
#[derive(Clone, Copy)]
pub struct Settings {
    pub m: u16,
    pub b: u16,
    pub c: u16,
}

// The stack settings, a row for each strength from 0, which has none.
const STACK: [Settings; 9] = [
    Settings { m: 0, b: 0, c: 0 },
    Settings { m: 1, b: 0, c: 0 },
    Settings { m: 2, b: 1, c: 1 },
    Settings { m: 7, b: 2, c: 3 },
    Settings { m: 12, b: 3, c: 5 },
    Settings { m: 27, b: 4, c: 10 },
    Settings { m: 38, b: 7, c: 11 },
    Settings {
        m: 70,
        b: 16,
        c: 25,
    },
    Settings { m: 92, b: 9, c: 39 },
];

// The flat rule. A strength below 256 keeps m and b within their type.
fn flat(strength: u16) -> Settings
    requires { strength < 256 }
    ensures { result ≡ flat_settings strength }
{
    if strength % 2 == 1 {
        Settings {
            m: (strength * strength + 1) / 2,
            b: strength,
            c: 0,
        }
    } else {
        Settings {
            m: strength * strength / 2,
            b: strength + 1,
            c: 0,
        }
    }
}

// The row of the table for a strength.
fn stack(strength: usize) -> Settings
    requires { strength < 9 }
    ensures { result ≡ stack_settings strength }
{
    STACK[strength]
}

impl Shape {
    // The settings of an accepted shape by strength.
    pub(crate) fn settings(self) -> Settings
        requires { Accepted self × (1 ≤ self.strength) }
        ensures { result ≡ settings_of self }
    {
        if self.planes == 1 {
            flat(self.strength)
        } else {
            stack(self.strength as usize)
        }
    }
}
