// Why an operation declines what it is given.
ghost use Rattle.std.specs.Prelude.{◌≡◌};
ghost use Rattle.second.specs.Declined.{number_of};

// A case for each reason. A field whose length is wrong and a cell outside the shape are two reasons with the number 4.
#[derive(Clone, Copy, Debug, PartialEq, Eq)]
pub(crate) enum Declined {
    BadSize,
    BadStrength,
    PayloadLength,
    FieldLength,
    OutsideShape,
    BadCell,
    OutOfReach,
    BadFiller,
    BadSettings,
    TooManyUnread,
    BadWindow,
    BadShade,
}

impl Declined {
    // The papers' number. A method and no From, so that a call says which number it is.
    pub(crate) fn number(self) -> usize
        ensures { result ≡ number_of self }
    {
        match self {
            Declined::BadSize => 1,
            Declined::BadStrength => 2,
            Declined::PayloadLength => 3,
            Declined::FieldLength => 4,
            Declined::OutsideShape => 4,
            Declined::BadCell => 5,
            Declined::OutOfReach => 6,
            Declined::BadFiller => 7,
            Declined::BadSettings => 9,
            Declined::TooManyUnread => 10,
            Declined::BadWindow => 11,
            Declined::BadShade => 12,
        }
    }
}
