// The refusals of all operations, and what an answer has beside one.
ghost use Rattle.std.specs.Prelude.{◌≡◌};
ghost use Rattle.lattice.specs.Refusal.{refusal_number, number_of, figure_of};

// A case for each reason. A field whose length is wrong and a cell outside the shape are two reasons with the number 4.
#[derive(Clone, Copy, Debug, PartialEq, Eq)]
pub enum Refusal {
    BadSize,
    BadStrength,
    PayloadLength,
    FieldLength,
    OutsideShape,
    BadCell,
    OutOfReach,
    BadPadding,
    BadForm,
    BadSettings,
    TooManyErasures,
    BadWindow,
    BadLevel,
}

impl Refusal {
    // The papers' number. It is no conversion, as two reasons have one number, and its name says which number it is.
    pub fn number(self) -> usize
        ensures { result ≡ refusal_number self }
    {
        match self {
            Refusal::BadSize => 1,
            Refusal::BadStrength => 2,
            Refusal::PayloadLength => 3,
            Refusal::FieldLength => 4,
            Refusal::OutsideShape => 4,
            Refusal::BadCell => 5,
            Refusal::OutOfReach => 6,
            Refusal::BadPadding => 7,
            Refusal::BadForm => 8,
            Refusal::BadSettings => 9,
            Refusal::TooManyErasures => 10,
            Refusal::BadWindow => 11,
            Refusal::BadLevel => 12,
        }
    }
}

// The papers' number of an answer: that of its refusal, 0 where it has none.
pub fn number<T>(answer: &Result<T, Refusal>) -> usize
    ensures { result ≡ number_of answer.now }
{
    match answer {
        Ok(_) => 0,
        Err(why) => why.number(),
    }
}

// The figure of an answer, 0 beside a refusal.
pub fn figure(answer: Result<usize, Refusal>) -> usize
    ensures { result ≡ figure_of answer }
{
    match answer {
        Ok(figure) => figure,
        Err(_) => 0,
    }
}
