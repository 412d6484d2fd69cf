// Why a call was refused.
ghost use Rattle.std.specs.Prelude.{◌≡◌};
ghost use Rattle.field.specs.Refusals.{refusal_number};

#[derive(Clone, Copy, Debug, PartialEq, Eq)]
pub enum Refusal {
    NotADigit = 1,
    TooManyDigits = 2,
    TooFewCells = 3,
    PastTheDigits = 4,
    StartLength = 5,
    TooManyTaps = 6,
    RowsDiffer = 7,
    NoSuchField = 12,
}

impl Refusal {
    // A method and no `From`: a conversion would not say that this is the rules' number.
    pub fn number(self) -> u8
        ensures { result ≡ refusal_number self }
    {
        self as u8
    }
}
