// What is said of a claim.
ghost use Rattle.std.specs.Prelude.{◌≡◌, Some};
ghost use Rattle.marking.specs.Verdicts.{verdict_number, detail as detail_of, verdict_word_of};

use std::fmt;

/// Breaks the rule at this place; longer than need be by this much; the only shortest register; one of several.
#[derive(Clone, Copy, Debug, PartialEq, Eq)]
pub enum Verdict {
    Wrong(usize),
    Long(usize),
    Only,
    Several,
}

impl Verdict {
    // Cases that hold values have no number to cast.
    pub fn number(self) -> u8
        ensures { result ≡ verdict_number self }
    {
        match self {
            Verdict::Wrong(_) => 1,
            Verdict::Long(_) => 2,
            Verdict::Only => 3,
            Verdict::Several => 4,
        }
    }

    /// The broken place, the excess, or 0.
    // A method: no conversion says which of these it is.
    pub fn detail(self) -> usize
        ensures { result ≡ detail_of self }
    {
        match self {
            Verdict::Wrong(place) => place,
            Verdict::Long(excess) => excess,
            Verdict::Only | Verdict::Several => 0,
        }
    }
}

// The word for it, without its detail.
impl fmt::Display for Verdict {
    ghost output = { λ v. Some (verdict_word_of v) };

    fn fmt<W: fmt::Write>(&self, f: &mut fmt::Formatter<W>) -> fmt::Result {
        f.write_str(match self {
            Verdict::Wrong(_) => "wrong",
            Verdict::Long(_) => "long",
            Verdict::Only => "only",
            Verdict::Several => "several",
        })
    }
}

/// A verdict, with the shortest length and the count of multiplications that finding it takes.
#[derive(Clone, Copy, Debug, PartialEq, Eq)]
pub struct Mark {
    pub verdict: Verdict,
    pub length: usize,
    pub count: u32,
}
