// A task of the sheet.
ghost use Rattle.std.specs.Prelude.{◌≡◌};
ghost use Rattle.sheet.specs.Views.{entry_of, empty_entry};

use crate::names::FieldName;
use arrayvec::ArrayVec;

// No line of a sheet has more numbers: each takes two of its 32,768 bytes.
pub(crate) const MOST_NUMBERS: usize = 16384;

/// The numbers of a line, from its first to its last.
pub type Numbers = ArrayVec<u16, MOST_NUMBERS>;

#[derive(Drop)]
pub struct Task {
    /// Where its first line begins.
    pub byte: usize,
    pub field: FieldName,
    pub digits: Numbers,
    pub claim: Numbers,
}

impl Task {
    /// A task with no numbers, to be read into.
    pub fn new() -> Task
        ensures { entry_of result ≡ empty_entry }
    {
        Task {
            byte: 0,
            field: FieldName::default(),
            digits: Numbers::new(),
            claim: Numbers::new(),
        }
    }

    // Holds no numbers again, as one that is new.
    pub(crate) fn reset(&mut self)
        ensures { entry_of self.new ≡ empty_entry }
    {
        self.byte = 0;
        self.field = FieldName::default();
        self.digits.clear();
        self.claim.clear();
    }
}
