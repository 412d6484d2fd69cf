// The answers to the tasks of a sheet.
ghost use Rattle.std.specs.Prelude.{◌≡◌, ◌<◌, ◌≤◌, [], ◌∷◌, ◌++◌, length};

use field::Refusal;
use marking::Mark;
use sheet::MOST_TASKS;
use std::marker::Model;

/// The mark of a task, or why marking refuses it.
pub type Answer = Result<Mark, Refusal>;

/// One answer for each task, in their order.
// Fixed memory, with no library list: `ArrayVec` fills its free places with a default, which an answer has none of.
#[derive(Drop)]
pub struct Answers {
    cells: [Answer; MOST_TASKS],
    count: usize,
}

impl Model for Answers {
    ghost use Rattle.std.specs.Prelude.{◌≤◌, List, Result, take};
    ghost use Rattle.field.specs.declared.refusal.Refusal.{Refusal};
    ghost use Rattle.marking.specs.declared.verdict.Mark.{Mark};

    ghost Value = { List (Result Mark Refusal) };

    ghost view = { λ a. take a.count a.cells };

    ghost invariant = { λ a. a.count ≤ 32 };
}

impl Answers {
    pub(crate) fn new() -> Answers
        ensures { result ≡ [] }
    {
        Answers {
            cells: [Err(Refusal::NotADigit); MOST_TASKS],
            count: 0,
        }
    }

    pub(crate) fn push(&mut self, answer: Answer)
        requires { length self.old < 32 }
        ensures { self.new ≡ self.old ++ answer ∷ [] }
    {
        self.cells[self.count] = answer;
        self.count += 1;
    }

    pub fn as_slice(&self) -> &[Answer]
        ensures value { result.now ≡ self.now }
        ensures fits { length result.now ≤ 32 }
    {
        &self.cells[..self.count]
    }
}
