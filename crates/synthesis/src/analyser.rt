// The analyser and its calls.
ghost use Rattle.std.specs.Prelude.{◌≡◌, ◌<◌, [], ◌∷◌, ◌++◌, length, IfOk, OnErr, IfSome, IfNone, MatchResult};
ghost use Rattle.field.specs.Meaning.{Meaning};
ghost use Rattle.field.specs.Refusals.{refusal_of};
ghost use Rattle.massey.specs.Steps.{steps};
ghost use Rattle.massey.specs.Theorems.{register_of, other_of, expected as expected_after, Expected};
ghost use Rattle.synthesis.specs.Answers.{ShownOf, other_taps_of, other_answer, OtherWritten, Promised, Rival};
ghost use Rattle.synthesis.specs.Kept.{kept, fed, feed_refusal, trimmed, trim_refusal, room_refusal};
ghost use Rattle.synthesis.specs.Known.{Known};
ghost use Rattle.synthesis.specs.Sound.{Sound, leaves, overwritten};

use crate::progress::MOST_DIGITS;
use crate::rows::Rows;
use crate::shown::Shown;
use crate::state::{ROW_CELLS, State};
use field::{Field, Refusal, is_digit};

/// Reads digits over a field one by one, and has the shortest register for those that it keeps.
// That a call leaves the field as it is, and what its refusal leaves, stands at each: no type can say it of what is lent for writing.
// `Sound` stands at each too: said by the type, it would ask a bound of F.
#[derive(Drop)]
pub struct Analyser<F> {
    field: F,
    state: State,
}

impl<F: Field> Analyser<F> {
    /// An analyser that keeps no digits.
    pub fn new(field: F) -> Analyser<F>
        ensures field { result.field ≡ field }
        ensures kept { kept result.state ≡ [] }
        ensures sound { F.made field → Sound (F.means field) result.state }
    {
        Analyser {
            field,
            state: State::empty(),
        }
    }

    /// Takes the digit s, and answers the discrepancy there and the length of the register that it leaves.
    pub fn feed(&mut self, s: u16) -> Result<(u16, u16), Refusal>
        ensures refused { refusal_of result ≡ feed_refusal (F.means self.old.field).order (kept self.old.state) s }
        ensures field { self.new.field ≡ self.old.field }
        ensures kept { kept self.new.state ≡ fed (F.means self.old.field).order (kept self.old.state) s }
        ensures same { OnErr result (self.new ≡ self.old) }
        ensures sound { F.made self.old.field → Sound (F.means self.old.field) self.old.state → Sound (F.means self.old.field) self.new.state }
        ensures pair { F.made self.old.field → Sound (F.means self.old.field) self.old.state → IfOk result (λ p. (p.0 ≡ leaves (F.means self.old.field) (kept self.old.state) s) × (p.1 ≡ (steps (F.means self.old.field) (kept self.new.state)).l)) }
    {
        if self.state.progress.taken >= MOST_DIGITS {
            return Err(Refusal::TooManyDigits);
        }
        if !is_digit(&self.field, s) {
            return Err(Refusal::NotADigit);
        }
        let discrepancy = self.push(s);
        Ok((discrepancy, self.state.progress.length as u16))
    }

    // Takes the digit s, and answers the discrepancy there. Apart from `feed`, so that its tests are proved apart from the step.
    fn push(&mut self, s: u16) -> u16
        requires { self.old.state.progress.taken < 256 }
        ensures field { self.new.field ≡ self.old.field }
        ensures kept { kept self.new.state ≡ kept self.old.state ++ s ∷ [] }
        ensures sound { F.made self.old.field → s < (F.means self.old.field).order → Sound (F.means self.old.field) self.old.state → Sound (F.means self.old.field) self.new.state }
        ensures discrepancy { F.made self.old.field → Sound (F.means self.old.field) self.old.state → result ≡ leaves (F.means self.old.field) (kept self.old.state) s }
        ensures length { F.made self.old.field → s < (F.means self.old.field).order → Sound (F.means self.old.field) self.old.state → self.new.state.progress.length ≡ (steps (F.means self.old.field) (kept self.new.state)).l }
    {
        let state = &mut self.state;
        state.digits[state.progress.taken] = s;
        let mut spare = [0; ROW_CELLS];
        let mut rows = Rows {
            c: &mut state.c,
            b: &mut state.b,
            spare: &mut spare,
        };
        rows.step(&self.field, &state.digits, &mut state.progress)
    }

    /// The one digit that the register gives next: fed, it would leave no discrepancy.
    pub fn expect(&self) -> u16
        ensures value { Sound (F.means self.now.field) self.now.state → result ≡ expected_after (F.means self.now.field) (kept self.now.state) }
        ensures expected { Sound (F.means self.now.field) self.now.state → Expected (F.means self.now.field) (kept self.now.state) result }
    {
        self.steps_known();
        self.field.negate(self.state.feedback(&self.field))
    }

    /// Writes the taps of the register into the first cells.
    pub fn show(&self, cells: &mut [u16]) -> Result<Shown, Refusal>
        ensures refused { Sound (F.means self.now.field) self.now.state → refusal_of result ≡ room_refusal (steps (F.means self.now.field) (kept self.now.state)).l (length cells.old) }
        ensures same { OnErr result (cells.new ≡ cells.old) }
        ensures shown { Sound (F.means self.now.field) self.now.state → IfOk result (λ t. ShownOf (F.means self.now.field) (kept self.now.state) t × (cells.new ≡ overwritten (register_of (steps (F.means self.now.field) (kept self.now.state))) cells.old)) }
        ensures promised { Sound (F.means self.now.field) self.now.state → Promised (F.means self.now.field) (kept self.now.state) (register_of (steps (F.means self.now.field) (kept self.now.state))) (steps (F.means self.now.field) (kept self.now.state)).count }
    {
        self.steps_known();
        if cells.len() < self.state.progress.length {
            return Err(Refusal::TooFewCells);
        }
        self.state.write_taps(cells);
        Ok(Shown {
            length: self.state.progress.length,
            digits: self.state.progress.taken,
            count: self.state.progress.count,
        })
    }

    /// Writes the taps of another register of the same length, if there is one, and answers the first that differs.
    pub fn other(&self, cells: &mut [u16]) -> Result<Option<usize>, Refusal>
        ensures refused { Sound (F.means self.now.field) self.now.state → refusal_of result ≡ room_refusal (other_taps_of (F.means self.now.field) (kept self.now.state)) (length cells.old) }
        ensures same { MatchResult result (λ o. IfNone o (cells.new ≡ cells.old)) (λ _. cells.new ≡ cells.old) }
        ensures other { Sound (F.means self.now.field) self.now.state → IfOk result (λ o. (o ≡ other_answer (F.means self.now.field) (kept self.now.state)) × OtherWritten (F.means self.now.field) (kept self.now.state) cells.old cells.new o) }
        ensures rival { Sound (F.means self.now.field) self.now.state → IfOk result (λ o. IfSome o (λ j. Rival (F.means self.now.field) (kept self.now.state) (register_of (steps (F.means self.now.field) (kept self.now.state))) j (other_of (F.means self.now.field) (steps (F.means self.now.field) (kept self.now.state))))) }
    {
        self.steps_known();
        if self.state.is_only() {
            return Ok(None);
        }
        if cells.len() < self.state.progress.length {
            return Err(Refusal::TooFewCells);
        }
        self.state.write_joined(&self.field, cells);
        Ok(Some(self.state.progress.shift))
    }

    // How many cells `other` writes.
    pub(crate) fn other_taps(&self) -> usize
        ensures { Sound (F.means self.now.field) self.now.state → result ≡ other_taps_of (F.means self.now.field) (kept self.now.state) }
    {
        self.steps_known();
        if self.state.is_only() {
            0
        } else {
            self.state.progress.length
        }
    }

    // A caller knows from the call on what the cells say of the steps over the digits kept, and what holds of these.
    fn steps_known(&self)
        ensures { Sound (F.means self.now.field) self.now.state → Known (F.means self.now.field) self.now.state }
    {}

    /// Keeps the first t digits alone: runs the steps again over these.
    pub fn trim(&mut self, t: usize) -> Result<(), Refusal>
        ensures refused { refusal_of result ≡ trim_refusal (kept self.old.state) t }
        ensures field { self.new.field ≡ self.old.field }
        ensures kept { kept self.new.state ≡ trimmed (kept self.old.state) t }
        ensures same { OnErr result (self.new ≡ self.old) }
        ensures sound { F.made self.old.field → Sound (F.means self.old.field) self.old.state → Sound (F.means self.old.field) self.new.state }
    {
        if t > self.state.progress.taken {
            return Err(Refusal::PastTheDigits);
        }
        let state = &mut self.state;
        let mut spare = [0; ROW_CELLS];
        let mut rows = Rows {
            c: &mut state.c,
            b: &mut state.b,
            spare: &mut spare,
        };
        state.progress = rows.run(&self.field, &state.digits[..t]);
        Ok(())
    }
}
