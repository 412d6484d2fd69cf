// Whole runs of calls.
ghost use Rattle.std.specs.Prelude.{◌≡◌, [], length};
ghost use Rattle.field.specs.Meaning.{Meaning};
ghost use Rattle.field.specs.Refusals.{refusal_of};
ghost use Rattle.synthesis.specs.Kept.{kept};
ghost use Rattle.synthesis.specs.Runs.{called, performed, run_refusal, FoundOr};
ghost use Rattle.synthesis.specs.Sound.{Sound};

use crate::analyser::Analyser;
use crate::call::Call;
use crate::progress::MOST_DIGITS;
use crate::report::Report;
use field::{Field, Refusal};

impl<F: Field> Analyser<F> {
    // Makes a call, whatever it answers.
    fn make(&mut self, call: Call, cells: &mut [u16])
        ensures field { self.new.field ≡ self.old.field }
        ensures kept { kept self.new.state ≡ called (F.means self.old.field).order (kept self.old.state) call }
        ensures sound { F.made self.old.field → Sound (F.means self.old.field) self.old.state → Sound (F.means self.old.field) self.new.state }
    {
        match call {
            Call::Feed(s) => {
                let _ = self.feed(s);
            }
            Call::Expect => {
                let _ = self.expect();
            }
            Call::Show => {
                let _ = self.show(cells);
            }
            Call::Other => {
                let _ = self.other(cells);
            }
            Call::Trim(t) => {
                let _ = self.trim(t);
            }
        }
    }

    fn perform(&mut self, calls: &[Call], cells: &mut [u16])
        ensures field { self.new.field ≡ self.old.field }
        ensures kept { kept self.new.state ≡ performed (F.means self.old.field).order (kept self.old.state) calls.now }
        ensures sound { F.made self.old.field → Sound (F.means self.old.field) self.old.state → Sound (F.means self.old.field) self.new.state }
    {
        for call in calls {
            self.make(*call, cells);
        }
    }

    fn report(&self, cells: &mut [u16], others: &mut [u16]) -> Result<Report, Refusal>
        ensures refused { Sound (F.means self.now.field) self.now.state → refusal_of result ≡ run_refusal (F.means self.now.field) (kept self.now.state) (length cells.old) (length others.old) }
        ensures found { Sound (F.means self.now.field) self.now.state → FoundOr (F.means self.now.field) (kept self.now.state) cells.old cells.new others.old others.new result }
    {
        // tested first, since a refusal leaves all cells as they were
        if others.len() < self.other_taps() {
            return Err(Refusal::TooFewCells);
        }
        let shown = self.show(cells)?;
        let other = self.other(others)?;
        Ok(Report { shown, other })
    }
}

/// Makes an analyser, makes the calls whatever they answer, and shows its register and the other one.
pub fn run_calls<F: Field + Drop>(
    field: F,
    calls: &[Call],
    cells: &mut [u16],
    others: &mut [u16],
) -> Result<Report, Refusal>
    ensures refused { F.made field → refusal_of result ≡ run_refusal (F.means field) (performed (F.means field).order [] calls.now) (length cells.old) (length others.old) }
    ensures found { F.made field → FoundOr (F.means field) (performed (F.means field).order [] calls.now) cells.old cells.new others.old others.new result }
{
    let mut a = Analyser::new(field);
    let mut spare = [0; MOST_DIGITS];
    a.perform(calls, &mut spare);
    a.report(cells, others)
}
