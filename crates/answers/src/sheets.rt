// Reads and marks a sheet in one pass.
ghost use Rattle.std.specs.Prelude.{IfErr, MatchResult};
ghost use Rattle.sheet.specs.Faults.{fault_of};
ghost use Rattle.answers.specs.Answers.{GoodSheet, FaultySheet, SheetAnswered, OneFault};

use crate::answer::Answers;
use crate::fields::answer_task;
use faults::faults_are_exact;
use sheet::{Fault, Places, Reader, SheetFault, Task};
use synthesis::MOST_DIGITS;

// The cells that marking needs at most.
const SCRATCH: usize = 3 * (MOST_DIGITS + 1);

#[tactic(auto, using(crate::proofs::Steps::so_far_none))]
fn answer_tasks(sheet: &[u8]) -> Result<Answers, SheetFault>
    ensures { MatchResult result (λ list. GoodSheet sheet.now list) (λ e. FaultySheet sheet.now (fault_of e)) }
{
    let mut reader = Reader::open(sheet);
    let mut places = Places::new();
    let mut task = Task::new();
    let mut scratch = [0; SCRATCH];
    let mut answers = Answers::new();
    while reader.read_task(&mut places, &mut task)? {
        answers.push(answer_task(&task, &mut scratch));
    }
    Ok(answers)
}

/// The answers to the tasks of a sheet, or the sheet's first fault.
#[tactic(auto, using(crate::proofs::Steps::one_fault))]
pub fn answer_sheet(sheet: &[u8]) -> Result<Answers, Fault>
    ensures answered { SheetAnswered sheet.now result }
    ensures fault { IfErr result (λ f. OneFault sheet.now f) }
{
    faults_are_exact(sheet);
    answer_tasks(sheet).map_err(Fault::from)
}
