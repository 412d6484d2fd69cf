// Reads a sheet task by task.
ghost use Rattle.std.specs.Prelude.{◌+◌, ◌≤◌, length};

use crate::exact::reading_is_exact;
use crate::fault::{At, SheetFault};
use crate::line::Line;
use crate::lines::{LONGEST, Lines};
use crate::names::Keyword;
use crate::places::Places;
use crate::task::Task;

/// Reads a sheet from a place on, where a line begins. The line's number counts from 1.
// Place and line stand apart here, the form that docs/DECISIONS.md names for a reader; elsewhere they are an `At`.
#[derive(Drop)]
pub struct Reader<'a> {
    sheet: &'a [u8],
    place: usize,
    line: usize,
    ghost inside: { place ≤ length sheet.now },
    ghost counted: { line ≤ place + 1 },
}

impl<'a> Reader<'a> {
    ghost use Rattle.std.specs.Prelude.{◌≡◌, IfNone, IfOk, OnErr, MatchBool, MatchOption, MatchResult};
    ghost use Rattle.sheet.specs.Calls.{Opens, TaskDue, NextTask, NoTask, Refuses};
    ghost use Rattle.sheet.specs.Views.{entry_of, empty_entry, noted};

    /// A reader at the sheet's first byte.
    pub fn open(sheet: &'a [u8]) -> Reader<'a>
        ensures { Opens sheet.now result }
    {
        reading_is_exact(sheet);
        Reader {
            sheet,
            place: 0,
            line: 1,
        }
    }

    /// The next task, whose place is noted; or nothing, where the tail and the end of the sheet come next.
    /// The reader moves past a task and past nothing else. Each task has lists of its own, 64 kB in all; `read_task` uses
    /// those of one task again.
    pub fn next_task(&mut self, places: &mut Places) -> Result<Option<Task>, SheetFault>
        ensures sheet { self.new.sheet ≡ self.old.sheet }
        ensures read { MatchResult result
            (λ next. MatchOption next (NoTask self.old (noted places.old) (noted places.new))
            (λ t. NextTask self.old (noted places.old) (entry_of t) self.new (noted places.new)))
            (λ e. Refuses self.old (noted places.old) e (noted places.new)) }
        ensures end_stays { IfOk result (λ next. IfNone next (self.new ≡ self.old)) }
        ensures fault_stays { OnErr result (self.new ≡ self.old) }
    {
        let mut task = Task::new();
        if self.read_task(places, &mut task)? {
            Ok(Some(task))
        } else {
            Ok(None)
        }
    }

    /// Reads the next task into the one handed in, notes its place and answers `true`; or answers `false` and leaves the
    /// task as it was, where the tail and the end of the sheet come next. A fault leaves a task with no numbers.
    #[tactic(auto, using(crate::proofs::Noted::places_push))]
    pub fn read_task(&mut self, places: &mut Places, task: &mut Task) -> Result<bool, SheetFault>
        ensures sheet { self.new.sheet ≡ self.old.sheet }
        ensures read { MatchResult result
            (λ more. MatchBool more (NextTask self.old (noted places.old) (entry_of task.new) self.new (noted places.new))
            (NoTask self.old (noted places.old) (noted places.new)))
            (λ e. Refuses self.old (noted places.old) e (noted places.new)) }
        ensures end_stays { IfOk result (λ more. MatchBool more (Unit {0}) ((self.new ≡ self.old) × (task.new ≡ task.old))) }
        ensures fault_stays { OnErr result (self.new ≡ self.old) }
        ensures fault_empties { OnErr result (entry_of task.new ≡ empty_entry) }
    {
        let (mut lines, first) = match self.task_due(places) {
            Ok(Some(due)) => due,
            Ok(None) => return Ok(false),
            Err(fault) => {
                task.reset();
                return Err(fault);
            }
        };
        if let Err(fault) = lines.task(first, places, task) {
            task.reset();
            return Err(fault);
        }
        places.list.push(task.byte);
        self.place = lines.at.byte;
        self.line = lines.at.line;
        Ok(true)
    }

    // The first line of the next task and the lines behind it; or nothing, where the tail and the end of the sheet come next.
    fn task_due(&self, places: &Places) -> Result<Option<(Lines<'a>, Line<'a>)>, SheetFault>
        ensures { MatchResult result
            (λ due. MatchOption due (NoTask self.now (noted places.now) (noted places.now)) (λ d. TaskDue self.now d.0 d.1))
            (λ e. Refuses self.now (noted places.now) e (noted places.now)) }
    {
        if self.sheet.len() > LONGEST {
            return Err(SheetFault::Order(At { line: 1, byte: 0 }));
        }
        let mut lines = Lines {
            sheet: self.sheet,
            at: At {
                line: self.line,
                byte: self.place,
            },
        };
        let first = lines.next_line()?;
        if first.keyword == Keyword::Tail {
            lines.tail(first, places)?;
            Ok(None)
        } else {
            Ok(Some((lines, first)))
        }
    }
}
