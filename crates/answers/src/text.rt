// What is written of the answers.
ghost use Rattle.std.specs.Prelude.{◌≡◌, Some};
ghost use Rattle.std.specs.Fmt.{DisplaysOnOk};
ghost use Rattle.answers.specs.Text.{line_text, tasks_text};

use crate::answer::{Answer, Answers};
use std::fmt;

/// A line of output: the answer to a task with the task's number.
#[derive(Clone, Copy)]
pub struct Line {
    pub number: usize,
    pub answer: Answer,
}

impl fmt::Display for Line {
    ghost output = { λ l. Some (line_text l.number l.answer) };

    fn fmt<W: fmt::Write>(&self, f: &mut fmt::Formatter<W>) -> fmt::Result {
        let number = self.number;
        match self.answer {
            Ok(mark) => {
                let verdict = mark.verdict;
                let detail = verdict.detail();
                write!(
                    f,
                    "{number} {verdict} {} {} {detail}",
                    mark.length, mark.count
                )
            }
            Err(refusal) => {
                let refusal = refusal.number();
                write!(f, "{number} refused {refusal} 0 0")
            }
        }
    }
}

// Writes a line for each task, the first of them task 1.
fn write_tasks<W: fmt::Write>(answers: &[Answer], f: &mut fmt::Formatter<W>) -> fmt::Result
    ensures { DisplaysOnOk W.write_str_gives f.old result (Some (tasks_text 1 answers.now)) f.new }
{
    for (i, answer) in answers.iter().enumerate() {
        let line = Line {
            number: i + 1,
            answer: *answer,
        };
        writeln!(f, "{line}")?;
    }
    Ok(())
}

impl fmt::Display for Answers {
    ghost output = { λ a. Some (tasks_text 1 a) };

    fn fmt<W: fmt::Write>(&self, f: &mut fmt::Formatter<W>) -> fmt::Result {
        write_tasks(self.as_slice(), f)
    }
}
