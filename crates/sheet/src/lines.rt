// The lines of the sheet, from first to last.
ghost use Rattle.std.specs.Prelude.{◌+◌, ◌≤◌, length};

use crate::fault::{At, SheetFault};
use crate::line::Line;
use crate::scan::{cut, open_line};

mod tail;
mod tasks;

// A sheet has at most this many bytes.
pub(crate) const LONGEST: usize = 32768;

/// The lines of a sheet that is not too long, from a place on.
#[derive(Drop)]
pub(crate) struct Lines<'a> {
    pub(crate) sheet: &'a [u8],
    pub(crate) at: At,
    ghost inside: { at.byte ≤ length sheet.now },
    ghost counted: { at.line ≤ at.byte + 1 },
    ghost short: { length sheet.now ≤ 32768 },
}

impl<'a> Lines<'a> {
    ghost use Rattle.std.specs.Prelude.{◌≡◌, MatchResult};
    ghost use Rattle.sheet.specs.Steps.{LineRead, LineFails};
    ghost use Rattle.sheet.specs.Views.{ending};

    // The next line, opened.
    pub(crate) fn next_line(&mut self) -> Result<Line<'a>, SheetFault>
        ensures { MatchResult result (λ l. LineRead self.old l self.new) (λ e. LineFails self.old e) }
    {
        let at = self.at;
        let (text, behind) = cut(&self.sheet[at.byte..], b'\n');
        if behind.is_empty() {
            return Err(SheetFault::Order(at));
        }
        self.at = At {
            line: at.line + 1,
            byte: at.byte + text.len() + 1,
        };
        Ok(open_line(text, at)?)
    }

    // Nothing follows.
    #[tactic(auto, using(crate::proofs::Cuts::ends_at, crate::proofs::Cuts::goes_on_at))]
    fn end(&self) -> Result<(), SheetFault>
        ensures { result ≡ ending self.now }
    {
        if self.at.byte < self.sheet.len() {
            return Err(SheetFault::Order(self.at));
        }
        Ok(())
    }
}
