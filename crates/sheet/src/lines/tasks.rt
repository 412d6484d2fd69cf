// The lines of a task.
ghost use Rattle.std.specs.Prelude.{◌≡◌, ◌<◌, ◌↔◌, length, IsOk, IfErr, MatchResult};
ghost use Rattle.sheet.specs.Steps.{NumbersRead, NumbersFail, OpeningRead, TaskRead, TaskFails};
ghost use Rattle.sheet.specs.declared.fault.SheetFault.TheVariants.{Order};
ghost use Rattle.sheet.specs.Views.{entry_of, noted};

use crate::contents::{field_name, numbers};
use crate::fault::{At, SheetFault};
use crate::line::Line;
use crate::lines::Lines;
use crate::names::{FieldName, Keyword};
use crate::places::Places;
use crate::task::{Numbers, Task};

// One more task may begin at this place.
fn room(places: &Places, at: At) -> Result<(), SheetFault>
    ensures ok { IsOk result ↔ (length (noted places.now) < 32) }
    ensures err { IfErr result (λ e. e ≡ Order at) }
{
    if places.list.is_full() {
        return Err(SheetFault::Order(at));
    }
    Ok(())
}

impl<'a> Lines<'a> {
    // The numbers of the line that is due, which begins with this keyword.
    fn numbers_due(&mut self, due: Keyword, list: &mut Numbers) -> Result<(), SheetFault>
        ensures { MatchResult result (λ _. NumbersRead due self.old list.new.items self.new) (λ e. NumbersFail due self.old e) }
    {
        let line = self.next_line()?;
        if line.keyword != due {
            return Err(SheetFault::Order(line.at));
        }
        Ok(numbers(line.words, list)?)
    }

    // The field and the digits of the task that the line begins.
    #[tactic(auto, using(crate::proofs::Noted::length_places))]
    fn opening(
        &mut self,
        first: Line<'a>,
        places: &Places,
        digits: &mut Numbers,
    ) -> Result<FieldName, SheetFault>
        ensures { MatchResult result (λ f. OpeningRead first.entry self.old (noted places.now) f digits.new.items self.new)
            (λ e. TaskFails first.entry self.old (noted places.now) e) }
    {
        match first.keyword {
            Keyword::Field => {
                room(places, first.at)?;
                let field = field_name(first.words)?;
                self.numbers_due(Keyword::Digits, digits)?;
                Ok(field)
            }
            Keyword::Digits => {
                room(places, first.at)?;
                numbers(first.words, digits)?;
                Ok(FieldName::default())
            }
            Keyword::Claim | Keyword::Tail => Err(SheetFault::Order(first.at)),
        }
    }

    // Reads the task that the line begins into the one handed in, whose lists lie there already.
    pub(crate) fn task(
        &mut self,
        first: Line<'a>,
        places: &Places,
        task: &mut Task,
    ) -> Result<(), SheetFault>
        ensures { MatchResult result (λ _. TaskRead first.entry self.old (noted places.now) (entry_of task.new) self.new)
            (λ e. TaskFails first.entry self.old (noted places.now) e) }
    {
        task.byte = first.at.byte;
        task.field = self.opening(first, places, &mut task.digits)?;
        self.numbers_due(Keyword::Claim, &mut task.claim)
    }
}
