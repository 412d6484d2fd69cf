// The tail line.
ghost use Rattle.std.specs.Prelude.{◌≡◌, [], MatchResult};
ghost use Rattle.sheet.specs.Steps.{places_left, PlaceHolds, PlaceFails, TailRead, TailFails};
ghost use Rattle.sheet.specs.Views.{noted};

use crate::fault::SheetFault;
use crate::line::{Line, Words};
use crate::lines::Lines;
use crate::places::Places;

// The next word is this place.
fn place_is(words: &mut Words<'_>, place: usize) -> Result<(), SheetFault>
    ensures { MatchResult result (λ _. PlaceHolds words.old place words.new) (λ e. PlaceFails words.old place e) }
{
    let Some(word) = words.next() else {
        return Err(SheetFault::Place(words.at));
    };
    if usize::from(word.number_due()?) != place {
        return Err(SheetFault::Place(word.at()));
    }
    Ok(())
}

// No place is left.
fn no_place(mut words: Words<'_>) -> Result<(), SheetFault>
    ensures { result ≡ places_left words.entry [] }
{
    match words.next() {
        Some(word) => {
            word.number_due()?;
            Err(SheetFault::Place(word.at()))
        }
        None => Ok(()),
    }
}

// The words are these places.
#[tactic(auto, using(crate::proofs::Noted::found_more, crate::proofs::Noted::found_false, crate::proofs::Noted::found_all))]
fn places_are(mut words: Words<'_>, places: &[usize]) -> Result<(), SheetFault>
    ensures { result ≡ places_left words.entry places.now }
{
    for place in places {
        place_is(&mut words, *place)?;
    }
    no_place(words)
}

impl<'a> Lines<'a> {
    // The tail line has the places noted, and nothing follows it.
    pub(crate) fn tail(&self, line: Line<'a>, places: &Places) -> Result<(), SheetFault>
        ensures { MatchResult result (λ _. TailRead line.entry self.now (noted places.now)) (λ e. TailFails line.entry self.now (noted places.now) e) }
    {
        places_are(line.words, places.list.as_slice())?;
        self.end()
    }
}
