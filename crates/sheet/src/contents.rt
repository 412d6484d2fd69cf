// What the rest of a line holds: numbers, or one field name.
ghost use Rattle.std.specs.Prelude.{◌≡◌, [], Ok, Err, MatchResult};
ghost use Rattle.sheet.specs.Reading.{numbers_after, field_after};
ghost use Rattle.sheet.specs.Steps.{words_left};

use crate::fault::LineFault;
use crate::line::Words;
use crate::names::FieldName;
use crate::task::Numbers;
use crate::word::Word;

// Puts the numbers that the words are into the list, in place of what it held.
// Handed back by value, the list's 32,768 bytes are copied at each step up to the task: three times slower.
pub(crate) fn numbers(words: Words<'_>, list: &mut Numbers) -> Result<(), LineFault>
    ensures { MatchResult result
        (λ _. numbers_after words.entry.at.line words.entry.at.byte [] (words_left words.entry) ≡ Ok list.new.items)
        (λ e. numbers_after words.entry.at.line words.entry.at.byte [] (words_left words.entry) ≡ Err e) }
{
    list.clear();
    for word in words {
        list.push(word.number_due()?);
    }
    Ok(())
}

// The one field name.
pub(crate) fn field_name(mut words: Words<'_>) -> Result<FieldName, LineFault>
    ensures { result ≡ field_after words.entry.at.line words.entry.at.byte (words_left words.entry) }
{
    let Some(word) = words.next() else {
        return Err(LineFault::BadWord(words.at));
    };
    let Word::Name { field, .. } = word else {
        return Err(LineFault::BadWord(word.at()));
    };
    match words.next() {
        Some(second) => Err(LineFault::BadWord(second.at())),
        None => Ok(field),
    }
}
