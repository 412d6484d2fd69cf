// A word of the sheet, told with its kind and its place.
ghost use Rattle.std.specs.Prelude.{◌≡◌, ◌<◌, length, OnOk};
ghost use Rattle.sheet.specs.Reading.{number_by, number_due_by};
ghost use Rattle.sheet.specs.Words.{kind_of, kind_in, text_of, place_of};

use crate::fault::{At, LineFault, NumberFault};
use crate::names::{FieldName, Keyword, field_of, keyword_of};
use crate::numeral::number_of;

// Text and place stand in each case, so that every case is a whole word, borrowed from the sheet.
/// A part of the sheet.
#[derive(Clone, Copy)]
pub(crate) enum Word<'a> {
    Keyword {
        keyword: Keyword,
        text: &'a [u8],
        at: At,
    },
    Name {
        field: FieldName,
        text: &'a [u8],
        at: At,
    },
    Number {
        value: u16,
        text: &'a [u8],
        at: At,
    },
    Unknown {
        text: &'a [u8],
        at: At,
    },
}

impl<'a> Word<'a> {
    // A number, or else a keyword, or else a field's name.
    #[tactic(auto, unfolding(crate::specs::Words::kind_of))]
    pub(crate) fn new(text: &'a [u8], at: At) -> Word<'a>
        ensures kind { kind_in result ≡ kind_of text.now }
        ensures text { text_of result ≡ text.now }
        ensures place { place_of result ≡ at }
    {
        if let Some(value) = number_of(text) {
            Word::Number { value, text, at }
        } else if let Some(keyword) = keyword_of(text) {
            Word::Keyword { keyword, text, at }
        } else if let Some(field) = field_of(text) {
            Word::Name { field, text, at }
        } else {
            Word::Unknown { text, at }
        }
    }

    pub(crate) fn text(&self) -> &'a [u8]
        ensures { result.now ≡ text_of self.now }
    {
        match self {
            Word::Keyword { text, .. }
            | Word::Name { text, .. }
            | Word::Number { text, .. }
            | Word::Unknown { text, .. } => text,
        }
    }

    pub(crate) fn at(&self) -> At
        ensures { result ≡ place_of self.now }
    {
        match self {
            Word::Keyword { at, .. }
            | Word::Name { at, .. }
            | Word::Number { at, .. }
            | Word::Unknown { at, .. } => *at,
        }
    }

    fn number(&self) -> Result<u16, NumberFault>
        ensures { result ≡ number_by (place_of self.now) (kind_in self.now) }
    {
        match self {
            Word::Number { value, .. } => Ok(*value),
            _ => Err(NumberFault { at: self.at() }),
        }
    }

    // The number that is due here.
    pub(crate) fn number_due(&self) -> Result<u16, LineFault>
        ensures due { result ≡ number_due_by (place_of self.now) (text_of self.now) (kind_in self.now) }
        ensures some { OnOk result (0 < length (text_of self.now)) }
    {
        if self.text().is_empty() {
            return Err(LineFault::BadWord(self.at()));
        }
        Ok(self.number()?)
    }
}
