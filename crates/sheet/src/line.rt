// A line of the sheet.
ghost use Rattle.std.specs.Prelude.{◌≡◌, ◌+◌, ◌≤◌, length};

use crate::fault::At;
use crate::names::Keyword;

/// What is left of a line behind a word, which ended at `at`: nothing, or a blank and more words.
#[derive(Drop)]
pub(crate) struct Words<'a> {
    pub(crate) rest: &'a [u8],
    pub(crate) at: At,
    ghost fits: { at.byte + length rest.now ≤ 32768 },
}

/// A line with its first word known.
#[derive(Drop)]
pub(crate) struct Line<'a> {
    pub(crate) keyword: Keyword,
    pub(crate) at: At,
    pub(crate) words: Words<'a>,
    ghost one_line: { words.at.line ≡ at.line },
}
