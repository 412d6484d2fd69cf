// Takes words off a line.
ghost use Rattle.std.specs.Prelude.{◌≡◌, ◌+◌, ◌≤◌, ◌∷◌, ◌++◌, length, Err, MatchOption, MatchResult, ◌==◌};
ghost use Rattle.std.specs.Iterator.{at_most};
ghost use Rattle.std.specs.List.{position};
ghost use Rattle.sheet.specs.Reading.{opened};
ghost use Rattle.sheet.specs.Split.{split, after};
ghost use Rattle.sheet.specs.Steps.{NextWord, NoWord, LineOpened};

use crate::fault::{At, LineFault};
use crate::line::{Line, Words};
use crate::word::Word;

// Where the first `stop` stands.
fn find(text: &[u8], stop: u8) -> Option<usize>
    ensures { result ≡ position (λ b. b == stop) text.now }
{
    text.iter().position(|b| *b == stop)
}

// The text before the first `stop`, and the rest from that on.
#[tactic(auto, using(crate::proofs::Splits::cut))]
pub(crate) fn cut(text: &[u8], stop: u8) -> (&[u8], &[u8])
    ensures pieces { split stop text.now ≡ result.0.now ∷ after stop result.1.now }
    ensures whole { text.now ≡ result.0.now ++ result.1.now }
{
    text.split_at(find(text, stop).unwrap_or(text.len()))
}

impl<'a> Iterator for Words<'a> {
    type Item = Word<'a>;

    ghost next_gives = { λ v next w. MatchOption next (NoWord v w) (λ word. NextWord v word w) };

    ghost remaining = { λ v. at_most (length v.rest.now) };

    fn next(&mut self) -> Option<Word<'a>> {
        let (_, words) = self.rest.split_first()?;
        let (text, rest) = cut(words, b' ');
        let at = self.at.along(1);
        *self = Words {
            rest,
            at: at.along(text.len()),
        };
        Some(Word::new(text, at))
    }
}

// A line from its first word on, which has to be a keyword.
pub(crate) fn open_line(text: &[u8], at: At) -> Result<Line<'_>, LineFault>
    requires { at.byte + length text.now ≤ 32768 }
    ensures { MatchResult result (λ l. LineOpened text.now at l) (λ e. opened at.line at.byte (split 32 text.now) ≡ Err e) }
{
    let (first, rest) = cut(text, b' ');
    let Word::Keyword { keyword, .. } = Word::new(first, at) else {
        return Err(LineFault::BadWord(at));
    };
    let words = Words {
        rest,
        at: at.along(first.len()),
    };
    Ok(Line { keyword, at, words })
}
