// The better of two claims.
ghost use Rattle.std.specs.Prelude.{◌≡◌, length, Ok, Err};
ghost use Rattle.field.specs.Meaning.{Meaning};
ghost use Rattle.field.specs.Refusals.{refusal_of};
ghost use Rattle.synthesis.specs.Scratch.{scratch_cells_for, cleared};
ghost use Rattle.marking.specs.Marks.{beats as beats_of, Better, better_refusal};

use crate::marks::{judge, test_claim};
use crate::verdict::Verdict;
use field::{Field, Refusal};
use synthesis::{find_shortest, has_room};

impl Verdict {
    // Whether a claim with this verdict counts before one with the other. No order: verdicts that differ may tie.
    fn beats(self, other: Verdict) -> bool
        ensures { result ≡ beats_of self other }
    {
        match (self, other) {
            (Verdict::Wrong(_), _) => false,
            (_, Verdict::Wrong(_)) => true,
            (Verdict::Long(excess), Verdict::Long(more)) => excess < more,
            (Verdict::Only | Verdict::Several, Verdict::Long(_)) => true,
            (_, Verdict::Only | Verdict::Several) => false,
        }
    }
}

/// The taps of the one of two claims on the same digits that counts: the second where its verdict beats the first's.
#[tactic(auto, using(crate::proofs::Judging::better))]
pub fn better<'a, F: Field>(
    field: &F,
    digits: &[u16],
    first: &'a [u16],
    second: &'a [u16],
    scratch: &mut [u16],
) -> Result<&'a [u16], Refusal>
    ensures refused { refusal_of result ≡ better_refusal (F.means field.now) digits.now first.now second.now (length scratch.old) }
    ensures chosen { elim result [ Ok t ↦ (F.made field.now → Better (F.means field.now) digits.now first.now second.now t.now) | Err e ↦ Unit {0} ] }
    ensures scratch { elim result [ Ok t ↦ scratch.new ≡ cleared (scratch_cells_for (length digits.now)) scratch.old | Err e ↦ scratch.new ≡ scratch.old ] }
{
    let broken = test_claim(field, digits, first)?;
    if !has_room(digits.len(), scratch.len()) {
        return Err(Refusal::TooFewCells);
    }
    let other = test_claim(field, digits, second)?;
    let shortest = find_shortest(field, digits, scratch)?;
    let judged = judge(digits, first, broken, shortest);
    let rival = judge(digits, second, other, shortest);
    Ok(if rival.beats(judged) { second } else { first })
}
