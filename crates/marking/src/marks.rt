// Marking a claim.
ghost use Rattle.std.specs.Prelude.{◌≡◌, length, Ok, Err};
ghost use Rattle.field.specs.Meaning.{Meaning};
ghost use Rattle.field.specs.Refusals.{refusal_of};
ghost use Rattle.synthesis.specs.Scratch.{scratch_cells_for, cleared};
ghost use Rattle.marking.specs.Marks.{Tested, Marked, DecidedBy, OneVerdict, claim_refusal, mark_refusal};

use crate::verdict::{Mark, Verdict};
use field::{Field, Refusal};
use register::{Register, generates};
use synthesis::{MOST_DIGITS, Shortest, find_shortest};

// The verdict on a claim, by the first place that it breaks and the length of a shortest register.
pub(crate) fn judge(
    digits: &[u16],
    claim: &[u16],
    broken: Option<usize>,
    shortest: Shortest,
) -> Verdict
    ensures { DecidedBy (length claim.now) shortest.length (length digits.now) broken result }
{
    match broken {
        Some(place) => Verdict::Wrong(place),
        None if claim.len() > shortest.length => Verdict::Long(claim.len() - shortest.length),
        None if 2 * shortest.length <= digits.len() => Verdict::Only,
        None => Verdict::Several,
    }
}

// The first broken place of a claim that marking does not refuse.
pub(crate) fn test_claim<F: Field>(
    field: &F,
    digits: &[u16],
    claim: &[u16],
) -> Result<Option<usize>, Refusal>
    ensures refused { refusal_of result ≡ claim_refusal (F.means field.now) digits.now claim.now }
    ensures tested { elim result [ Ok broken ↦ Tested (F.means field.now) digits.now claim.now broken | Err e ↦ Unit {0} ] }
{
    let register = Register::try_from(claim)?;
    if digits.len() > MOST_DIGITS {
        return Err(Refusal::TooManyDigits);
    }
    generates(field, &register, digits)
}

/// Marks the claim of these taps on the digits. The rows of the steps lie in the scratch, of which the cells used end as 0.
#[tactic(auto, using(crate::proofs::Judging::judged, crate::proofs::Judging::shortest_length_of))]
pub fn mark_claim<F: Field>(
    field: &F,
    digits: &[u16],
    claim: &[u16],
    scratch: &mut [u16],
) -> Result<Mark, Refusal>
    ensures refused { refusal_of result ≡ mark_refusal (F.means field.now) digits.now claim.now (length scratch.old) }
    ensures marked { elim result [ Ok k ↦ (F.made field.now → Marked (F.means field.now) digits.now claim.now k) | Err e ↦ Unit {0} ] }
    ensures scratch { elim result [ Ok k ↦ scratch.new ≡ cleared (scratch_cells_for (length digits.now)) scratch.old | Err e ↦ scratch.new ≡ scratch.old ] }
{
    let broken = test_claim(field, digits, claim)?;
    let shortest = find_shortest(field, digits, scratch)?;
    Ok(Mark {
        verdict: judge(digits, claim, broken, shortest),
        length: shortest.length,
        count: shortest.count,
    })
}

/// No claim has two verdicts, so each verdict is given exactly where it holds.
pub fn one_verdict()
    ensures { OneVerdict }
{}
