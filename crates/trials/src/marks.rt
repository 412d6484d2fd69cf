// Mark and better: verdicts, edges and what is left in the scratch.
use crate::fields::{five, table, two};
use field::{Field, Refusal};
use marking::{Mark, Verdict, better, mark_claim};
use std::process::Abort;
use std::test::Fail;

fn marked<F: Field>(
    rt: &impl Abort,
    field: &F,
    digits: &[u16],
    claim: &[u16],
    verdict: Verdict,
    length: usize,
    count: u32,
) {
    let expected = Mark {
        verdict,
        length,
        count,
    };
    assert_eq!(rt;
        mark_claim(field, digits, claim, &mut [7; 15]),
        Ok(expected)
    );
}

const ALTERNATING: [u16; 4] = [0, 0, 1, 1];

// The only register with a key's taps is not the only right answer, and the degree is not the length.
#[test]
fn verdicts(rt: HostRuntime) -> Result<(), Fail> {
    let bits = two()?;
    let several = Verdict::Several;
    marked(&rt, &bits, &ALTERNATING, &[1, 0, 1], several, 3, 9);
    marked(&rt, &bits, &ALTERNATING, &[1, 0, 0], several, 3, 9);
    marked(&rt, &bits, &ALTERNATING, &[1], Verdict::Wrong(3), 3, 9);
    marked(&rt, &bits, &ALTERNATING, &[0; 4], Verdict::Long(1), 3, 9);
    marked(&rt, &five()?, &[1, 3], &[2], Verdict::Only, 1, 3);
    marked(&rt, &five()?, &[1, 3], &[1], Verdict::Wrong(2), 1, 3);
    marked(&rt, &table()?, &[1, 2, 4], &[2], Verdict::Only, 1, 4);
    marked(&rt, &bits, &[], &[], Verdict::Only, 0, 0);
    Ok(())
}

#[test]
fn four_digits_take_15_cells(rt: HostRuntime) -> Result<(), Fail> {
    let mut scratch = [7; 16];
    assert_eq!(rt;
        mark_claim(&two()?, &ALTERNATING, &[1], &mut scratch[0..14]),
        Err(Refusal::TooFewCells)
    );
    assert!(rt; scratch == [7; 16]);
    assert!(rt; mark_claim(&two()?, &ALTERNATING, &[1], &mut scratch).is_ok());
    assert!(rt; scratch == [0, 0, 0, 0, 0, 0, 0, 0, 0, 0, 0, 0, 0, 0, 0, 7]);
    Ok(())
}

#[test]
fn refusals_in_their_order(rt: HostRuntime) -> Result<(), Fail> {
    let mut none = [0u16; 0];
    assert_eq!(rt;
        mark_claim(&two()?, &[2; 257], &[2; 257], &mut none),
        Err(Refusal::TooManyTaps)
    );
    assert_eq!(rt;
        mark_claim(&two()?, &[2; 257], &[2; 256], &mut none),
        Err(Refusal::TooManyDigits)
    );
    assert_eq!(rt;
        mark_claim(&two()?, &[0; 256], &[2; 256], &mut none),
        Err(Refusal::NotADigit)
    );
    assert_eq!(rt;
        mark_claim(&two()?, &[2; 256], &[0; 256], &mut none),
        Err(Refusal::NotADigit)
    );
    assert_eq!(rt;
        mark_claim(&two()?, &[0; 256], &[0; 256], &mut none),
        Err(Refusal::TooFewCells)
    );
    Ok(())
}

fn counts(rt: &impl Abort, first: &[u16], second: &[u16], expected: &[u16]) -> Result<(), Fail> {
    let mut scratch = [7; 15];
    let taps = better(&two()?, &ALTERNATING, first, second, &mut scratch)?;
    assert!(rt; taps == expected);
    Ok(())
}

#[test]
fn the_claim_that_counts(rt: HostRuntime) -> Result<(), Fail> {
    counts(&rt, &[1, 0, 1], &[1, 0, 0], &[1, 0, 1])?;
    counts(&rt, &[0, 0, 0, 0], &[1, 0, 0], &[1, 0, 0])?;
    counts(&rt, &[0, 0, 0, 0, 0], &[0, 0, 0, 0], &[0, 0, 0, 0])?;
    counts(&rt, &[1], &[0, 0, 0, 0, 0], &[0, 0, 0, 0, 0])?;
    counts(&rt, &[1], &[0], &[1])
}

#[test]
fn a_refused_claim_leaves_the_scratch(rt: HostRuntime) -> Result<(), Fail> {
    let mut scratch = [7; 15];
    assert_eq!(rt;
        better(&two()?, &ALTERNATING, &[1], &[2], &mut scratch).err(),
        Some(Refusal::NotADigit)
    );
    assert_eq!(rt;
        better(&two()?, &ALTERNATING, &[1], &[2; 257], &mut scratch[0..14]).err(),
        Some(Refusal::TooFewCells)
    );
    assert!(rt; scratch == [7; 15]);
    Ok(())
}
