// Strings with their registers, and each limit beside the value on its other side.
use crate::fields::{five, table, two};
use bit_polynomials::BitPolynomials;
use field::{Field, Refusal};
use residues::Residues;
use std::process::Abort;
use std::test::Fail;
use synthesis::{Analyser, Call, run_calls};

fn feed_all<F: Field>(a: &mut Analyser<F>, digits: &[u16]) -> Result<(), Fail> {
    for s in digits {
        let _ = a.feed(*s)?;
    }
    Ok(())
}

// What `show` and `other` leave in four cells of 9.
fn found<F: Field + Drop>(
    rt: &impl Abort,
    field: F,
    digits: &[u16],
    length: usize,
    taps: [u16; 4],
    count: u32,
    other: [u16; 4],
) -> Result<(), Fail> {
    let mut a = Analyser::new(field);
    feed_all(&mut a, digits)?;
    let mut cells = [9; 4];
    let shown = a.show(&mut cells)?;
    assert_eq!(rt;
        (shown.length, shown.digits, shown.count),
        (length, digits.len(), count)
    );
    assert_eq!(rt; cells, taps);
    cells = [9; 4];
    let _ = a.other(&mut cells)?;
    assert_eq!(rt; cells, other);
    Ok(())
}

const NONE: [u16; 4] = [9; 4];

// The length 1 of a single 1 tells that the length changes where 2·l = k too.
#[test]
fn known_bits(rt: HostRuntime) -> Result<(), Fail> {
    found(&rt, two()?, &[], 0, NONE, 0, NONE)?;
    found(&rt, two()?, &[0, 0, 0], 0, NONE, 0, NONE)?;
    found(&rt, two()?, &[1], 1, [1, 9, 9, 9], 1, [0, 9, 9, 9])?;
    found(&rt, two()?, &[1, 1, 0], 2, [1, 1, 9, 9], 5, [0, 0, 9, 9])?;
    found(&rt, two()?, &[0, 0, 1, 1], 3, [1, 0, 1, 9], 9, [1, 1, 1, 9])?;
    found(&rt, two()?, &[0, 0, 0, 1], 4, [0, 0, 0, 1], 4, [1, 0, 0, 1])
}

// The tap 2 of 1 3 tells the quotient d / b from b / d, and the last three tell bytes from residues.
#[test]
fn known_digits(rt: HostRuntime) -> Result<(), Fail> {
    found(&rt, five()?, &[1, 3], 1, [2, 9, 9, 9], 3, NONE)?;
    found(&rt, five()?, &[1, 2, 4], 1, [3, 9, 9, 9], 4, NONE)?;
    found(
        &rt,
        five()?,
        &[1, 2, 4, 0],
        3,
        [3, 0, 3, 9],
        8,
        [4, 3, 3, 9],
    )?;
    found(
        &rt,
        Residues::new(251)?,
        &[1, 2, 4],
        1,
        [249, 9, 9, 9],
        4,
        NONE,
    )?;
    found(&rt, table()?, &[1, 2, 4], 1, [2, 9, 9, 9], 4, NONE)?;
    found(
        &rt,
        BitPolynomials::new(256)?,
        &[128, 29],
        1,
        [2, 9, 9, 9],
        3,
        NONE,
    )
}

#[test]
fn the_digit_expected_leaves_no_discrepancy(rt: HostRuntime) -> Result<(), Fail> {
    let mut a = Analyser::over_default_field();
    feed_all(&mut a, &[0, 0, 1, 1])?;
    let next = a.expect();
    assert_eq!(rt; next, 1);
    assert_eq!(rt; a.feed(next)?, (0, 3));
    Ok(())
}

#[test]
fn limits_of_a_digit_and_of_a_trim(rt: HostRuntime) -> Result<(), Fail> {
    let mut a = Analyser::new(five()?);
    assert_eq!(rt; a.feed(4).err(), None);
    assert_eq!(rt; a.feed(5).err(), Some(Refusal::NotADigit));
    assert_eq!(rt; a.trim(2).err(), Some(Refusal::PastTheDigits));
    assert_eq!(rt; a.trim(1).err(), None);
    let mut bits = Analyser::over_default_field();
    assert_eq!(rt; bits.feed(2).err(), Some(Refusal::NotADigit));
    assert_eq!(rt; bits.feed(1).err(), None);
    Ok(())
}

#[test]
fn limits_of_the_cells(rt: HostRuntime) -> Result<(), Fail> {
    let mut a = Analyser::over_default_field();
    assert_eq!(rt; a.show(&mut [9; 0]).err(), None);
    assert_eq!(rt; a.other(&mut [9; 0]).err(), None);
    feed_all(&mut a, &[0, 0, 1, 1])?;
    let mut few = [9; 2];
    assert_eq!(rt; a.show(&mut few).err(), Some(Refusal::TooFewCells));
    assert_eq!(rt; a.other(&mut few).err(), Some(Refusal::TooFewCells));
    assert_eq!(rt; few, [9; 2]);
    assert_eq!(rt; a.show(&mut [9; 3]).err(), None);
    assert_eq!(rt; a.other(&mut [9; 3]).err(), None);
    Ok(())
}

#[test]
fn limit_of_the_digits(rt: HostRuntime) -> Result<(), Fail> {
    let mut a = Analyser::over_default_field();
    feed_all(&mut a, &[1; 255])?;
    assert_eq!(rt; a.feed(1).err(), None);
    assert_eq!(rt; a.feed(1).err(), Some(Refusal::TooManyDigits));
    assert_eq!(rt; a.feed(2).err(), Some(Refusal::TooManyDigits));
    assert_eq!(rt; a.expect(), 1);
    assert_eq!(rt; a.trim(257).err(), Some(Refusal::PastTheDigits));
    assert_eq!(rt; a.trim(256).err(), None);
    assert_eq!(rt; a.trim(255).err(), None);
    assert_eq!(rt; a.feed(1).err(), None);
    Ok(())
}

#[test]
fn a_run_ends_with_both_registers(rt: HostRuntime) -> Result<(), Fail> {
    let calls = [
        Call::Feed(0),
        Call::Feed(0),
        Call::Feed(1),
        Call::Feed(2),
        Call::Feed(1),
        Call::Feed(1),
        Call::Show,
        Call::Trim(4),
        Call::Trim(5),
    ];
    let mut cells = [9; 3];
    let mut others = [9; 3];
    let report = run_calls(Residues::new(2)?, &calls, &mut cells, &mut others)?;
    assert_eq!(rt; report.shown.count, 9);
    assert_eq!(rt; cells, [1, 0, 1]);
    assert_eq!(rt; report.other, Some(2));
    assert_eq!(rt; others, [1, 1, 1]);
    Ok(())
}

#[test]
fn four_bits_have_two_registers(rt: HostRuntime) -> Result<(), Fail> {
    let mut a = Analyser::over_default_field();
    assert_eq!(rt; a.feed(0)?, (0, 0));
    assert_eq!(rt; a.feed(0)?, (0, 0));
    assert_eq!(rt; a.feed(1)?, (1, 3));
    assert_eq!(rt; a.feed(1)?, (1, 3));
    let mut cells = [9; 4];
    let shown = a.show(&mut cells)?;
    assert_eq!(rt; (shown.length, shown.digits, shown.count), (3, 4, 9));
    assert_eq!(rt; cells, [1, 0, 1, 9]);
    assert_eq!(rt; a.other(&mut cells)?, Some(2));
    assert_eq!(rt; cells, [1, 1, 1, 9]);
    Ok(())
}

#[test]
fn residues_modulo_5_have_one(rt: HostRuntime) -> Result<(), Fail> {
    let mut a = Analyser::new(Residues::new(5)?);
    feed_all(&mut a, &[1, 3])?;
    let mut cells = [9; 2];
    let shown = a.show(&mut cells)?;
    assert_eq!(rt; (shown.length, shown.digits, shown.count), (1, 2, 3));
    assert_eq!(rt; cells, [2, 9]);
    assert_eq!(rt; a.other(&mut cells)?, None);
    assert!(rt; a.feed(5).is_err());
    assert!(rt; a.feed(4).is_ok());
    assert!(rt; a.trim(4).is_err());
    assert!(rt; a.trim(3).is_ok());
    Ok(())
}

#[test]
fn keeps_256_digits(rt: HostRuntime) -> Result<(), Fail> {
    let mut a = Analyser::over_default_field();
    feed_all(&mut a, &[1; 256])?;
    assert!(rt; a.feed(1).is_err());
    a.trim(255)?;
    assert!(rt; a.feed(1).is_ok());
    Ok(())
}
