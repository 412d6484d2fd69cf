// The fields that the other examples use, what every kind of field answers alike, and the sizes that each kind has.
use bit_polynomials::BitPolynomials;
use field::{Field, Refusal};
use residues::Residues;
use std::process::Abort;
use std::test::Fail;
use table::Table;

pub(crate) fn two() -> Result<Residues, Fail> {
    Ok(Residues::new(2)?)
}

pub(crate) fn five() -> Result<Residues, Fail> {
    Ok(Residues::new(5)?)
}

pub(crate) fn sixteen() -> Result<BitPolynomials, Fail> {
    Ok(BitPolynomials::new(16)?)
}

pub(crate) fn table() -> Result<Table, Fail> {
    Ok(Table::new(256)?)
}

fn has_negatives_and_inverses<F: Field>(rt: &impl Abort, field: &F, size: u16) {
    assert_eq!(rt; field.size(), size as u32);
    assert_eq!(rt; field.invert(0), None);
    for a in 1..size {
        assert_eq!(rt; field.add(a, field.negate(a)), 0);
        let inverse = field.invert(a);
        assert_eq!(rt; inverse.map(|b| field.multiply(a, b)), Some(1));
    }
}

#[test]
fn each_kind_has_negatives_and_inverses(rt: HostRuntime) -> Result<(), Fail> {
    has_negatives_and_inverses(&rt, &Residues::new(251)?, 251);
    has_negatives_and_inverses(&rt, &BitPolynomials::new(256)?, 256);
    has_negatives_and_inverses(&rt, &table()?, 256);
    Ok(())
}

#[test]
fn sizes_that_no_kind_has(rt: HostRuntime) {
    for size in [0, 1, 4, 6, 11, 16, 250, 252, 256, 65538] {
        assert_eq!(rt; Residues::new(size), Err(Refusal::NoSuchField));
    }
    for size in [0, 2, 3, 5, 8, 15, 17, 255, 257, 65540] {
        assert_eq!(rt; BitPolynomials::new(size), Err(Refusal::NoSuchField));
    }
    for size in [0, 2, 3, 4, 5, 15, 16, 17, 255, 257, 65792] {
        assert_eq!(rt; Table::new(size), Err(Refusal::NoSuchField));
    }
}

#[test]
fn sizes_at_the_ends_of_a_kind(rt: HostRuntime) {
    for size in [2, 251] {
        assert!(rt; Residues::new(size).is_ok());
    }
    assert!(rt; BitPolynomials::new(16).is_ok());
}
