// Examples.
use crate::Table;
use bit_polynomials::BitPolynomials;
use field::Field;
use std::test::Fail;

#[test]
fn two_by_128(rt: HostRuntime) -> Result<(), Fail> {
    let f = Table::new(256)?;
    assert_eq!(rt; f.size(), 256);
    assert_eq!(rt; f.multiply(2, 64), 128);
    assert_eq!(rt; f.multiply(2, 128), 29);
    assert_eq!(rt; f.multiply(0, 128), 0);
    assert_eq!(rt; f.multiply(2, 0), 0);
    assert_eq!(rt; f.multiply(256, 3), 0);
    assert_eq!(rt; f.invert(0), None);
    assert_eq!(rt; f.invert(1), Some(1));
    Ok(())
}

#[test]
fn as_bit_polynomials(rt: HostRuntime) -> Result<(), Fail> {
    let f = Table::new(256)?;
    let g = BitPolynomials::new(256)?;
    for a in 0..257 {
        assert_eq!(rt; f.invert(a), g.invert(a));
        for b in 0..257 {
            assert_eq!(rt; f.add(a, b), g.add(a, b));
            assert_eq!(rt; f.multiply(a, b), g.multiply(a, b));
        }
    }
    Ok(())
}
