// Examples.
use crate::BitPolynomials;
use field::Field;
use std::test::Fail;

#[test]
fn modulo_285(rt: HostRuntime) -> Result<(), Fail> {
    let f = BitPolynomials::new(256)?;
    assert_eq!(rt; f.size(), 256);
    assert_eq!(rt; f.multiply(2, 64), 128);
    assert_eq!(rt; f.multiply(2, 128), 29);
    assert_eq!(rt; f.multiply(255, 255), 226);
    assert_eq!(rt; f.multiply(256, 3), 0);
    assert_eq!(rt; f.add(129, 1), 128);
    assert_eq!(rt; f.add(256, 3), 3);
    assert_eq!(rt; f.invert(0), None);
    assert_eq!(rt; f.invert(256), None);
    Ok(())
}

#[test]
fn modulo_7(rt: HostRuntime) -> Result<(), Fail> {
    let f = BitPolynomials::new(4)?;
    assert_eq!(rt;
        [f.multiply(2, 2), f.multiply(2, 3), f.multiply(3, 3)],
        [3, 1, 2]
    );
    assert_eq!(rt; f.invert(2), Some(3));
    Ok(())
}
