// Examples.
use crate::Residues;
use field::Field;
use std::test::Fail;

#[test]
fn seven_by_definition(rt: HostRuntime) -> Result<(), Fail> {
    let f = Residues::new(7)?;
    for a in 0..7 {
        assert_eq!(rt; f.add(a, f.negate(a)), 0);
        for b in 0..7 {
            assert_eq!(rt; f.add(a, b), (a + b) % 7);
            assert_eq!(rt; f.multiply(a, b), (a * b) % 7);
        }
    }
    assert_eq!(rt; f.add(7, 3), 3);
    assert_eq!(rt; f.multiply(9, 3), 0);
    assert_eq!(rt; f.invert(3), Some(5));
    assert_eq!(rt; f.invert(7), None);
    Ok(())
}
