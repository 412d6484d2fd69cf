// Build, generates, regenerate and correct: each refusal next to its edge.
use crate::fields::{five, sixteen, table};
use field::Refusal;
use register::{Register, correct, generates, regenerate};
use std::test::Fail;

fn built(taps: &[u16]) -> Result<Register, Fail> {
    let mut register = Register::new();
    register.build(taps)?;
    Ok(register)
}

#[test]
fn a_register_takes_256_taps(rt: HostRuntime) -> Result<(), Fail> {
    let mut register = built(&[7, 8])?;
    assert_eq!(rt; register.build(&[1; 257]), Err(Refusal::TooManyTaps));
    assert!(rt; register.taps() == [7, 8].as_slice());
    assert_eq!(rt; register.build(&[1; 256]), Ok(()));
    assert!(rt; register.taps().len() == 256);
    assert!(rt; Register::new().taps().len() == 0);
    Ok(())
}

#[test]
fn doubling_in_three_fields(rt: HostRuntime) -> Result<(), Fail> {
    assert_eq!(rt; generates(&five()?, &built(&[3])?, &[1, 2, 4, 3]), Ok(None));
    assert_eq!(rt;
        generates(&five()?, &built(&[3])?, &[1, 2, 4, 4]),
        Ok(Some(4))
    );
    assert_eq!(rt;
        generates(&sixteen()?, &built(&[2])?, &[1, 2, 4, 8, 3]),
        Ok(None)
    );
    assert_eq!(rt; generates(&table()?, &built(&[2])?, &[128, 29]), Ok(None));
    assert_eq!(rt; generates(&table()?, &built(&[249])?, &[1, 2]), Ok(Some(2)));
    Ok(())
}

#[test]
fn no_rule_below_the_length(rt: HostRuntime) -> Result<(), Fail> {
    assert_eq!(rt; generates(&five()?, &built(&[4, 4])?, &[1, 3]), Ok(None));
    assert_eq!(rt;
        generates(&five()?, &built(&[4, 5])?, &[1, 3]),
        Err(Refusal::NotADigit)
    );
    assert_eq!(rt;
        generates(&five()?, &built(&[4, 4])?, &[1, 5]),
        Err(Refusal::NotADigit)
    );
    Ok(())
}

#[test]
fn one_string_from_a_start(rt: HostRuntime) -> Result<(), Fail> {
    let mut cells = [9; 5];
    assert_eq!(rt;
        regenerate(&sixteen()?, &built(&[2])?, &[1], &mut cells),
        Ok(())
    );
    assert!(rt; cells == [1, 2, 4, 8, 3]);
    assert_eq!(rt;
        regenerate(&five()?, &built(&[2])?, &[1, 3], &mut cells),
        Err(Refusal::StartLength)
    );
    assert_eq!(rt;
        regenerate(&five()?, &built(&[5])?, &[1], &mut cells),
        Err(Refusal::NotADigit)
    );
    assert_eq!(rt;
        regenerate(&five()?, &built(&[2])?, &[5], &mut cells),
        Err(Refusal::NotADigit)
    );
    assert!(rt; cells == [1, 2, 4, 8, 3]);
    let mut few = [9];
    assert_eq!(rt;
        regenerate(&table()?, &built(&[2, 1])?, &[6, 7], &mut few),
        Ok(())
    );
    assert!(rt; few == [6]);
    Ok(())
}

#[test]
fn a_row_is_corrected_and_kept(rt: HostRuntime) -> Result<(), Fail> {
    let mut c = [1, 0, 4];
    let mut t = [9; 3];
    assert_eq!(rt; correct(&five()?, &mut c, &[1, 3, 2], &mut t, 2, 1), Ok(()));
    assert!(rt; c == [1, 3, 3]);
    assert!(rt; t == [1, 0, 4]);
    assert_eq!(rt; correct(&five()?, &mut c, &[1, 3, 2], &mut t, 2, 3), Ok(()));
    assert!(rt; c == [1, 3, 3]);
    assert_eq!(rt;
        correct(&five()?, &mut c, &[1, 3], &mut t, 5, 1),
        Err(Refusal::RowsDiffer)
    );
    assert_eq!(rt;
        correct(&five()?, &mut c, &[1, 3, 2], &mut t, 5, 1),
        Err(Refusal::NotADigit)
    );
    assert_eq!(rt;
        correct(&five()?, &mut c, &[1, 3, 5], &mut t, 4, 1),
        Err(Refusal::NotADigit)
    );
    assert!(rt; c == [1, 3, 3] && t == [1, 3, 3]);
    Ok(())
}
