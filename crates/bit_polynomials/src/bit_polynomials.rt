// The type: a modulus of degree k, whose digits are the polynomials below degree k.
ghost use Rattle.std.specs.Prelude.{◌≡◌, ◌*◌, ◌^◌, ◌<◌, ◌≤◌, true};
ghost use Rattle.bit_polynomials.specs.Polynomials.{listed, degree_of, modulus_of};

#[derive(Clone, Copy, Debug, PartialEq, Eq)]
pub struct BitPolynomials {
    pub(crate) degree: u16,
    pub(crate) order: u16,
    pub(crate) modulus: u16,
    ghost known: { listed order ≡ true },
    ghost exponent: { degree ≡ degree_of order },
    ghost reduction: { modulus ≡ modulus_of order },
    ghost power: { order ≡ 2 ^ degree },
    ghost small: { order ≤ 256 },
    ghost low: { order ≤ modulus },
    ghost high: { modulus < 2 * order },
}
