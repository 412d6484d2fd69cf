// The field's operations.
ghost use Rattle.bit_polynomials.specs.Polynomials.{polynomials};
ghost use Rattle.bit_polynomials.specs.Lawful.{field_laws};
ghost use Rattle.bit_polynomials.specs.Moduli.{sound};

use crate::bit_polynomials::BitPolynomials;
use field::Field;

#[tactic(auto, unfolding(field::specs::Meaning::add, field::specs::Meaning::multiply))]
impl Field for BitPolynomials {
    ghost means = { λ f. polynomials f.degree f.modulus };

    ghost lawful = { λ f made. field_laws f.degree f.modulus (sound f) };

    fn size(&self) -> u32 {
        self.order as u32
    }

    fn add(&self, a: u16, b: u16) -> u16 {
        self.digit(a) ^ self.digit(b)
    }

    fn negate(&self, a: u16) -> u16 {
        self.digit(a)
    }

    fn multiply(&self, a: u16, b: u16) -> u16 {
        self.product(self.digit(a), self.digit(b))
    }

    fn invert(&self, a: u16) -> Option<u16> {
        match self.digit(a) {
            0 => None,
            a => Some(self.inverse(a)),
        }
    }
}
