// The field's operations. Sum and negative are those of bit polynomials, one expression each: a trait between to share them
// would be longer.
ghost use Rattle.table.specs.Logarithms.{by_logarithms};
ghost use Rattle.table.specs.Agreeing.{field_laws};

use crate::logarithms::{inverse, product};
use crate::make::Table;
use field::Field;

#[tactic(auto, unfolding(field::specs::Meaning::add, field::specs::Meaning::multiply))]
impl Field for Table {
    ghost means = { λ _. by_logarithms };

    ghost lawful = { λ f made. field_laws };

    fn size(&self) -> u32 {
        256
    }

    fn add(&self, a: u16, b: u16) -> u16 {
        self.digit(a) ^ self.digit(b)
    }

    fn negate(&self, a: u16) -> u16 {
        self.digit(a)
    }

    fn multiply(&self, a: u16, b: u16) -> u16 {
        product(self.digit(a) as u8, self.digit(b) as u8) as u16
    }

    #[tactic(auto, using(crate::specs::Agreeing::inverse_lt, crate::specs::Agreeing::inverse_product))]
    fn invert(&self, a: u16) -> Option<u16> {
        match self.digit(a) {
            0 => None,
            a => Some(inverse(a as u8) as u16),
        }
    }
}
