// Which fields are made.
ghost use Rattle.field.specs.Making.{Makes};
ghost use Rattle.bit_polynomials.specs.Polynomials.{listed, field_of};
ghost use Rattle.bit_polynomials.specs.contracts.arithmetic.BitPolynomialsField.TheImpl.{ghosts as as_field};

use crate::bit_polynomials::BitPolynomials;
use field::Refusal;

impl BitPolynomials {
    // The field of 4, 16 or 256 digits.
    #[tactic(auto, using(crate::specs::Moduli::listed_laws))]
    pub fn new(size: u32) -> Result<Self, Refusal>
        ensures { Makes (listed size) (field_of size) as_field.means result }
    {
        match size {
            4 => Ok(BitPolynomials {
                degree: 2,
                order: 4,
                modulus: 0b111,
            }),
            16 => Ok(BitPolynomials {
                degree: 4,
                order: 16,
                modulus: 0b1_0011,
            }),
            256 => Ok(BitPolynomials {
                degree: 8,
                order: 256,
                modulus: 0b1_0001_1101,
            }),
            _ => Err(Refusal::NoSuchField),
        }
    }
}
