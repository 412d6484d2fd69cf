// The inverse by powers: a to the 2 ^ k - 2, which is the product of a to the 2, the 4, .. and the 2 ^ (k - 1).
ghost use Rattle.std.specs.Prelude.{◌≡◌, ◌<◌};
ghost use Rattle.bit_polynomials.specs.Polynomials.{product};

use crate::bit_polynomials::BitPolynomials;

impl BitPolynomials {
    #[tactic(auto, using(crate::specs::Powers::squares_step, crate::specs::Powers::squares_none, crate::specs::Lawful::inverse_product, crate::specs::Moduli::sound))]
    pub(crate) fn inverse(&self, a: u16) -> u16
        requires positive { 0 < a }
        requires within { a < self.now.order }
        ensures { (result < self.now.order) × (product self.now.degree self.now.modulus a result ≡ 1) }
    {
        let mut square = a;
        let mut r = 1;
        for _ in 1..self.degree {
            square = self.product(square, square);
            r = self.product(r, square);
        }
        r
    }
}
