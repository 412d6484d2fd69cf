// Products, reduced at each step. Operands stay plain cells that are below the order: a type for them would be unwrapped in each line.
ghost use Rattle.std.specs.Prelude.{◌≡◌, ◌<◌};
ghost use Rattle.bit_polynomials.specs.Polynomials.{double, product};

use crate::bit_polynomials::BitPolynomials;

impl BitPolynomials {
    #[tactic(auto, using(crate::specs::Powers::times_none))]
    pub(crate) fn product(&self, a: u16, b: u16) -> u16
        requires { a < self.now.order }
        ensures is { result ≡ product self.now.degree self.now.modulus a b }
        ensures within { result < self.now.order }
    {
        let mut x = a;
        let mut y = b;
        let mut r = 0;
        for _ in 0..self.degree {
            if y % 2 == 1 {
                r ^= x;
            }
            x = self.doubled(x);
            y /= 2;
        }
        r
    }

    // x times a.
    #[tactic(auto, using(crate::specs::Reduced::double_low, crate::specs::Reduced::double_high, crate::specs::Reduced::reduced))]
    fn doubled(&self, a: u16) -> u16
        requires { a < self.now.order }
        ensures is { result ≡ double self.now.degree self.now.modulus a }
        ensures within { result < self.now.order }
    {
        let d = 2 * a;
        if d < self.order { d } else { d ^ self.modulus }
    }
}
