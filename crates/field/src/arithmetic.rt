// What follows from a field's operations.
ghost use Rattle.std.specs.Prelude.{◌≡◌, nat_lt};
ghost use Rattle.field.specs.Meaning.{Meaning, add, multiply};
ghost use Rattle.field.specs.Operations.{negative, inverse};

use crate::traits::Field;

pub fn is_digit<F: Field>(field: &F, a: u16) -> bool
    ensures { result ≡ nat_lt a (F.means field.now).order }
{
    (a as u32) < field.size()
}

// a − b.
pub fn subtract<F: Field>(field: &F, a: u16, b: u16) -> u16
    ensures { F.made field.now → result ≡ add (F.means field.now) a (negative (F.means field.now) b) }
{
    field.add(a, negated(field, b))
}

// a times the inverse of b, which counts as 0 where b has none.
pub fn divide<F: Field>(field: &F, a: u16, b: u16) -> u16
    ensures { F.made field.now → result ≡ multiply (F.means field.now) a (inverse (F.means field.now) b) }
{
    field.multiply(a, inverted(field, b))
}

// −a: the laws leave one negative.
#[tactic(auto, using(crate::proofs::Unique::negates_is))]
pub fn negated<F: Field>(field: &F, a: u16) -> u16
    ensures { F.made field.now → result ≡ negative (F.means field.now) a }
{
    field.negate(a)
}

// The laws leave one inverse.
fn inverted<F: Field>(field: &F, a: u16) -> u16
    ensures { F.made field.now → result ≡ inverse (F.means field.now) a }
{
    field.invert(a).unwrap_or(0)
}
