// Products and inverses by look-ups.
ghost use Rattle.std.specs.Prelude.{◌≡◌, ◌-◌, ◌<◌};
ghost use Rattle.table.specs.Logarithms.{power, logarithm, wrapped, product};

use crate::tables::{logarithms, powers};

pub(crate) fn product(a: u8, b: u8) -> u8
    ensures { result ≡ product a b }
{
    if a == 0 || b == 0 {
        return 0;
    }
    power(wrapped(logarithm(a) as u16 + logarithm(b) as u16))
}

pub(crate) fn inverse(a: u8) -> u8
    requires { 0 < a }
    ensures { result ≡ power (wrapped (255 - logarithm a)) }
{
    power(wrapped((255 - logarithm(a)) as u16))
}

#[tactic(auto, unfolding(crate::specs::Logarithms::power))]
fn power(i: u8) -> u8
    requires { i < 255 }
    ensures { result ≡ power i }
{
    powers()[i as usize]
}

#[tactic(auto, using(crate::specs::Exponents::logarithm_at))]
fn logarithm(a: u8) -> u8
    requires { 0 < a }
    ensures is { result ≡ logarithm a }
    ensures within { result < 255 }
{
    logarithms()[a as usize]
}

fn wrapped(i: u16) -> u8
    requires { i < 510 }
    ensures is { result ≡ wrapped i }
    ensures within { result < 255 }
{
    (if i < 255 { i } else { i - 255 }) as u8
}
