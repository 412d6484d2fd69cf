// Polynomials over the bits modulo one of degree 2, 4 or 8, as a field: bit i of a digit is the coefficient of x to the i.
#![tactic(auto)]

mod arithmetic;
mod bit_polynomials;
mod inverse;
mod make;
mod product;
#[cfg(test)]
mod tests;

pub use bit_polynomials::BitPolynomials;
