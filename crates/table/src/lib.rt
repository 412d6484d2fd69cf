// The field of 256 digits by tables of the powers of 2 and of their logarithms.
#![tactic(auto)]

mod arithmetic;
mod logarithms;
mod make;
mod tables;
#[cfg(test)]
mod tests;

pub use make::{Table, agrees_with_bit_polynomials};
