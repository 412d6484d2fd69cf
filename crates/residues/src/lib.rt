// The residues modulo a prime, as a field.
#![tactic(auto)]

mod arithmetic;
mod inverse;
mod make;
mod residues;
#[cfg(test)]
mod tests;

pub use residues::Residues;
