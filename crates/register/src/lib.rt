// Registers and what they generate.
#![tactic(auto)]

mod build;
mod correction;
mod regeneration;
mod register;
mod rows;
mod rule;

pub use correction::correct;
pub use regeneration::regenerate;
pub use register::{MOST_TAPS, Register};
pub use rows::subtract_shifted;
pub use rule::{are_digits, feedback, generates};
