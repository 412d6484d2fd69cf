// Marks for claimed registers.
#![tactic(auto)]

mod choice;
mod marks;
mod verdict;

pub use choice::better;
pub use marks::{mark_claim, one_verdict};
pub use verdict::{Mark, Verdict};
