// Strings whose shortest registers are known.
#![tactic(auto)]

mod theorem;

pub use theorem::known_answers;
