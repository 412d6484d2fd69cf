// What is wrong with a text that is no sheet, and where, in the subject's own words.
#![tactic(auto)]

mod exact;

pub use exact::faults_are_exact;
