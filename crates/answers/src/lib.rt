// The answer to a whole sheet: the mark of each task, or the sheet's first fault.
#![tactic(auto)]

mod answer;
mod fields;
mod sheets;
mod text;

pub use answer::{Answer, Answers};
pub use sheets::answer_sheet;
pub use text::Line;
