// Reads a sheet of tasks, task by task, on the sheet's own bytes.
#![tactic(auto)]

mod contents;
mod exact;
mod fault;
mod line;
mod lines;
mod names;
mod numeral;
mod places;
mod reader;
mod scan;
mod task;
mod word;

pub use exact::reading_is_exact;
pub use fault::{At, Fault, Layer, LineFault, NumberFault, SheetFault};
pub use names::{FieldName, Keyword};
pub use places::{MOST_TASKS, Places};
pub use reader::Reader;
pub use task::{Numbers, Task};
