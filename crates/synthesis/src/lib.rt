// Massey's synthesis of a shortest register.
#![tactic(auto)]

mod analyser;
mod call;
mod default_field;
mod find;
mod other;
mod progress;
mod report;
mod rows;
mod run;
mod runs;
mod shown;
mod state;
mod step;

pub use analyser::Analyser;
pub use call::Call;
pub use find::{Shortest, find_shortest, has_room};
pub use progress::MOST_DIGITS;
pub use report::Report;
pub use runs::run_calls;
pub use shown::Shown;
