// Finite fields by their digits: what a field means, its laws, and the refusals that all calls over fields share.
#![tactic(auto)]

mod arithmetic;
mod refusal;
mod traits;

pub use arithmetic::{divide, is_digit, negated, subtract};
pub use refusal::Refusal;
pub use traits::Field;
