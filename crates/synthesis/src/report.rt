// What a run ends with.
use crate::shown::Shown;

/// What the register shown is, and the first tap in which the other one differs, if there is another.
#[derive(Clone, Copy, Debug, PartialEq, Eq)]
pub struct Report {
    pub shown: Shown,
    pub other: Option<usize>,
}
