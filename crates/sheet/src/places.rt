// The places of the tasks read so far.
ghost use Rattle.std.specs.Prelude.{◌≤◌, length};

use arrayvec::ArrayVec;

/// A sheet has at most this many tasks.
pub const MOST_TASKS: usize = 32;

/// Where the tasks read so far begin.
#[derive(Drop)]
pub struct Places {
    pub(crate) list: ArrayVec<usize, MOST_TASKS>,
    ghost room: { length list.items ≤ 32 },
}

impl Places {
    ghost use Rattle.std.specs.Prelude.{◌≡◌, []};
    ghost use Rattle.sheet.specs.Views.{noted};

    /// No places.
    pub fn new() -> Places
        ensures { noted result ≡ [] }
    {
        Places {
            list: ArrayVec::new(),
        }
    }
}
