// How far the steps have come.
ghost use Rattle.std.specs.Prelude.{◌≡◌, ◌+◌, ◌*◌, ◌≤◌};

/// The most digits that the steps take.
pub const MOST_DIGITS: usize = 256;

/// What the steps keep beside their rows: the register's length l, the discrepancy b at its last change, the shift j
/// since then, the number k of digits taken, and the count. The bounds hold over any field.
#[derive(Clone, Copy)]
pub struct Progress {
    pub length: usize,
    pub last: u16,
    pub shift: usize,
    pub taken: usize,
    pub count: u32,
    ghost few: { taken ≤ 256 },
    ghost short: { length ≤ taken },
    ghost near: { shift ≤ taken + 1 },
    ghost cheap: { count ≤ 1024 * taken },
}

impl Progress {
    /// The progress of no digits.
    pub fn new() -> Progress
        ensures length { result.length ≡ 0 }
        ensures last { result.last ≡ 1 }
        ensures shift { result.shift ≡ 1 }
        ensures taken { result.taken ≡ 0 }
        ensures count { result.count ≡ 0 }
    {
        Progress {
            length: 0,
            last: 1,
            shift: 1,
            taken: 0,
            count: 0,
        }
    }
}
