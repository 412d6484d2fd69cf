// What may be asked of an analyser. An enum and not closures: a run of calls is a value, which `performed` speaks of.

#[derive(Clone, Copy, Debug, PartialEq, Eq)]
pub enum Call {
    Feed(u16),
    Expect,
    Show,
    Other,
    Trim(usize),
}
