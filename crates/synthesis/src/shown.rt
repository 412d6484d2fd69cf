// What an analyser shows beside the taps.

// Apart from `Progress` and `Shortest`, though they share two fields: what is shown, what the steps keep and what is found
// for a string differ in meaning.
/// The length of the register, the number of digits kept, and the count of the steps over them.
#[derive(Clone, Copy, Debug, PartialEq, Eq)]
pub struct Shown {
    pub length: usize,
    pub digits: usize,
    pub count: u32,
}
