// The rows that the steps work on, which are lent.
ghost use Rattle.std.specs.Prelude.{◌≡◌, length};

// Row c is that of the register, row b that of the last one that was shorter, and the spare row keeps c while it is
// corrected. They are of one size.
#[derive(Drop)]
pub struct Rows<'a> {
    pub(crate) c: &'a mut [u16],
    pub(crate) b: &'a mut [u16],
    pub(crate) spare: &'a mut [u16],
    ghost same: { length b.now ≡ length c.now },
    ghost third: { length spare.now ≡ length c.now },
}
