// Registers are built from taps.
ghost use Rattle.std.specs.Prelude.{◌≡◌, ◌≤◌, [], length, Ok, Err, IfOk};
ghost use Rattle.field.specs.Refusals.{refusal_of};
ghost use Rattle.register.specs.Registers.{taps_in, build_refusal};

use crate::register::{MOST_TAPS, Register};
use field::Refusal;

// The register of these taps. By itself, so that building one copies its cells once.
#[tactic(auto, using(crate::proofs::Cells::kept_long, crate::proofs::Cells::zero_past))]
fn register_of(taps: &[u16]) -> Register
    requires { length taps.now ≤ 256 }
    ensures { taps_in result ≡ taps.now }
{
    let mut cells = Register::new().cells;
    cells[..taps.len()].copy_from_slice(taps);
    Register {
        cells,
        taps: taps.len(),
    }
}

/// The register of these taps and their number.
impl TryFrom<&[u16]> for Register {
    type Error = Refusal;

    ghost try_from_gives = { λ taps r. (refusal_of r ≡ build_refusal (length taps.now)) × IfOk r (λ built. taps_in built ≡ taps.now) };

    fn try_from(taps: &[u16]) -> Result<Register, Refusal> {
        let mut register = Register::new();
        register.build(taps)?;
        Ok(register)
    }
}

impl Register {
    /// A register of length 0.
    pub fn new() -> Register
        ensures { taps_in result ≡ [] }
    {
        Register {
            cells: [0; MOST_TAPS],
            taps: 0,
        }
    }

    /// Sets the register to these taps and their number.
    pub fn build(&mut self, taps: &[u16]) -> Result<(), Refusal>
        ensures refused { refusal_of result ≡ build_refusal (length taps.now) }
        ensures built { elim result [ Ok _ ↦ taps_in self.new ≡ taps.now | Err e ↦ self.new ≡ self.old ] }
    {
        if taps.len() > MOST_TAPS {
            return Err(Refusal::TooManyTaps);
        }
        *self = register_of(taps);
        Ok(())
    }

    /// The taps, from the first to the last.
    pub fn taps(&self) -> &[u16]
        ensures { result.now ≡ taps_in self.now }
    {
        &self.cells[..self.taps]
    }
}
