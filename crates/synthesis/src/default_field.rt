// The field of an analyser made with no named field.
ghost use Rattle.std.specs.Prelude.{◌≡◌, []};
ghost use Rattle.residues.specs.contracts.arithmetic.ResiduesField.TheImpl.{ghosts as as_field};
ghost use Rattle.synthesis.specs.Kept.{kept, the_default_field};
ghost use Rattle.synthesis.specs.Sound.{Sound};

use crate::analyser::Analyser;
use residues::Residues;

impl Analyser<Residues> {
    /// An analyser made with no named field.
    pub fn over_default_field() -> Analyser<Residues>
        ensures field { as_field.means result.field ≡ the_default_field }
        ensures kept { kept result.state ≡ [] }
        ensures sound { Sound the_default_field result.state }
    {
        Analyser::new(default_field())
    }
}

fn default_field() -> Residues
    ensures { as_field.means result ≡ the_default_field }
{
    Residues::new(2).unwrap()
}
