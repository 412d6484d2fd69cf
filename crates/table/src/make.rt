// The type, which needs no data, and its making. The makings of the three kinds share no trait: each call names its kind, and
// each kind knows other sizes.
ghost use Rattle.field.specs.Laws.{FieldLaws};
ghost use Rattle.field.specs.Making.{Makes};
ghost use Rattle.bit_polynomials.specs.Polynomials.{field_of};
ghost use Rattle.table.specs.Logarithms.{by_logarithms, listed};
ghost use Rattle.table.specs.Agreement.{Agree};
ghost use Rattle.table.specs.contracts.arithmetic.TableField.TheImpl.{ghosts as as_field};

use field::Refusal;

#[derive(Clone, Copy, Debug, PartialEq, Eq)]
pub struct Table(());

impl Table {
    // The field of 256 digits.
    #[tactic(auto, using(crate::specs::Agreeing::field_laws))]
    pub fn new(size: u32) -> Result<Self, Refusal>
        ensures { Makes (listed size) by_logarithms as_field.means result }
    {
        if size == 256 {
            Ok(Table(()))
        } else {
            Err(Refusal::NoSuchField)
        }
    }
}

// The table and the bit polynomials of 256 digits are one field.
#[tactic(auto, using(crate::specs::Agreeing::agreement, crate::specs::Agreeing::field_laws))]
pub fn agrees_with_bit_polynomials()
    ensures agree { Agree by_logarithms (field_of 256) }
    ensures lawful { FieldLaws by_logarithms }
{}
