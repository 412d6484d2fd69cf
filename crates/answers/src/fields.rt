// Marking over the field that a task names.
ghost use Rattle.std.specs.Prelude.{◌≡◌, true, length};
ghost use Rattle.field.specs.Meaning.{Meaning};
ghost use Rattle.residues.specs.Modulo.{modulo, listed};
ghost use Rattle.bit_polynomials.specs.Polynomials.{field_of, listed as made_of_bits};
ghost use Rattle.synthesis.specs.Scratch.{scratch_cells_for};
ghost use Rattle.sheet.specs.Views.{entry_of};
ghost use Rattle.answers.specs.Answers.{AnsweredOver, Answered};

use crate::answer::Answer;
use bit_polynomials::BitPolynomials;
use marking::mark_claim;
use residues::Residues;
use sheet::{FieldName, Task};
use table::Table;

// For residues and for bit polynomials a function that makes its field, and not one over any field made: with the sizes in
// sight the compiler unrolls the products, which makes a sheet of bytes a third quicker.
fn answer_residues(size: u32, task: &Task, scratch: &mut [u16]) -> Answer
    requires size { listed size ≡ true }
    requires room { length scratch.old ≡ scratch_cells_for 256 }
    ensures { AnsweredOver (modulo size) (entry_of task.now).digits (entry_of task.now).claim result }
{
    let field = Residues::new(size)?;
    mark_claim(
        &field,
        task.digits.as_slice(),
        task.claim.as_slice(),
        scratch,
    )
}

fn answer_bits(size: u32, task: &Task, scratch: &mut [u16]) -> Answer
    requires size { made_of_bits size ≡ true }
    requires room { length scratch.old ≡ scratch_cells_for 256 }
    ensures { AnsweredOver (field_of size) (entry_of task.now).digits (entry_of task.now).claim result }
{
    let field = BitPolynomials::new(size)?;
    mark_claim(
        &field,
        task.digits.as_slice(),
        task.claim.as_slice(),
        scratch,
    )
}

// A match and no table: the fields that its arms make are of three types.
pub(crate) fn answer_task(task: &Task, scratch: &mut [u16]) -> Answer
    requires { length scratch.old ≡ scratch_cells_for 256 }
    ensures { Answered (entry_of task.now) result }
{
    match task.field {
        FieldName::P2 => answer_residues(2, task, scratch),
        FieldName::P3 => answer_residues(3, task, scratch),
        FieldName::P5 => answer_residues(5, task, scratch),
        FieldName::P7 => answer_residues(7, task, scratch),
        FieldName::P17 => answer_residues(17, task, scratch),
        FieldName::P31 => answer_residues(31, task, scratch),
        FieldName::P127 => answer_residues(127, task, scratch),
        FieldName::P251 => answer_residues(251, task, scratch),
        FieldName::B4 => answer_bits(4, task, scratch),
        FieldName::B16 => answer_bits(16, task, scratch),
        FieldName::B256 => answer_bits(256, task, scratch),
        FieldName::T256 => mark_claim(
            &Table::new(256)?,
            task.digits.as_slice(),
            task.claim.as_slice(),
            scratch,
        ),
    }
}
