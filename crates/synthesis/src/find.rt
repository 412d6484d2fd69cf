// The length of a shortest register for a string, found in cells that are lent.
ghost use Rattle.std.specs.Prelude.{◌≡◌, ◌≤◌, length, Ok, Err, nat_le};
ghost use Rattle.field.specs.Meaning.{Meaning};
ghost use Rattle.field.specs.Refusals.{refusal_of};
ghost use Rattle.synthesis.specs.Scratch.{scratch_cells_for, cleared, steps_refusal};
ghost use Rattle.massey.specs.Steps.{steps};

use crate::progress::MOST_DIGITS;
use crate::rows::Rows;
use crate::run::clear;
use field::{Field, Refusal};
use register::are_digits;

/// The length of a shortest register, and the count of the steps that find it.
#[derive(Clone, Copy, Debug, PartialEq, Eq)]
pub struct Shortest {
    pub length: usize,
    pub count: u32,
    ghost few: { length ≤ 256 },
}

// The cells that the steps over this many digits need.
fn scratch_cells(digits: usize) -> usize
    requires { digits ≤ 256 }
    ensures { result ≡ scratch_cells_for digits }
{
    3 * (digits + 1)
}

/// Whether so many cells are enough for the steps over so many digits.
pub fn has_room(digits: usize, cells: usize) -> bool
    ensures { result ≡ nat_le (scratch_cells_for digits) cells }
{
    digits < cells / 3
}

// Runs the steps in the first cells of the scratch, which end as 0. The string is the caller's slice, so its size stands here too.
fn find_in<F: Field>(field: &F, digits: &[u16], scratch: &mut [u16]) -> Shortest
    requires few { length digits.now ≤ 256 }
    requires room { scratch_cells_for (length digits.now) ≤ length scratch.old }
    ensures length { F.made field.now → result.length ≡ (steps (F.means field.now) digits.now).l }
    ensures count { F.made field.now → result.count ≡ (steps (F.means field.now) digits.now).count }
    ensures scratch { scratch.new ≡ cleared (scratch_cells_for (length digits.now)) scratch.old }
{
    let rows = &mut scratch[0..scratch_cells(digits.len())];
    let row = digits.len() + 1;
    let (c, rest) = rows.split_at_mut(row);
    let (b, spare) = rest.split_at_mut(row);
    let p = Rows { c, b, spare }.run(field, digits);
    clear(rows);
    Shortest {
        length: p.length,
        count: p.count,
    }
}

/// Runs the steps over the digits, with their rows in the scratch, of which the cells used end as 0.
pub fn find_shortest<F: Field>(
    field: &F,
    digits: &[u16],
    scratch: &mut [u16],
) -> Result<Shortest, Refusal>
    ensures refused { refusal_of result ≡ steps_refusal (F.means field.now) digits.now (length scratch.old) }
    ensures found { elim result [ Ok s ↦ (F.made field.now → (s.length ≡ (steps (F.means field.now) digits.now).l) × (s.count ≡ (steps (F.means field.now) digits.now).count)) | Err e ↦ Unit {0} ] }
    ensures scratch { elim result [ Ok s ↦ scratch.new ≡ cleared (scratch_cells_for (length digits.now)) scratch.old | Err e ↦ scratch.new ≡ scratch.old ] }
{
    if digits.len() > MOST_DIGITS {
        return Err(Refusal::TooManyDigits);
    }
    if !are_digits(field, digits) {
        return Err(Refusal::NotADigit);
    }
    if !has_room(digits.len(), scratch.len()) {
        return Err(Refusal::TooFewCells);
    }
    Ok(find_in(field, digits, scratch))
}
