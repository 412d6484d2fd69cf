// What can be wrong with a sheet, in three layers.
ghost use Rattle.std.specs.Prelude.{◌≡◌, ◌+◌, ◌^◌, ◌<◌, Some};
ghost use Rattle.sheet.specs.Faults.{fault_of, fault_text, layer_word_of};
ghost use Rattle.sheet.specs.Reading.{spot};
ghost use Rattle.sheet.specs.declared.fault.LineFault.TheVariants.{Number as NoNumber};
ghost use Rattle.sheet.specs.declared.fault.SheetFault.TheVariants.{Line as InLine};

use std::error::Error;
use std::fmt;

/// A byte of the sheet, from 0, and its line, from 1.
#[derive(Clone, Copy, Debug, PartialEq, Eq)]
pub struct At {
    pub line: usize,
    pub byte: usize,
}

impl At {
    // As many bytes further along the line.
    pub(crate) fn along(self, bytes: usize) -> At
        requires { self.byte + bytes < 2 ^ 64 }
        ensures { result ≡ spot self.line (self.byte + bytes) }
    {
        At {
            line: self.line,
            byte: self.byte + bytes,
        }
    }
}

/// A word that is no number where one is due.
#[derive(Clone, Copy, Debug, PartialEq, Eq)]
pub struct NumberFault {
    pub at: At,
}

/// A word that the line cannot have, or a number.
#[derive(Clone, Copy, Debug, PartialEq, Eq)]
pub enum LineFault {
    BadWord(At),
    Number(NumberFault),
}

/// A line that the sheet cannot have there, a false place of a task, or what is wrong inside a line.
#[derive(Clone, Copy, Debug, PartialEq, Eq)]
pub enum SheetFault {
    Order(At),
    Place(At),
    Line(LineFault),
}

/// The layer in which a fault was found.
#[derive(Clone, Copy, Debug, PartialEq, Eq)]
pub enum Layer {
    Number,
    Line,
    Sheet,
}

/// A fault as it is reported.
// The number is the rules' own and is only written: an enum in its place would be turned into it again.
#[derive(Clone, Copy, Debug, PartialEq, Eq)]
pub struct Fault {
    pub number: u8,
    pub layer: Layer,
    pub line: usize,
    pub byte: usize,
}

impl From<NumberFault> for LineFault {
    ghost from_gives = { λ e r. r ≡ NoNumber e };

    fn from(e: NumberFault) -> LineFault {
        LineFault::Number(e)
    }
}

impl From<LineFault> for SheetFault {
    ghost from_gives = { λ e r. r ≡ InLine e };

    fn from(e: LineFault) -> SheetFault {
        SheetFault::Line(e)
    }
}

impl From<SheetFault> for Fault {
    ghost from_gives = { λ e r. r ≡ fault_of e };

    fn from(e: SheetFault) -> Fault {
        let (number, layer, at) = match e {
            SheetFault::Line(LineFault::Number(e)) => (8, Layer::Number, e.at),
            SheetFault::Line(LineFault::BadWord(at)) => (9, Layer::Line, at),
            SheetFault::Order(at) => (10, Layer::Sheet, at),
            SheetFault::Place(at) => (11, Layer::Sheet, at),
        };
        Fault {
            number,
            layer,
            line: at.line,
            byte: at.byte,
        }
    }
}

impl fmt::Display for Layer {
    ghost output = { λ l. Some (layer_word_of l) };

    fn fmt<W: fmt::Write>(&self, f: &mut fmt::Formatter<W>) -> fmt::Result {
        f.write_str(match self {
            Layer::Number => "number",
            Layer::Line => "line",
            Layer::Sheet => "sheet",
        })
    }
}

impl fmt::Display for Fault {
    ghost output = { λ f. Some (fault_text f) };

    fn fmt<W: fmt::Write>(&self, f: &mut fmt::Formatter<W>) -> fmt::Result {
        write!(
            f,
            "fault {} {} {} {}",
            self.number, self.layer, self.line, self.byte
        )
    }
}

impl Error for Fault {}
