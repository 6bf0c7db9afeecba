// Why a line of film is refused.
ghost use Rattle.std.specs.Prelude.{◌≡◌, Some};
ghost use Rattle.film.specs.Faults.{number, message};

use std::error::Error;
use std::fmt;

#[derive(Clone, Copy, PartialEq, Eq, Debug)]
pub enum Fault {
    // The text ends before the line does.
    Unended,
    // No line has this letter, or not this number of fields.
    BadLine,
    // A field is badly written, out of order or out of range.
    BadField,
}

impl Fault {
    // The number by which users know a refusal: told beside the case and never turned back, so it is no conversion.
    pub fn number(&self) -> u8
        ensures { result ≡ number self.now }
    {
        match self {
            Fault::Unended => 9,
            Fault::BadLine => 10,
            Fault::BadField => 11,
        }
    }
}

impl fmt::Display for Fault {
    ghost output = { λ fault. Some (message fault) };

    fn fmt<W: fmt::Write>(&self, f: &mut fmt::Formatter<W>) -> fmt::Result {
        f.write_str(match self {
            Fault::Unended => "the text ends before the line does",
            Fault::BadLine => "no line has this letter and number of fields",
            Fault::BadField => "a field is badly written, out of order or out of range",
        })
    }
}

impl Error for Fault {}
