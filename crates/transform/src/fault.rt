// Why a transform refuses.
ghost use Rattle.std.specs.Prelude.{◌≡◌, Some};
ghost use Rattle.transform.specs.Outcome.{number, message};

use std::error::Error;
use std::fmt;

#[derive(Clone, Copy, PartialEq, Eq, Debug)]
pub enum Fault {
    // The side is not 4, 8, 16 or 32, or a block is not side times side long.
    BadShape,
    // The standard does not have this side or this step.
    NotUsable,
    // A residual outside -255 to 255, or a level outside 16 bits.
    OutOfRange,
    // The levels rebuild to nothing that the standard allows. The number is the one that was asked for, so it is no enum.
    NothingRebuilt { standard: u32, side: usize },
}

impl Fault {
    // The number by which users know a refusal: told beside the case and never turned back, so it is no conversion.
    pub fn number(&self) -> u8
        ensures { result ≡ number self.now }
    {
        match self {
            Fault::BadShape => 31,
            Fault::NotUsable => 32,
            Fault::OutOfRange => 33,
            Fault::NothingRebuilt { .. } => 34,
        }
    }
}

impl fmt::Display for Fault {
    ghost output = { λ fault. Some (message fault) };

    fn fmt<W: fmt::Write>(&self, f: &mut fmt::Formatter<W>) -> fmt::Result {
        f.write_str(match self {
            Fault::BadShape => "no side of a block, or not side times side values",
            Fault::NotUsable => "the standard does not have this side or this step",
            Fault::OutOfRange => "a residual or a level is out of range",
            Fault::NothingRebuilt { .. } =>
                "the levels rebuild to nothing that the standard allows",
        })
    }
}

impl Error for Fault {}
