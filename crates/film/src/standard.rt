// The three standards, by number and by name.
ghost use Rattle.std.specs.Prelude.{◌≡◌, Some, codes};
ghost use Rattle.std.specs.Result.{result_ok};
ghost use Rattle.film.specs.Standards.{name_of, numbered, named, IsNumberOf};

use std::error::Error;
use std::fmt;

#[derive(Clone, Copy, PartialEq, Eq, Debug)]
pub enum Standard {
    Hevc,
    H264,
    Vc1,
}

// A number or a name that no standard has.
#[derive(Clone, Copy, PartialEq, Eq, Debug)]
pub struct UnknownStandard;

impl Standard {
    // The name that stands in a film.
    pub fn name(self) -> &'static [u8]
        ensures is { result.now ≡ name_of self }
        ensures back { named result.now ≡ Some self }
    {
        match self {
            Standard::Hevc => b"HEVC",
            Standard::H264 => b"H264",
            Standard::Vc1 => b"VC1",
        }
    }
}

// The number by which a transform knows the standard.
impl From<Standard> for u32 {
    ghost from_gives = { IsNumberOf };

    fn from(standard: Standard) -> u32 {
        match standard {
            Standard::Hevc => 0,
            Standard::H264 => 1,
            Standard::Vc1 => 2,
        }
    }
}

// The standard of a number.
impl TryFrom<u32> for Standard {
    type Error = UnknownStandard;

    ghost try_from_gives = { λ n r. result_ok r ≡ numbered n };

    fn try_from(number: u32) -> Result<Standard, UnknownStandard> {
        match number {
            0 => Ok(Standard::Hevc),
            1 => Ok(Standard::H264),
            2 => Ok(Standard::Vc1),
            _ => Err(UnknownStandard),
        }
    }
}

// The standard of a name: the one whose `name` gives these bytes.
impl TryFrom<&[u8]> for Standard {
    type Error = UnknownStandard;

    ghost try_from_gives = { λ name r. result_ok r ≡ named name.now };

    fn try_from(name: &[u8]) -> Result<Standard, UnknownStandard> {
        match name {
            name if name == Standard::Hevc.name() => Ok(Standard::Hevc),
            name if name == Standard::H264.name() => Ok(Standard::H264),
            name if name == Standard::Vc1.name() => Ok(Standard::Vc1),
            _ => Err(UnknownStandard),
        }
    }
}

impl fmt::Display for UnknownStandard {
    ghost output = { λ _. Some (codes "the standard is unknown") };

    fn fmt<W: fmt::Write>(&self, f: &mut fmt::Formatter<W>) -> fmt::Result {
        f.write_str("the standard is unknown")
    }
}

impl Error for UnknownStandard {}
