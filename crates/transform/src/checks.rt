// The tests that are made before a transform's arithmetic.
ghost use Rattle.std.specs.Prelude.{◌≡◌};
ghost use Rattle.transform.specs.Meaning.{sided, within, residuals, shorts};
ghost use Rattle.transform.specs.Outcome.{shaped, judged, passed};

use crate::fault::Fault;

// Whether a side is 4, 8, 16 or 32.
pub fn is_side(side: usize) -> bool
    ensures { result ≡ sided side }
{
    side == 4 || side == 8 || side == 16 || side == 32
}

pub(crate) fn is_shaped(side: usize, given: usize, room: usize) -> bool
    ensures { result ≡ shaped side given room }
{
    is_side(side) && given == side * side && room == side * side
}

fn are_within(xs: &[i32], low: i32, high: i32) -> bool
    ensures { result ≡ within low high xs.now }
{
    for x in xs {
        if *x < low || *x > high {
            return false;
        }
    }
    true
}

// Each is named after a definition, and its contract ties it to that; the walk over the values is one.
pub(crate) fn are_residuals(xs: &[i32]) -> bool
    ensures { result ≡ residuals xs.now }
{
    are_within(xs, -255, 255)
}

pub(crate) fn are_shorts(xs: &[i32]) -> bool
    ensures { result ≡ shorts xs.now }
{
    are_within(xs, -32768, 32767)
}

// The refusal of a call, if any: first for its shape, then for its side and step, then for its values.
pub(crate) fn judge(shape: bool, usable: bool, range: bool) -> Result<(), Fault>
    ensures { result ≡ passed (judged shape usable range) }
{
    if !shape {
        Err(Fault::BadShape)
    } else if !usable {
        Err(Fault::NotUsable)
    } else if !range {
        Err(Fault::OutOfRange)
    } else {
        Ok(())
    }
}
