// Cases read from text: a standard's name, a side, a step, the nonzero levels as `position:level` with rising positions,
// `|`, and side times side rebuilt values by rows or the single field `none`. Fields are parted by one tab.
ghost use Rattle.std.specs.Prelude.{◌≡◌, true, pos, IfOk, ◌≢◌, vec_items};
ghost use Rattle.std.specs.Option.{option_map};
ghost use Rattle.transform.specs.Meaning.{sided};
ghost use Rattle.vectors.specs.Agreement.{Fills, Whole};

use crate::case::Case;
use film::{Standard, UnknownStandard};
use std::alloc::{AllocError, AllocFailed, Global};
use std::num::ParseIntError;
use transform::is_side;

// Why there is no case.
#[derive(Debug, Drop)]
pub(crate) enum Misread {
    // The line is not in the form of a case.
    Form,
    // There is no memory to hold the case.
    Memory,
}

impl From<AllocError> for Misread {
    fn from(_e: AllocError) -> Misread {
        Misread::Memory
    }
}

impl<T: Drop> From<AllocFailed<T>> for Misread {
    fn from(_e: AllocFailed<T>) -> Misread {
        Misread::Memory
    }
}

impl From<ParseIntError> for Misread {
    fn from(_e: ParseIntError) -> Misread {
        Misread::Form
    }
}

impl From<UnknownStandard> for Misread {
    fn from(_e: UnknownStandard) -> Misread {
        Misread::Form
    }
}

// A position and a nonzero level.
fn read_pair(text: &str) -> Result<(usize, i32), Misread>
    ensures { IfOk result (λ p. p.1 ≢ pos 0) }
{
    let (position, level) = text.split_once(':').ok_or(Misread::Form)?;
    let pair = (position.parse::<usize>()?, level.parse::<i32>()?);
    if pair.1 == 0 {
        return Err(Misread::Form);
    }
    Ok(pair)
}

// Writes the levels of `pairs` into a block of zeros, each past the one before.
fn read_levels(pairs: &str, levels: &mut [i32]) -> Result<(), Misread> {
    let mut free = 0;
    for text in pairs.split('\t') {
        let (position, level) = read_pair(text)?;
        if position < free || position >= levels.len() {
            return Err(Misread::Form);
        }
        levels[position] = level;
        free = position + 1;
    }
    Ok(())
}

fn read_values(heap: Global, text: &str) -> Result<Vec<i32>, Misread> {
    text.split('\t')
        .map(|value| -> Result<i32, Misread> { Ok(value.parse::<i32>()?) })
        .try_collect(heap)
}

fn read_expected(heap: Global, area: usize, text: &str) -> Result<Option<Vec<i32>>, Misread>
    ensures { IfOk result (λ e. Fills area (option_map vec_items e)) }
{
    if text == "none" {
        return Ok(None);
    }
    let values = read_values(heap, text)?;
    if values.len() != area {
        return Err(Misread::Form);
    }
    Ok(Some(values))
}

fn read_side(text: &str) -> Result<usize, Misread>
    ensures { IfOk result (λ side. sided side ≡ true) }
{
    let side = text.parse::<usize>()?;
    if is_side(side) {
        Ok(side)
    } else {
        Err(Misread::Form)
    }
}

// The step, and the levels of the pairs after it, written into a block of zeros.
fn read_step(text: &str, levels: &mut [i32]) -> Result<u32, Misread> {
    match text.split_once('\t') {
        Some((step, pairs)) => {
            read_levels(pairs, levels)?;
            Ok(step.parse::<u32>()?)
        }
        None => Ok(text.parse::<u32>()?),
    }
}

pub(crate) fn read_case(heap: Global, line: &str) -> Result<Case, Misread>
    ensures { IfOk result Whole }
{
    let (given, expected) = line.split_once("\t|\t").ok_or(Misread::Form)?;
    let (name, rest) = given.split_once('\t').ok_or(Misread::Form)?;
    let (side, rest) = rest.split_once('\t').ok_or(Misread::Form)?;
    let standard = Standard::try_from(name.as_bytes())?;
    let side = read_side(side)?;
    let mut levels = vec![in heap; 0; side * side]?;
    let step = read_step(rest, levels.as_mut_slice())?;
    let expected = read_expected(heap, side * side, expected)?;
    Ok(Case {
        standard,
        side,
        step,
        levels,
        expected,
    })
}

#[cfg(test)]
mod tests {
    use super::*;
    use std::test::Fail;

    #[test]
    fn pairs_are_read(rt: HostRuntime) {
        assert!(rt; matches!(read_pair("5:-18"), Ok((5, -18))));
        assert!(rt; read_pair("5:0").is_err(), "a level of 0 is not written");
        assert!(rt; read_pair("5:2147483648").is_err(), "a level past 32 bits");
    }

    #[test]
    fn positions_rise(rt: HostRuntime) {
        let mut levels = [0; 16];
        assert!(rt; read_levels("3:7\t15:-1", &mut levels).is_ok());
        assert!(rt; levels[3] == 7 && levels[15] == -1);
        assert!(rt; read_levels("3:7\t3:1", &mut levels).is_err());
        assert!(rt;
            read_levels("16:1", &mut levels).is_err(),
            "outside the block"
        );
    }

    #[test]
    fn a_case_without_pairs_is_read(rt: HostRuntime) -> Result<(), Fail> {
        let case = read_case(rt.alloc(), "VC1\t4\t7\t|\tnone")?;
        assert!(rt; case.step == 7 && case.levels.len() == 16);
        assert!(rt; case.expected.is_none());
        Ok(())
    }
}
