// A block at one step: its levels, what they rebuild to, and how far that is from the block.
ghost use Rattle.std.specs.Prelude.{min, length, IfOk};
ghost use Rattle.tour.specs.Distances.{Greatest};
ghost use Rattle.tour.specs.Coding.{Codes};

use crate::{SIDE, at_step};
use std::{fmt, io};
use transform::{Fault, Transform};

// A block that is written by rows.
#[derive(Clone, Copy)]
pub(crate) struct Rows<'a>(pub(crate) &'a [i32]);

impl fmt::Display for Rows<'_> {
    fn fmt<W: fmt::Write>(&self, f: &mut fmt::Formatter<W>) -> fmt::Result {
        for row in self.0.chunks(SIDE) {
            for x in row {
                write!(f, "{x:>5}")?;
            }
            writeln!(f)?;
        }
        Ok(())
    }
}

// The greatest distance between two numbers at one place of two blocks.
fn greatest_distance(a: &[i32], b: &[i32]) -> u32
    ensures { Greatest (min (length a.now) (length b.now)) a.now b.now result }
{
    let mut greatest = 0;
    for (x, y) in a.iter().zip(b) {
        greatest = x.abs_diff(*y).max(greatest);
    }
    greatest
}

// The levels of a block at a step, and the block that they rebuild to.
#[derive(Drop)]
struct Coded {
    levels: [i32; 64],
    rebuilt: [i32; 64],
}

fn code<T: Transform>(transform: &T, step: u32, block: &[i32]) -> Result<Coded, Fault>
    ensures { IfOk result (Codes (T.meaning transform.now 0) step block.now) }
{
    let mut levels = [0; 64];
    let mut rebuilt = [0; 64];
    transform.choose(at_step(step), block, &mut levels)?;
    transform.rebuild(at_step(step), &levels, &mut rebuilt)?;
    Ok(Coded { levels, rebuilt })
}

fn print_coded(rt: &impl Print, step: u32, block: &[i32], coded: &Coded) -> io::Result<()> {
    print!(rt; "\nLevels at step {step}\n{}", Rows(&coded.levels))?;
    print!(rt; "\nRebuilt at step {step}\n{}", Rows(&coded.rebuilt))?;
    let distance = greatest_distance(block, &coded.rebuilt);
    println!(rt; "Greatest distance from the block: {distance}")
}

pub(crate) fn show_step<T: Transform>(
    rt: &impl Print,
    transform: &T,
    step: u32,
    block: &[i32],
) -> io::Result<()> {
    match code(transform, step, block) {
        Ok(coded) => print_coded(rt, step, block, &coded),
        Err(fault) => {
            let number = fault.number();
            println!(rt; "\nStep {step} is refused with {number}")
        }
    }
}
