// Shows one residual block through the HEVC transform: its levels at a fine and at a coarse step, what they rebuild to, and
// what is refused.
#![tactic(auto)]

ghost use Rattle.std.specs.Prelude.{◌≡◌};

mod refusals;
mod steps;

use hevc::{Hevc, MatrixSums};
use refusals::show_refusals;
use std::io;
use steps::{Rows, show_step};
use transform::Mode;

// The side of the block that is shown.
const SIDE: usize = 8;

// What a prediction missed along a bright diagonal edge, by rows: bright above it, dark below, smooth on either side.
const EDGE: [[i32; SIDE]; SIDE] = [
    [12, 118, 113, 104, 99, 91, 86, 78],
    [-87, 16, 120, 111, 102, 97, 88, 83],
    [-79, -85, 17, 115, 108, 99, 94, 85],
    [-70, -77, -83, 15, 110, 105, 96, 91],
    [-63, -67, -75, -80, 19, 107, 102, 93],
    [-54, -61, -65, -73, -78, 18, 106, 97],
    [-45, -52, -59, -63, -71, -75, 21, 101],
    [-38, -43, -50, -57, -61, -69, -74, 22],
];

// How the block is coded at a step.
fn at_step(step: u32) -> Mode
    ensures { result ≡ record { standard = 0; side = 8; step = step } }
{
    Mode {
        standard: hevc::STANDARD,
        side: SIDE,
        step,
    }
}

// The edge's rows, one after the other.
fn edge() -> [i32; 64] {
    let mut block = [0; 64];
    block.copy_from_slice(EDGE.as_flattened());
    block
}

fn main(rt: HostRuntime) -> io::Result<()> {
    let transform = Hevc::new(MatrixSums);
    let block = edge();
    print!(rt; "The residual block\n{}", Rows(&block))?;
    show_step(&rt, &transform, 22, &block)?;
    show_step(&rt, &transform, 37, &block)?;
    show_refusals(&rt, &transform, block)
}
