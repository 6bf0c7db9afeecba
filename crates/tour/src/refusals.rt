// What a transform refuses, each time by a number, and with the levels left as they were.
use crate::at_step;
use std::io;
use transform::Transform;

// What stands in the levels before a call.
const UNTOUCHED: [i32; 64] = [7; 64];

// Asks for the levels of residuals at a step, and prints what comes of it.
fn show_refusal<T: Transform>(
    rt: &impl Print,
    transform: &T,
    what: &str,
    step: u32,
    residual: &[i32],
) -> io::Result<()> {
    let mut levels = UNTOUCHED;
    match transform.choose(at_step(step), residual, &mut levels) {
        Ok(()) => println!(rt; "{what}: not refused"),
        Err(fault) => {
            let number = fault.number();
            let left = if levels == UNTOUCHED {
                "left as they were"
            } else {
                "changed"
            };
            println!(rt; "{what}: refused with {number}, the levels {left}")
        }
    }
}

pub(crate) fn show_refusals<T: Transform>(
    rt: &impl Print,
    transform: &T,
    mut block: [i32; 64],
) -> io::Result<()> {
    println!(rt; "\nRefusals")?;
    show_refusal(rt, transform, "A block of 65 values", 22, &[0; 65])?;
    show_refusal(rt, transform, "The block at step 52", 52, &block)?;
    block[63] = 256;
    show_refusal(
        rt,
        transform,
        "The block with a residual of 256",
        22,
        &block,
    )
}
