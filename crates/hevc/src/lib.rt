// The HEVC transform: levels rebuilt and chosen over any one-dimensional kernel.
#![tactic(auto)]

ghost use Rattle.std.specs.Prelude.{◌≡◌, ◌∷◌, length, replicate, pos, negsuc, slice_index_or};
ghost use Rattle.std.specs.Result.{result_unwrap_or};
ghost use Rattle.transform.specs.Meaning.{only_at};
ghost use Rattle.transform.specs.Outcome.{choosing, rebuilding, answered};
ghost use Rattle.hevc.specs.Hevc.{rules_of, hevc, WorkedExamples};
ghost use Rattle.transform.specs.Serving.{only_sound};
ghost use Rattle.hevc.specs.Laws.{rules_sound};

mod cosine;
mod factor;
mod kernel;
mod passes;
mod rounding;
mod scaling;
mod side;

pub use cosine::MatrixSums;
use exact::nearest;
use factor::{KernelAt, Transposed};
pub use kernel::Kernel;
use passes::pass;
use rounding::{AfterColumns, AfterRows, Unrounded};
use scaling::Scaling;
pub use side::Side;
use transform::{Fault, Mode, Transform};

// The number of HEVC among the standards.
pub const STANDARD: u32 = 0;

// HEVC over a kernel, at steps 0 to 51 and at the sides that the kernel serves. It serves no other standard's number.
#[derive(Clone, Copy)]
pub struct Hevc<K> {
    kernel: K,
}

impl<K> Hevc<K> {
    pub fn new(kernel: K) -> Self
        ensures { result ≡ record { kernel = kernel } }
    {
        Hevc { kernel }
    }
}

impl<K: Kernel> Transform for Hevc<K> {
    ghost meaning = { λ t. only_at 0 (rules_of (K.Kernel.served t.kernel) (K.Kernel.matrix t.kernel)) };

    ghost sound = { λ t standard. only_sound 0 _ standard (rules_sound _ _ (K.Kernel.entries t.kernel)) };

    fn is_usable(&self, mode: Mode) -> bool {
        mode.standard == STANDARD && self.kernel.serves(mode.side) && mode.step <= 51
    }

    #[tactic(auto, using(crate::proofs::TwoPasses::ways))]
    fn choose_legal(&self, mode: Mode, residual: &[i32], levels: &mut [i32]) {
        let side = Side { len: mode.side };
        let matrix = KernelAt {
            kernel: &self.kernel,
            side,
        };
        let rounding = Scaling {
            side,
            step: mode.step,
        }
        .to_levels();
        levels.copy_from_slice(residual);
        pass(&matrix, &Unrounded, levels);
        pass(&matrix, &rounding, levels);
    }

    #[tactic(auto, using(crate::proofs::TwoPasses::ways))]
    fn rebuild_legal(&self, mode: Mode, levels: &[i32], residual: &mut [i32]) -> Option<()> {
        let side = Side { len: mode.side };
        let matrix = Transposed(KernelAt {
            kernel: &self.kernel,
            side,
        });
        residual.copy_from_slice(levels);
        Scaling {
            side,
            step: mode.step,
        }
        .scale_all(residual);
        pass(&matrix, &AfterColumns, residual);
        pass(&matrix, &AfterRows, residual);
        Some(())
    }
}

// HEVC's mode at a side and a step.
fn mode(side: usize, step: u32) -> Mode
    ensures { result ≡ record { standard = 0; side = side; step = step } }
{
    Mode {
        standard: STANDARD,
        side,
        step,
    }
}

// The levels that HEVC chooses for a residual block, by plain matrix sums. A refusal leaves `levels` as it was.
pub fn choose(side: usize, step: u32, residual: &[i32], levels: &mut [i32]) -> Result<(), Fault>
    ensures answer { result ≡ answered (choosing hevc side step residual.now (length levels.old)) }
    ensures block { levels.new ≡ result_unwrap_or (choosing hevc side step residual.now (length levels.old)) levels.old }
{
    Hevc::new(MatrixSums).choose(mode(side, step), residual, levels)
}

// The residual block that HEVC rebuilds from levels, by plain matrix sums. A refusal leaves `residual` as it was.
pub fn rebuild(side: usize, step: u32, levels: &[i32], residual: &mut [i32]) -> Result<(), Fault>
    ensures answer { result ≡ answered (rebuilding hevc 0 side step levels.now (length residual.old)) }
    ensures block { residual.new ≡ result_unwrap_or (rebuilding hevc 0 side step levels.now (length residual.old)) residual.old }
{
    Hevc::new(MatrixSums).rebuild(mode(side, step), levels, residual)
}

// The first residual rebuilt at side 4 and step 4 where only the first level is set.
fn rebuilt_first(level: i32) -> i32
    ensures { result ≡ slice_index_or (result_unwrap_or (rebuilding hevc 0 4 4 (level ∷ replicate 15 (pos 0)) 16) (replicate 16 (pos 0))) 0 (pos 0) }
{
    let mut levels = [0; 16];
    levels[0] = level;
    let mut residual = [0; 16];
    let _ = rebuild(4, 4, &levels, &mut residual);
    residual[0]
}

// Cases worked by hand: at side 4 and step 4 the first level 1 rebuilds 0 and 2 rebuilds 1; 3/2 and -3/2 are nearest to 1
// and -1. The contract shows them of the definitions, together.
pub fn worked_examples() -> (i32, i32, i64, i64)
    ensures examples { WorkedExamples }
    ensures value { (result.0 ≡ pos 0) × (result.1 ≡ pos 1) × (result.2 ≡ pos 1) × (result.3 ≡ negsuc 0) }
{
    (
        rebuilt_first(1),
        rebuilt_first(2),
        nearest(3, 2),
        nearest(-3, 2),
    )
}
