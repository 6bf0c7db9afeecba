// One pass over a block, in place, over any factor and any rounding.
ghost use Rattle.std.specs.Prelude.{◌≡◌, ◌*◌, length};
ghost use Rattle.exact.specs.Sums.{Bounded};
ghost use Rattle.hevc.specs.Passes.{passed};

use crate::factor::Factor;
use crate::rounding::Rounding;

// The block times a factor, each sum rounded, and rows turned into columns. The block is the caller's slice, so that its
// length is asked for, as a kernel asks.
pub(crate) fn pass<F: Factor, R: Rounding>(factor: &F, rounding: &R, cells: &mut [i32])
    requires len { length cells.old ≡ F.len factor.now * F.len factor.now }
    requires small { Bounded (F.limit factor.now) cells.old }
    ensures { cells.new ≡ passed (R.rounded rounding.now) (F.factor factor.now) (F.len factor.now) cells.old }
{
    // Nothing is allocated, and an array's size is a constant: so the side chooses among four.
    match factor.side().len {
        4 => pass_by::<F, R, 16>(factor, rounding, cells),
        8 => pass_by::<F, R, 64>(factor, rounding, cells),
        16 => pass_by::<F, R, 256>(factor, rounding, cells),
        _ => pass_by::<F, R, 1024>(factor, rounding, cells),
    }
}

// The same with scratch for AREA sums, no larger than the block.
#[tactic(auto, using(crate::proofs::Places::places, crate::proofs::TwoPasses::passed_is))]
fn pass_by<F: Factor, R: Rounding, const AREA: usize>(factor: &F, rounding: &R, cells: &mut [i32])
    requires len { (length cells.old ≡ F.len factor.now * F.len factor.now) × (AREA ≡ F.len factor.now * F.len factor.now) }
    requires small { Bounded (F.limit factor.now) cells.old }
    ensures { cells.new ≡ passed (R.rounded rounding.now) (F.factor factor.now) (F.len factor.now) cells.old }
{
    let mut sums = [0; AREA];
    factor.multiply(cells, &mut sums);
    let side = factor.side();
    for (place, cell) in cells.iter_mut().enumerate() {
        let (i, j) = side.row_and_column(place);
        *cell = rounding.round(sums[j * side.len + i]);
    }
}
