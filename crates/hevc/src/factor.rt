// What multiplies a block in a pass.
ghost use Rattle.std.specs.Prelude.{◌≡◌, ℕ, ◌*◌, ◌≤◌, true, length, unsigned_abs};
ghost use Rattle.std.proofs.Common.{lit≤};
ghost use Rattle.exact.specs.Sums.{Matrix, product, transposed, Bounded};
ghost use Rattle.exact.specs.Blocks.{at, block};
ghost use Rattle.hevc.specs.Limits.{entry_limit, input_limit};

use crate::kernel::Kernel;
use crate::side::Side;

// A matrix of a known side.
pub(crate) trait Factor {
    ghost len: { Self → ℕ };

    ghost factor: { Self → Matrix };

    // How large the numbers may be that it multiplies, in magnitude.
    ghost limit: { Self → ℕ };

    fn side(&self) -> Side
        ensures { result.len ≡ len self.now };

    // The matrix times a block. Lengths are asked for, as a kernel asks.
    fn multiply(&self, given: &[i32], out: &mut [i32])
        requires len { (length given.now ≡ len self.now * len self.now) × (length out.old ≡ len self.now * len self.now) }
        requires small { Bounded (limit self.now) given.now }
        ensures { out.new ≡ block (len self.now) (product (len self.now) (factor self.now) (at (len self.now) given.now)) };

    ghost entries: { (f : Self) (i j : ℕ) → unsigned_abs (factor f i j) ≤ entry_limit };

    ghost limited: { (f : Self) → limit f ≤ input_limit };
}

// A kernel at a side that it serves: its matrix.
#[derive(Drop)]
pub(crate) struct KernelAt<'a, K: Kernel> {
    pub(crate) kernel: &'a K,
    pub(crate) side: Side,
    ghost served: { K.served kernel.now side.len ≡ true },
}

impl<'a, K: Kernel> Factor for KernelAt<'a, K> {
    ghost len = { λ f. f.side.len };

    ghost factor = { λ f. K.Kernel.matrix f.kernel.now f.side.len };

    ghost limit = { λ _. input_limit };

    ghost entries = { λ f i j. K.Kernel.entries f.kernel.now f.side.len i j };

    ghost limited = { λ f. lit≤ tt };

    fn side(&self) -> Side {
        self.side
    }

    fn multiply(&self, given: &[i32], out: &mut [i32]) {
        self.kernel.multiply(self.side, given, out);
    }
}

// The transpose of that matrix.
#[derive(Drop)]
pub(crate) struct Transposed<'a, K: Kernel>(pub(crate) KernelAt<'a, K>);

impl<'a, K: Kernel> Factor for Transposed<'a, K> {
    ghost len = { λ f. f.0.side.len };

    ghost factor = { λ f. transposed (K.Kernel.matrix f.0.kernel.now f.0.side.len) };

    ghost limit = { λ _. 32768 };

    ghost entries = { λ f i j. K.Kernel.entries f.0.kernel.now f.0.side.len j i };

    ghost limited = { λ f. lit≤ tt };

    fn side(&self) -> Side {
        self.0.side
    }

    fn multiply(&self, given: &[i32], out: &mut [i32]) {
        self.0.kernel.multiply_transposed(self.0.side, given, out);
    }
}
