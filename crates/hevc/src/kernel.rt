// A one-dimensional kernel: its sides, its matrix at each, and exact products with all columns of a block at once.
ghost use Rattle.std.specs.Prelude.{◌≡◌, ℕ, ◌*◌, ◌≤◌, Bool, true, length, unsigned_abs};
ghost use Rattle.exact.specs.Sums.{Matrix, product, transposed, Bounded};
ghost use Rattle.exact.specs.Blocks.{at, block};
ghost use Rattle.hevc.specs.Limits.{entry_limit, input_limit};

use crate::side::Side;

// Nothing here scales, clips or rounds: that is written once, above every kernel. Entries are at most 90 in magnitude, so
// that products of legal blocks fit 32 bits at every side. Blocks are slices whose length is asked for: a method with a const
// parameter for the length of an array gets no proof, and with the parameter on the trait `Hevc` would owe a bound for
// each of four areas. Side, block and room for the product are three parameters: with a struct that holds the `&mut`
// each clause would have to say as well that it is still the same memory.
pub trait Kernel {
    ghost served: { Self → ℕ → Bool };

    ghost matrix: { Self → ℕ → Matrix };

    // Whether the kernel has this side.
    fn serves(&self, side: usize) -> bool
        ensures { result ≡ served self.now side };

    // The transposed matrix times a block of numbers of 16 bits.
    fn multiply_transposed(&self, side: Side, given: &[i32], out: &mut [i32])
        requires side { served self.now side.len ≡ true }
        requires len { (length given.now ≡ side.len * side.len) × (length out.old ≡ side.len * side.len) }
        requires small { Bounded 32768 given.now }
        ensures { out.new ≡ block side.len (product side.len (transposed (matrix self.now side.len)) (at side.len given.now)) };

    // The matrix times a block of residuals, or times such a product.
    fn multiply(&self, side: Side, given: &[i32], out: &mut [i32])
        requires side { served self.now side.len ≡ true }
        requires len { (length given.now ≡ side.len * side.len) × (length out.old ≡ side.len * side.len) }
        requires small { Bounded input_limit given.now }
        ensures { out.new ≡ block side.len (product side.len (matrix self.now side.len) (at side.len given.now)) };

    ghost entries: { (k : Self) (side i j : ℕ) → unsigned_abs (matrix k side i j) ≤ entry_limit };
}
