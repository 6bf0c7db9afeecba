// The cosine kernel of HEVC by plain matrix sums.
ghost use Rattle.std.specs.Prelude.{◌≡◌, ◌*◌, ◌<◌, ◌≤◌, length, ◌*ℤ◌, unsigned_abs};
ghost use Rattle.exact.specs.Sums.{product, Bounded};
ghost use Rattle.exact.specs.Blocks.{at, block};
ghost use Rattle.transform.specs.Meaning.{sided};
ghost use Rattle.hevc.specs.Cosine.{first, cosine32, cosine, turned_if};
ghost use Rattle.hevc.specs.Limits.{input_limit, term_limit};
ghost use Rattle.hevc.specs.Entries.{cosine_abs};

use crate::kernel::Kernel;
use crate::side::Side;
use transform::is_side;

// The numbers of the first column, by row.
const FIRST_COLUMN: [i32; 32] = [
    64, 90, 90, 90, 89, 88, 87, 85, 83, 82, 80, 78, 75, 73, 70, 67, 64, 61, 57, 54, 50, 46, 43, 38,
    36, 31, 25, 22, 18, 13, 9, 4,
];

#[tactic(auto, unfolding(crate::specs::Cosine::first))]
fn first_of(t: usize) -> i32
    requires { t < 32 }
    ensures { result ≡ first t }
{
    FIRST_COLUMN[t]
}

// Row k, column n of the 32-point matrix.
#[tactic(auto, using(crate::proofs::Terms::entries), unfolding(crate::specs::Cosine::cosine32))]
fn entry32(k: usize, n: usize) -> i32
    requires { (k < 32) × (n < 32) }
    ensures { result ≡ cosine32 k n }
{
    if k == 0 {
        return 64;
    }
    let angle = (2 * n + 1) * k % 128;
    let t = if angle > 64 { 128 - angle } else { angle };
    if t < 32 {
        first_of(t)
    } else if t > 32 {
        -first_of(64 - t)
    } else {
        0
    }
}

// The product of a side's matrix, or of its transpose, and a block.
#[derive(Clone, Copy)]
struct Product<'a> {
    side: Side,
    // In which order an entry's two indices are read: no more than a flag, so it is no type.
    turned: bool,
    given: &'a [i32],
    ghost many: { length given.now ≡ side.len * side.len },
    ghost small: { Bounded input_limit given.now },
}

impl Product<'_> {
    // Row i, column j of the matrix. A row and a column are two parameters with their bounds, as in the definitions: a pair
    // that holds the bounds would be made anew for each entry and each term.
    fn entry(&self, i: usize, j: usize) -> i32
        requires { (i < self.now.side.len) × (j < self.now.side.len) }
        ensures { result ≡ turned_if self.now.turned (cosine self.now.side.len) i j }
    {
        if self.turned {
            entry32(j * (32 / self.side.len), i)
        } else {
            entry32(i * (32 / self.side.len), j)
        }
    }

    // Row i, column k of the matrix times row k, column j of the block.
    #[tactic(auto, using(crate::proofs::Terms::terms))]
    fn term(&self, i: usize, j: usize, k: usize) -> i32
        requires { (i < self.now.side.len) × (j < self.now.side.len) × (k < self.now.side.len) }
        ensures value { let n = self.now.side.len in result ≡ turned_if self.now.turned (cosine n) i k *ℤ at n self.now.given.now k j }
        ensures small { unsigned_abs result ≤ term_limit }
    {
        self.entry(i, k) * self.given[k * self.side.len + j]
    }

    // Row i of the matrix times column j of the block. The index k is a column of the one and a row of the other, so it is
    // counted.
    #[tactic(auto, using(crate::proofs::Terms::sums))]
    fn sum(&self, i: usize, j: usize) -> i32
        requires { (i < self.now.side.len) × (j < self.now.side.len) }
        ensures { let n = self.now.side.len in result ≡ product n (turned_if self.now.turned (cosine n)) (at n self.now.given.now) i j }
    {
        let mut sum = 0;
        for k in 0..self.side.len {
            sum += self.term(i, j, k);
        }
        sum
    }

    // The whole product, whose length is asked for, as a kernel asks. Its two callers say which matrix, and inlined it need
    // not ask again for each entry.
    #[inline(always)]
    #[tactic(auto, using(crate::proofs::Places::places))]
    fn write(&self, out: &mut [i32])
        requires { length out.old ≡ self.now.side.len * self.now.side.len }
        ensures { let n = self.now.side.len in out.new ≡ block n (product n (turned_if self.now.turned (cosine n)) (at n self.now.given.now)) }
    {
        for (place, number) in out.iter_mut().enumerate() {
            let (i, j) = self.side.row_and_column(place);
            *number = self.sum(i, j);
        }
    }
}

// The cosine kernel, each entry of a product summed as it is defined.
#[derive(Clone, Copy)]
pub struct MatrixSums;

impl Kernel for MatrixSums {
    ghost served = { λ _. sided };

    ghost matrix = { λ _. cosine };

    ghost entries = { λ k side i j. cosine_abs _ _ };

    fn serves(&self, side: usize) -> bool {
        is_side(side)
    }

    fn multiply_transposed(&self, side: Side, given: &[i32], out: &mut [i32]) {
        let transposed = Product {
            side,
            turned: true,
            given,
        };
        transposed.write(out);
    }

    fn multiply(&self, side: Side, given: &[i32], out: &mut [i32]) {
        let straight = Product {
            side,
            turned: false,
            given,
        };
        straight.write(out);
    }
}
