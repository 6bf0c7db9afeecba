// What is done to the sums of a pass.
ghost use Rattle.std.specs.Prelude.{◌≡◌, ◌<◌, ◌≤◌, ℤ, pos, ◌+ℤ◌, unsigned_abs};
ghost use Rattle.exact.specs.Rounding.{clip16 as clipped, floor_shift, nearest as nearest_to};
ghost use Rattle.hevc.specs.Limits.{sum_limit};

use exact::{clip16, nearest, round_shift};

// What is done to each sum of a pass.
pub(crate) trait Rounding {
    ghost rounded: { Self → ℤ → ℤ };

    fn round(&self, sum: i32) -> i32
        requires { unsigned_abs sum ≤ sum_limit }
        ensures { result ≡ rounded self.now sum };
}

// After the columns: plus 64, >> 7, clipped to 16 bits.
#[derive(Clone, Copy)]
pub(crate) struct AfterColumns;

impl Rounding for AfterColumns {
    ghost rounded = { λ _ z. clipped (floor_shift (z +ℤ pos 64) 7) };

    fn round(&self, sum: i32) -> i32 {
        clip16(round_shift(sum, 7))
    }
}

// After the rows: plus 2,048, >> 12.
#[derive(Clone, Copy)]
pub(crate) struct AfterRows;

impl Rounding for AfterRows {
    ghost rounded = { λ _ z. floor_shift (z +ℤ pos 2048) 12 };

    fn round(&self, sum: i32) -> i32 {
        round_shift(sum, 12)
    }
}

// Between the two exact products: nothing.
#[derive(Clone, Copy)]
pub(crate) struct Unrounded;

impl Rounding for Unrounded {
    ghost rounded = { λ _ z. z };

    fn round(&self, sum: i32) -> i32 {
        sum
    }
}

// After the exact products: the nearest level.
#[derive(Clone, Copy)]
pub(crate) struct ToLevels {
    pub(crate) divisor: u32,
    ghost some: { 0 < divisor },
}

impl Rounding for ToLevels {
    ghost rounded = { λ t z. nearest_to z t.divisor };

    #[tactic(auto, using(crate::proofs::Terms::level_fits, crate::proofs::Terms::level_back))]
    fn round(&self, sum: i32) -> i32 {
        // A level fits again: the cast is proved to lose nothing.
        nearest(sum.into(), self.divisor.into()) as i32
    }
}
