// The side of a square block.
ghost use Rattle.std.specs.Prelude.{◌≡◌, ◌*◌, ◌/◌, ◌%◌, ◌^◌, ◌<◌, ◌≤◌, true};
ghost use Rattle.transform.specs.Meaning.{sided};
ghost use Rattle.hevc.specs.Scaling.{log2};

// 4, 8, 16 or 32.
#[derive(Clone, Copy)]
pub struct Side {
    pub len: usize,
    ghost known: { sided len ≡ true },
}

impl Side {
    // The base-2 logarithm.
    #[tactic(auto, using(crate::proofs::Logs::log_is, crate::proofs::Logs::log_power))]
    pub(crate) fn log(self) -> u32
        ensures value { result ≡ log2 self.len }
        ensures power { 2 ^ result ≡ self.len }
        ensures range { (2 ≤ result) × (result ≤ 5) }
    {
        self.len.ilog2()
    }

    // The row and the column of a place of a block, which stands row after row. A side is a power of two, so that a shift
    // divides by it.
    pub(crate) fn row_and_column(self, place: usize) -> (usize, usize)
        requires { place < self.len * self.len }
        ensures row { (result.0 ≡ place / self.len) × (result.0 < self.len) }
        ensures column { (result.1 ≡ place % self.len) × (result.1 < self.len) }
    {
        let row = place >> self.log();
        (row, place - row * self.len)
    }
}
