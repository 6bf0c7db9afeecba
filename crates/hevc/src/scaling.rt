// Levels scaled to coefficients, and the rounding back to levels. A cast here is proved to lose nothing; `try_from` would
// add a case that never comes.
ghost use Rattle.std.specs.Prelude.{◌≡◌, ◌*◌, ◌≤◌, map, unsigned_abs};
ghost use Rattle.exact.specs.Sums.{Bounded};
ghost use Rattle.hevc.specs.Scaling.{scale, log2, coefficient};

use crate::rounding::ToLevels;
use crate::side::Side;
use exact::{clip16, round_shift};

// The scaling numbers, by the remainder of the step by 6.
const SCALES: [u32; 6] = [40, 45, 51, 57, 64, 72];

// The scaling at a side and a step.
#[derive(Clone, Copy)]
pub(crate) struct Scaling {
    pub(crate) side: Side,
    pub(crate) step: u32,
    ghost low: { step ≤ 51 },
}

impl Scaling {
    // The scaling number of the step.
    #[tactic(auto, using(crate::specs::Scales::scale_coded))]
    fn scale(self) -> u32
        ensures value { result ≡ scale self.step }
        ensures range { (40 ≤ result) × (result ≤ 14592) }
    {
        SCALES[(self.step % 6) as usize] * (1 << (self.step / 6))
    }

    // A level scaled. The factor 16 of the standard's product and of its shift cancel, so that the product fits 32 bits.
    #[tactic(auto, using(crate::proofs::Terms::scaled))]
    fn coefficient(self, level: i32) -> i32
        requires { unsigned_abs level ≤ 32768 }
        ensures { result ≡ coefficient (log2 self.side.len) (scale self.step) level }
    {
        clip16(round_shift(level * self.scale() as i32, self.side.log() - 1))
    }

    // Levels, each scaled in its place.
    #[tactic(auto, using(crate::proofs::Terms::mapped))]
    pub(crate) fn scale_all(self, cells: &mut [i32])
        requires { Bounded 32768 cells.old }
        ensures { cells.new ≡ map (coefficient (log2 self.side.len) (scale self.step)) cells.old }
    {
        for cell in cells.iter_mut() {
            *cell = self.coefficient(*cell);
        }
    }

    // The rounding to levels.
    pub(crate) fn to_levels(self) -> ToLevels
        ensures { result.divisor ≡ 64 * self.side.len * scale self.step }
    {
        ToLevels {
            divisor: 64 * self.side.len as u32 * self.scale(),
        }
    }
}
