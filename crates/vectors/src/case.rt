// A case: the levels of a block under a standard, and the block that they are expected to rebuild to.
ghost use Rattle.std.specs.Prelude.{◌≡◌};
ghost use Rattle.film.specs.Standards.{number_of};

use film::Standard;
use transform::Mode;

#[derive(Drop)]
pub(crate) struct Case {
    pub(crate) standard: Standard,
    pub(crate) side: usize,
    pub(crate) step: u32,
    pub(crate) levels: Vec<i32>,
    // None where nothing is to be rebuilt from the levels.
    pub(crate) expected: Option<Vec<i32>>,
}

impl Case {
    // How its block is coded.
    pub(crate) fn mode(&self) -> Mode
        ensures { result ≡ record { standard = number_of self.now.standard; side = self.now.side; step = self.now.step } }
    {
        Mode {
            standard: self.standard.into(),
            side: self.side,
            step: self.step,
        }
    }
}
