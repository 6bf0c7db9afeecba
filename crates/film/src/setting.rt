// What is in force at either end: the standard, the step and the tolerance.
ghost use Rattle.std.specs.Prelude.{◌≤◌};

use crate::standard::Standard;

// The greatest tolerance.
const MAX_TOLERANCE: u16 = 255;

#[derive(Clone, Copy, PartialEq, Eq, Debug)]
pub struct Setting {
    pub standard: Standard,
    pub step: u16,
    pub tolerance: u16,
    ghost tolerable: { tolerance ≤ 255 },
}

impl Setting {
    ghost use Rattle.std.specs.Prelude.{◌≡◌};
    ghost use Rattle.film.specs.Settings.{setting, seen, values_of, opening};

    // The setting of three fields, if its tolerance is at most 255.
    pub fn new(standard: Standard, step: u16, tolerance: u16) -> Option<Setting>
        ensures { seen result ≡ setting standard step tolerance }
    {
        if tolerance > MAX_TOLERANCE {
            return None;
        }
        Some(Setting {
            standard,
            step,
            tolerance,
        })
    }

    // What is in force when recorder and player open.
    pub fn opening() -> Setting
        ensures { values_of result ≡ opening }
    {
        Setting {
            standard: Standard::Hevc,
            step: 22,
            tolerance: 8,
        }
    }
}
