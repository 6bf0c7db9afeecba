// What a transform is: residual blocks turned into levels, and levels rebuilt to residual blocks.
#![tactic(auto)]

ghost use Rattle.std.specs.Prelude.{◌≡◌, ℕ, true, length, is_some};
ghost use Rattle.std.specs.Option.{unwrap_or as some_or};
ghost use Rattle.std.specs.Result.{result_unwrap_or};
ghost use Rattle.transform.specs.Meaning.{Meaning, Sound, residuals, shorts};
ghost use Rattle.transform.specs.Outcome.{choosing, rebuilding, answered, shaped};

mod checks;
mod fault;
mod mode;
#[cfg(test)]
mod tests;

pub use checks::is_side;
use checks::{are_residuals, are_shorts, is_shaped, judge};
pub use fault::Fault;
pub use mode::Mode;

// A transform is known by its meaning: for each standard's number, side and step, whether they are usable, the levels
// chosen for a residual block, and the residual block rebuilt from levels, or none. Callers use `is_usable`, `choose` and
// `rebuild`, which take any input and refuse what is not legal, in one order for all transforms. An implementation gives
// `is_usable`, `choose_legal` and `rebuild_legal`, the arithmetic alone.
pub trait Transform {
    ghost meaning: { Self → Meaning };

    // Whether the standard has the side and the step.
    fn is_usable(&self, mode: Mode) -> bool
        ensures { result ≡ (meaning self.now mode.standard).usable mode.side mode.step };

    // The levels for residuals that are known to be legal.
    fn choose_legal(&self, mode: Mode, residual: &[i32], levels: &mut [i32])
        requires shape { shaped mode.side (length residual.now) (length levels.old) ≡ true }
        requires usable { (meaning self.now mode.standard).usable mode.side mode.step ≡ true }
        requires range { residuals residual.now ≡ true }
        ensures { levels.new ≡ (meaning self.now mode.standard).chosen mode.side mode.step residual.now };

    // The residuals of levels that are known to be legal; none, and the block as it was, where nothing is rebuilt.
    fn rebuild_legal(&self, mode: Mode, levels: &[i32], residual: &mut [i32]) -> Option<()>
        requires shape { shaped mode.side (length levels.now) (length residual.old) ≡ true }
        requires usable { (meaning self.now mode.standard).usable mode.side mode.step ≡ true }
        requires range { shorts levels.now ≡ true }
        ensures rebuilt { is_some result ≡ is_some ((meaning self.now mode.standard).rebuilt mode.side mode.step levels.now) }
        ensures block { residual.new ≡ some_or ((meaning self.now mode.standard).rebuilt mode.side mode.step levels.now) residual.old };

    // Chooses the levels of a residual block. A refusal leaves `levels` as it was.
    #[tactic(auto, unfolding(crate::specs::Outcome::choosing))]
    fn choose(&self, mode: Mode, residual: &[i32], levels: &mut [i32]) -> Result<(), Fault>
        ensures answer { result ≡ answered (choosing (meaning self.now mode.standard) mode.side mode.step residual.now (length levels.old)) }
        ensures block { levels.new ≡ result_unwrap_or (choosing (meaning self.now mode.standard) mode.side mode.step residual.now (length levels.old)) levels.old }
    {
        let shape = is_shaped(mode.side, residual.len(), levels.len());
        judge(shape, self.is_usable(mode), are_residuals(residual))?;
        self.choose_legal(mode, residual, levels);
        Ok(())
    }

    // Rebuilds a residual block from its levels. A refusal leaves `residual` as it was.
    #[tactic(auto, unfolding(crate::specs::Outcome::rebuilding))]
    fn rebuild(&self, mode: Mode, levels: &[i32], residual: &mut [i32]) -> Result<(), Fault>
        ensures answer { result ≡ answered (rebuilding (meaning self.now mode.standard) mode.standard mode.side mode.step levels.now (length residual.old)) }
        ensures block { residual.new ≡ result_unwrap_or (rebuilding (meaning self.now mode.standard) mode.standard mode.side mode.step levels.now (length residual.old)) residual.old }
    {
        let shape = is_shaped(mode.side, levels.len(), residual.len());
        judge(shape, self.is_usable(mode), are_shorts(levels))?;
        self.rebuild_legal(mode, levels, residual)
            .ok_or(Fault::NothingRebuilt {
                standard: mode.standard,
                side: mode.side,
            })
    }

    ghost sound: { (t : Self) (standard : ℕ) → Sound (meaning t standard) };
}
