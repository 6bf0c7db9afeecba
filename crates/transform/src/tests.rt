// Every refusal by its number, with the output left as it was.
ghost use Rattle.std.specs.Prelude.{◌&&◌, None, ◌==◌, nat_le, refl};
ghost use Rattle.std.proofs.Math.Nat.{le_trans};
ghost use Rattle.std.proofs.lemmas.Bool.{and_parts, leb-true};
ghost use Rattle.std.proofs.lemmas.Option.{none-some};
ghost use Rattle.transform.specs.Meaning.{only_at};
ghost use Rattle.transform.specs.Ranges.{residuals_shorts};
ghost use Rattle.transform.specs.Serving.{only_sound};

use crate::{Fault, Mode, Transform};

// Standard 7 at side 4 and steps 0 to 3: the levels are the residuals, and nothing is ever rebuilt.
#[derive(Clone, Copy)]
struct Silent;

impl Transform for Silent {
    ghost meaning = { λ _. only_at 7 (record { usable = λ side step. (side == 4) && nat_le step 3; chosen = λ side step xs. xs; rebuilt = λ side step xs. None }) };

    ghost sound = { λ t standard.
        only_sound 7 _ standard (record {
          steps = λ side step u. le_trans (leb-true step 3 (and_parts (side == 4) (nat_le step 3) u).1) (leb-true 3 65535 refl);
          choices = λ side step xs s u l r. record { many = l; small = residuals_shorts xs r };
          rebuilds = λ side step xs ys s u b e. absurd (none-some ys e);
        }) };

    fn is_usable(&self, mode: Mode) -> bool {
        mode.standard == 7 && mode.side == 4 && mode.step <= 3
    }

    fn choose_legal(&self, _mode: Mode, residual: &[i32], levels: &mut [i32]) {
        levels.copy_from_slice(residual);
    }

    fn rebuild_legal(&self, _mode: Mode, _levels: &[i32], _residual: &mut [i32]) -> Option<()> {
        None
    }
}

// The answer, with the number of its refusal.
fn told(answer: Result<(), Fault>) -> Result<(), u8> {
    answer.map_err(|fault| fault.number())
}

const NINES: [i32; 16] = [9; 16];

fn mode(standard: u32, side: usize, step: u32) -> Mode {
    Mode {
        standard,
        side,
        step,
    }
}

fn chosen(mode: Mode, residual: &[i32]) -> (Result<(), u8>, bool) {
    let mut levels = NINES;
    let answer = told(Silent.choose(mode, residual, &mut levels));
    (answer, levels == NINES)
}

fn rebuilt(mode: Mode, levels: &[i32]) -> (Result<(), u8>, bool) {
    let mut residual = NINES;
    let answer = told(Silent.rebuild(mode, levels, &mut residual));
    (answer, residual == NINES)
}

#[test]
fn choosing_refuses_in_order(rt: HostRuntime) {
    assert_eq!(rt; chosen(mode(7, 5, 0), &[0; 25]), (Err(31), true));
    assert_eq!(rt; chosen(mode(7, 4, 0), &[0; 15]), (Err(31), true));
    assert_eq!(rt; chosen(mode(7, 4, 0), &[]), (Err(31), true));
    assert_eq!(rt;
        chosen(mode(7, 8, 0), &[0; 64]),
        (Err(31), true),
        "the output is too short"
    );
    assert_eq!(rt; chosen(mode(6, 4, 0), &[0; 16]), (Err(32), true));
    assert_eq!(rt;
        chosen(mode(7, 4, 4), &[256; 16]),
        (Err(32), true),
        "32 comes before 33"
    );
    assert_eq!(rt; chosen(mode(7, 4, 3), &[256; 16]), (Err(33), true));
    assert_eq!(rt; chosen(mode(7, 4, 3), &[-256; 16]), (Err(33), true));
    assert_eq!(rt; chosen(mode(7, 4, 3), &[-255; 16]), (Ok(()), false));
}

#[test]
fn rebuilding_refuses_in_order(rt: HostRuntime) {
    assert_eq!(rt;
        rebuilt(mode(6, 4, 9), &[40000; 17]),
        (Err(31), true),
        "31 comes first"
    );
    assert_eq!(rt; rebuilt(mode(7, 4, u32::MAX), &[0; 16]), (Err(32), true));
    assert_eq!(rt; rebuilt(mode(7, 4, 0), &[32768; 16]), (Err(33), true));
    assert_eq!(rt; rebuilt(mode(7, 4, 0), &[-32769; 16]), (Err(33), true));
    assert_eq!(rt; rebuilt(mode(7, 4, 0), &[-32768; 16]), (Err(34), true));
}

#[test]
fn nothing_rebuilt_tells_standard_and_side(rt: HostRuntime) {
    let mut residual = NINES;
    let answer = Silent.rebuild(mode(7, 4, 0), &NINES, &mut residual);
    assert_eq!(rt;
        answer,
        Err(Fault::NothingRebuilt {
            standard: 7,
            side: 4,
        })
    );
}
