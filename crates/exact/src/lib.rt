// Exact arithmetic that every transform rests on: clipping, rounding and the nearest quotient.
#![tactic(auto)]

ghost use Rattle.std.specs.Prelude.{◌≡◌, ℕ, ◌+◌, ◌-◌, ◌*◌, ◌^◌, ◌<◌, ◌≤◌, ℤ, pos, negsuc, ◌-ℤ◌, ◌*ℤ◌, ◌≤ℤ◌, unsigned_abs};
ghost use Rattle.exact.specs.Rounding.{clip16, floor_shift, round_shift, halves_down, nearest, Closest};

// Clipped to 16 bits: never farther from a number of 16 bits than v was.
pub fn clip16(v: i32) -> i32
    ensures value { result ≡ clip16 v }
    ensures nearer { (b : ℤ) → negsuc 32767 ≤ℤ b → b ≤ℤ pos 32767 → unsigned_abs (result -ℤ b) ≤ unsigned_abs (v -ℤ b) }
{
    v.clamp(-32768, 32767)
}

// v divided by 2 to the power of k, half of it added first, rounded down: at most half a step away.
pub fn round_shift(v: i32, k: u32) -> i32
    requires power { (1 ≤ k) × (k ≤ 12) }
    requires sum { unsigned_abs v ≤ 2147481599 }
    ensures value { result ≡ round_shift v k }
    ensures half { unsigned_abs (pos (2 ^ k) *ℤ result -ℤ v) ≤ 2 ^ (k - 1) }
{
    shift_down(v + (1 << (k - 1)), k)
}

// v divided by 2 to the power of k, rounded down.
fn shift_down(v: i32, k: u32) -> i32
    requires { k < 32 }
    ensures { result ≡ floor_shift v k }
{
    v >> k
}

// The whole number nearest to y / d, halves toward zero, and no other number is that.
pub fn nearest(y: i64, d: u64) -> i64
    requires divisor { (0 < d) × (d < 2 ^ 62) }
    requires dividend { unsigned_abs y < 2 ^ 62 }
    ensures value { result ≡ nearest y d }
    ensures closest { Closest y d result }
    ensures only { (z : ℤ) → Closest y d z → z ≡ result }
{
    // The cast is proved to lose nothing; `try_from` would add a case that never comes.
    let magnitude = halves_down(y.unsigned_abs(), d) as i64;
    if y < 0 { -magnitude } else { magnitude }
}

// The whole number nearest to a / d, halves down.
fn halves_down(a: u64, d: u64) -> u64
    requires divisor { (0 < d) × (d < 2 ^ 62) }
    requires dividend { a < 2 ^ 62 }
    ensures { result ≡ halves_down a d }
{
    (2 * a + (d - 1)) / (2 * d)
}
