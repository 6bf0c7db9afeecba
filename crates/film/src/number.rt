// Numbers in fields. A cast here loses nothing, which is proved; `try_from` would add an answer that no field gets.
ghost use Rattle.std.specs.Prelude.{◌≡◌, ◌≢◌, ◌<◌, ◌≤◌, pos, IfOk, IfSome, MatchOption};
ghost use Rattle.film.specs.Faults.{or_bad_field};
ghost use Rattle.film.specs.Numbers.{number_below, number_in, level_in, position_in, OneForm, OneSignedForm};

use crate::fault::Fault;

// One more than the greatest number of a film.
const LIMIT: usize = 65536;

// One more than the greatest level; the least is as far below 0.
const LEVELS: usize = 32768;

// One more than the greatest sample.
const SAMPLES: usize = 256;

// The number that a field writes. It and a sample are each one call of `number_below` with its limit; the types differ.
#[tactic(auto, using(crate::proofs::Numerals::one_form))]
pub fn read_number(field: &[u8]) -> Result<u16, Fault>
    ensures is { result ≡ or_bad_field (number_in field.now) }
    ensures form { OneForm result field.now }
{
    let number = number_below(field, LIMIT).ok_or(Fault::BadField)?;
    Ok(number as u16)
}

// The level that a field writes: not 0, of 16 bits, and with a minus only where it is negative.
pub fn read_level(field: &[u8]) -> Result<i32, Fault>
    ensures is { result ≡ or_bad_field (level_in field.now) }
    ensures form { OneSignedForm result field.now }
{
    level_in(field).ok_or(Fault::BadField)
}

fn level_in(field: &[u8]) -> Option<i32>
    ensures { result ≡ level_in field.now }
{
    match field {
        [b'-', digits @ ..] => unless_zero(-(number_below(digits, LEVELS + 1)? as i32)),
        _ => unless_zero(number_below(field, LEVELS)? as i32),
    }
}

// A level is not 0.
fn unless_zero(level: i32) -> Option<i32>
    ensures { MatchOption result (level ≡ pos 0) (λ z. (z ≡ level) × (level ≢ pos 0)) }
{
    if level == 0 { None } else { Some(level) }
}

// The position that a field writes, from `from` on and below `count`: two numbers and no range, since the one changes from
// pair to pair and the other does not.
pub(crate) fn read_position(field: &[u8], from: usize, count: usize) -> Result<usize, Fault>
    ensures is { result ≡ or_bad_field (position_in from count field.now) }
    ensures within { IfOk result (λ p. p < count) }
{
    number_below(field, count.min(LIMIT))
        .filter(|position| *position >= from)
        .ok_or(Fault::BadField)
}

// The sample that a field writes.
pub(crate) fn read_sample(field: &[u8]) -> Result<u8, Fault>
    ensures { result ≡ or_bad_field (number_below 256 field.now) }
{
    let sample = number_below(field, SAMPLES).ok_or(Fault::BadField)?;
    Ok(sample as u8)
}

// The number below `limit` whose decimal form is the field. The library's `parse` takes a plus and leading zeros.
fn number_below(field: &[u8], limit: usize) -> Option<usize>
    requires { limit ≤ 65536 }
    ensures is { result ≡ number_below limit field.now }
    ensures below { IfSome result (λ n. n < limit) }
{
    if field.is_empty() || field.len() > 5 {
        return None;
    }
    if let [b'0', _, ..] = field {
        return None;
    }
    let mut number = 0;
    for byte in field {
        number = number * 10 + char::from(*byte).to_digit(10)? as usize;
    }
    if number < limit { Some(number) } else { None }
}
