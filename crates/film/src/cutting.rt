// Cutting a text into lines and fields.
ghost use Rattle.std.specs.Prelude.{◌≡◌, ◌==◌, ◌<◌, ◌^◌, true, false, length, count_by, MatchResult};
ghost use Rattle.std.specs.List.{position};
ghost use Rattle.film.specs.Fields.{cut_at, cut_seen, begun, fields};

use crate::fault::Fault;

pub(crate) const TAB: u8 = 9;

pub(crate) const NEWLINE: u8 = 10;

// Where the first `byte` stands.
fn find(text: &[u8], byte: u8) -> Option<usize>
    ensures { result ≡ position (λ x. x == byte) text.now }
{
    text.iter().position(|b| *b == byte)
}

// What stands before the first `byte`, and what after it.
#[tactic(auto, using(crate::proofs::Places::cut_position, std::proofs::lemmas::List::take_rest))]
pub(crate) fn cut<'a>(text: &'a [u8], byte: u8) -> Option<(&'a [u8], &'a [u8])>
    ensures { cut_seen result ≡ cut_at byte text.now }
{
    let i = find(text, byte)?;
    Some((&text[..i], &text[i + 1..]))
}

// How many tabs a text has, by a loop that the compiler turns into steps of many bytes: `filter` and `count` go byte by
// byte.
fn count_tabs(text: &[u8]) -> usize
    ensures { result ≡ count_by (λ x. x == 9) text.now }
{
    let mut count = 0;
    for byte in text {
        count += usize::from(*byte == TAB);
    }
    count
}

// The fields of what follows a letter, one after another. The library's `split` of a slice would do, but for its closure,
// whose type no struct can name.
#[derive(Clone, Copy)]
pub(crate) struct Fields<'a> {
    // What is left: nothing, or a tab before each field.
    rest: &'a [u8],
    // So that a count of the fields fits.
    ghost fits: { length (fields rest.now) < 2 ^ 64 },
}

impl<'a> Fields<'a> {
    // What follows a letter is nothing, or begins with a tab.
    #[tactic(auto, using(crate::proofs::Splits::fields_no_longer))]
    pub(crate) fn new(tail: &'a [u8]) -> Result<Fields<'a>, Fault>
        ensures { MatchResult result
            (λ fs. (begun tail.now ≡ true) × (fs.rest.now ≡ tail.now)) (λ e. (begun tail.now ≡ false) × (e ≡ Fault.BadLine)) }
    {
        match tail {
            [] | [TAB, ..] => Ok(Fields { rest: tail }),
            _ => Err(Fault::BadLine),
        }
    }

    // How many are left: one more with each tab behind the first byte. So they are counted without being cut.
    pub(crate) fn len(&self) -> usize
        ensures { result ≡ length (fields self.now.rest.now) }
    {
        match self.rest.split_first() {
            None => 0,
            Some((_, text)) => 1 + count_tabs(text),
        }
    }
}

impl<'a> Iterator for Fields<'a> {
    ghost use Rattle.std.specs.Iterator.{YieldsFirstRef, item_count};
    ghost use Rattle.film.specs.Fields.{fields};

    type Item = &'a [u8];

    ghost next_gives = { YieldsFirstRef (λ s. fields s.rest.now) };

    ghost remaining = { item_count (λ s. fields s.rest.now) };

    #[tactic(auto, using(crate::proofs::Splits::next_fields))]
    fn next(&mut self) -> Option<&'a [u8]> {
        let (_, text) = self.rest.split_first()?;
        let (field, rest) = text.split_at(find(text, TAB).unwrap_or(text.len()));
        self.rest = rest;
        Some(field)
    }
}
