// The fields of lines that are written.
ghost use Rattle.std.specs.Prelude.{◌≡◌, ◌<◌, ◌≤◌, length, decimal};
ghost use Rattle.film.specs.Writing.{tabbed_text, widest};

use crate::standard::Standard;

#[derive(Clone, Copy)]
pub(crate) enum Field {
    Name(Standard),
    Number(u16),
    Level(i32),
}

impl Field {
    // How long it is with the tab before it.
    pub(crate) fn len(self) -> usize
        ensures is { result ≡ length (tabbed_text self) }
        ensures few { result ≤ widest self }
    {
        match self {
            Field::Name(standard) => 1 + standard.name().len(),
            Field::Number(number) => 1 + digits(number.into()),
            Field::Level(level) if level < 0 => 2 + digits(level.unsigned_abs()),
            Field::Level(level) => 1 + digits(level.unsigned_abs()),
        }
    }
}

// How many digits a number has. A logarithm to base ten says it too, but for the short numbers of a film its steps take
// longer than these.
pub(crate) fn digits(n: u32) -> usize
    ensures is { result ≡ length (decimal n) }
    ensures few { result ≤ 10 }
    ensures short { n < 65536 → result ≤ 5 }
{
    if n < 10 { 1 } else { 1 + digits(n / 10) }
}
