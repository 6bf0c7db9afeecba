// Reading lines.
ghost use Rattle.std.specs.Prelude.{◌≡◌, ◌<◌, length, IfOk};
ghost use Rattle.film.specs.Fields.{cut_at, fields};
ghost use Rattle.film.specs.Lines.{m_line, q_line, s_line, parse, parse_seen, cut_line, line_of, line_seen, Joins};
ghost use Rattle.film.specs.Films.{Alone, Counts, line_count};

use crate::cutting::{Fields, NEWLINE, cut};
use crate::fault::Fault;
use crate::line::Line;

// The first line of a text, and the unread rest.
#[tactic(auto, using(crate::proofs::Wholes::read_joins), unfolding(crate::specs::Lines::line_of))]
pub fn read_line<'a>(text: &'a [u8]) -> Result<(Line<'a>, &'a [u8]), Fault>
    ensures is { line_seen result ≡ line_of text.now }
    ensures whole { Joins (line_seen result) text.now }
    ensures shorter { IfOk result (λ p. length p.1.now < length text.now) }
{
    first_line(text)
}

fn first_line<'a>(text: &'a [u8]) -> Result<(Line<'a>, &'a [u8]), Fault>
    ensures { line_seen result ≡ cut_line (cut_at 10 text.now) }
{
    let (line, rest) = cut(text, NEWLINE).ok_or(Fault::Unended)?;
    let line = parse(line)?;
    Ok((line, rest))
}

// A line without its byte 10: one letter, and fields with a tab before each.
fn parse<'a>(line: &'a [u8]) -> Result<Line<'a>, Fault>
    ensures { parse_seen result ≡ parse line.now }
{
    let [letter, tail @ ..] = line else {
        return Err(Fault::BadLine);
    };
    let fields = Fields::new(tail)?;
    match *letter {
        b'M' => parse_setting(fields),
        b'Q' => parse_square(fields),
        b'S' => parse_split(fields),
        b'T' => Ok(Line::Levels { pairs: tail }),
        b'R' => Ok(Line::Raw { samples: tail }),
        _ => Err(Fault::BadLine),
    }
}

// These three ask for their fields one by one: a call that gives N of them as an array, for any N, gets no proof, since
// the borrow checker does not cover an array of borrows that a loop fills.
fn parse_setting<'a>(mut tail: Fields<'a>) -> Result<Line<'a>, Fault>
    ensures { parse_seen result ≡ m_line (fields tail.entry.rest.now) }
{
    let (Some(name), Some(step), Some(tolerance), None) = (
        tail.next(),
        tail.next(),
        tail.next(),
        tail.next(),
    ) else {
        return Err(Fault::BadLine);
    };
    Ok(Line::Setting {
        name,
        step,
        tolerance,
    })
}

fn parse_square<'a>(mut tail: Fields<'a>) -> Result<Line<'a>, Fault>
    ensures { parse_seen result ≡ q_line (fields tail.entry.rest.now) }
{
    let (Some(column), Some(row), None) = (tail.next(), tail.next(), tail.next()) else {
        return Err(Fault::BadLine);
    };
    Ok(Line::Square { column, row })
}

fn parse_split<'a>(mut tail: Fields<'a>) -> Result<Line<'a>, Fault>
    ensures { parse_seen result ≡ s_line (fields tail.entry.rest.now) }
{
    match tail.next() {
        None => Ok(Line::Split),
        Some(_) => Err(Fault::BadLine),
    }
}

// The lines of a text, one after another, up to the first that cannot be read.
#[derive(Drop)]
struct Lines<'a>(&'a [u8]);

impl<'a> Iterator for Lines<'a> {
    ghost use Rattle.std.specs.Prelude.{length};
    ghost use Rattle.std.specs.Iterator.{at_most};
    ghost use Rattle.film.specs.Lines.{ReadsLine};

    type Item = Result<Line<'a>, Fault>;

    ghost next_gives = { λ s r t. ReadsLine s.0.now r t.0.now };

    ghost remaining = { λ s. at_most (length s.0.now) };

    fn next(&mut self) -> Option<Result<Line<'a>, Fault>> {
        if self.0.is_empty() {
            return None;
        }
        match read_line(self.0) {
            Ok((line, more)) => {
                self.0 = more;
                Some(Ok(line))
            }
            Err(fault) => {
                self.0 = &[];
                Some(Err(fault))
            }
        }
    }
}

// How many lines a text has, if each of them can be read; what their fields say is not looked at.
pub fn count_lines(text: &[u8]) -> Result<usize, Fault>
    ensures count { result ≡ line_count (length text.now) text.now }
    ensures lines { Counts text.now result }
    ensures alone { Alone text.now }
{
    // Counted here and not by a fold, whose closure would have to prove that the sum fits.
    let mut count = 0;
    for line in Lines(text) {
        line?;
        count += 1;
    }
    Ok(count)
}
