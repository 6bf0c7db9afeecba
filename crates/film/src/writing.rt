// Writing lines into lent memory. Each writer puts one line at a place and answers the place behind it; what stands
// before and behind the line stays. The length of each line is known first, so a caller can refuse before it writes; the
// bounds `few` are there so that lengths can be added. Memory and place are lent apart, and not as a cursor of the
// caller's, so that the clauses speak of the memory alone. The two leaf lines have a loop each: a level has a position
// and is left out where it is 0, a sample has neither. Lengths are added in loops: after `map` and `sum` three goals stay
// open where a loop has its invariant. A position's cast is proved to lose nothing, since a block is asked to have at most
// 65,536 places; a type for such a block would be asked of every caller.
ghost use Rattle.std.specs.Prelude.{◌≡◌, ◌+◌, ◌*◌, ◌≤◌, true, length, flat_map, sum_by};
ghost use Rattle.transform.specs.Meaning.{shorts};
ghost use Rattle.film.specs.Fields.{letter_m, letter_q};
ghost use Rattle.film.specs.Standards.{name_of};
ghost use Rattle.film.specs.Texts.{setting, square, split, levels, raw, text_of, of_setting, cell_text, Put};
ghost use Rattle.film.specs.Writing.{tabbed_text, line_text, widest};
ghost use Rattle.film.specs.Films.{ReadsBack, ReadsAt};

use crate::cursor::Cursor;
use crate::cutting::NEWLINE;
use crate::field::Field;
use crate::setting::Setting;
use crate::standard::Standard;

// How long the line of a setting is.
#[tactic(auto, using(crate::proofs::Writes::length_fields))]
pub fn setting_len(setting: Setting) -> usize
    ensures is { result ≡ length (text_of (of_setting setting)) }
    ensures few { result ≤ 30 }
{
    line_len(&setting_fields(setting.standard, setting.step, setting.tolerance))
}

// Writes `M name step tolerance`.
pub fn write_setting(setting: Setting, out: &mut [u8], at: usize) -> usize
    requires { at + length (text_of (of_setting setting)) ≤ length out.old }
    ensures put { Put at (text_of (of_setting setting)) out.old result out.new }
    ensures back { ReadsBack (of_setting setting) }
    ensures found { ReadsAt (of_setting setting) at result out.new }
{
    let fields = setting_fields(setting.standard, setting.step, setting.tolerance);
    let mut cursor = Cursor { out, at };
    cursor.put_line(b'M', &fields);
    cursor.at
}

// How long the line that opens a square is.
#[tactic(auto, using(crate::proofs::Writes::length_fields))]
pub fn square_len(column: u16, row: u16) -> usize
    ensures is { result ≡ length (text_of (square column row)) }
    ensures few { result ≤ 30 }
{
    line_len(&square_fields(column, row))
}

// Writes `Q column row`.
pub fn write_square(column: u16, row: u16, out: &mut [u8], at: usize) -> usize
    requires { at + length (text_of (square column row)) ≤ length out.old }
    ensures put { Put at (text_of (square column row)) out.old result out.new }
    ensures back { ReadsBack (square column row) }
    ensures found { ReadsAt (square column row) at result out.new }
{
    let mut cursor = Cursor { out, at };
    cursor.put_line(b'Q', &square_fields(column, row));
    cursor.at
}

// How long the line of a split is.
#[tactic(auto, using(crate::proofs::Writes::length_fields, crate::proofs::Writes::text_split))]
pub fn split_len() -> usize
    ensures { result ≡ length (text_of split) }
{
    line_len(&[])
}

// Writes `S`.
pub fn write_split(out: &mut [u8], at: usize) -> usize
    requires { at + length (text_of split) ≤ length out.old }
    ensures put { Put at (text_of split) out.old result out.new }
    ensures back { ReadsBack split }
    ensures found { ReadsAt split at result out.new }
{
    let mut cursor = Cursor { out, at };
    cursor.put_line(b'S', &[]);
    cursor.at
}

// How long the line of a transform leaf is.
pub fn levels_len(block: &[i32]) -> usize
    requires { length block.now ≤ 65536 }
    ensures is { result ≡ length (text_of (levels block.now)) }
    ensures few { result ≤ 2 + 23 * length block.now }
{
    let mut size = 2;
    for (i, &level) in block.iter().enumerate() {
        size += cell_len(i as u16, level);
    }
    size
}

// Writes `T` and the pairs of position and level, for the levels that are not 0. A level outside 16 bits is written like
// any other, but no reader takes it.
pub fn write_levels(block: &[i32], out: &mut [u8], at: usize) -> usize
    requires few { length block.now ≤ 65536 }
    requires room { at + length (text_of (levels block.now)) ≤ length out.old }
    ensures put { Put at (text_of (levels block.now)) out.old result out.new }
    ensures back { shorts block.now ≡ true → ReadsBack (levels block.now) }
    ensures found { shorts block.now ≡ true → ReadsAt (levels block.now) at result out.new }
{
    let mut cursor = Cursor { out, at };
    cursor.put(b'T');
    for (i, &level) in block.iter().enumerate() {
        cursor.put_cell(i as u16, level);
    }
    cursor.put(NEWLINE);
    cursor.at
}

// How long the line of a raw leaf is.
pub fn samples_len(samples: &[u8]) -> usize
    requires { length samples.now ≤ 65536 }
    ensures is { result ≡ length (text_of (raw samples.now)) }
    ensures few { result ≤ 2 + 11 * length samples.now }
{
    let mut size = 2;
    for &sample in samples {
        size += Field::Number(sample.into()).len();
    }
    size
}

// Writes `R` and the samples.
pub fn write_samples(samples: &[u8], out: &mut [u8], at: usize) -> usize
    requires { at + length (text_of (raw samples.now)) ≤ length out.old }
    ensures put { Put at (text_of (raw samples.now)) out.old result out.new }
    ensures back { ReadsBack (raw samples.now) }
    ensures found { ReadsAt (raw samples.now) at result out.new }
{
    let mut cursor = Cursor { out, at };
    cursor.put(b'R');
    for &sample in samples {
        cursor.put_field(Field::Number(sample.into()));
    }
    cursor.put(NEWLINE);
    cursor.at
}

// The fields of a setting's line.
#[tactic(auto, unfolding(crate::specs::Texts::text_of))]
fn setting_fields(standard: Standard, step: u16, tolerance: u16) -> [Field; 3]
    ensures text { text_of (setting (name_of standard) step tolerance) ≡ line_text letter_m result }
    ensures few { sum_by widest result ≤ 28 }
{
    [
        Field::Name(standard),
        Field::Number(step),
        Field::Number(tolerance),
    ]
}

// The fields of the line that opens a square.
#[tactic(auto, unfolding(crate::specs::Texts::text_of))]
fn square_fields(column: u16, row: u16) -> [Field; 2]
    ensures text { text_of (square column row) ≡ line_text letter_q result }
    ensures few { sum_by widest result ≤ 28 }
{
    [Field::Number(column), Field::Number(row)]
}

// How long the line of these fields is. The bound lets lengths be added; a type of few fields would say no more.
fn line_len(fields: &[Field]) -> usize
    requires { sum_by widest fields.now ≤ 28 }
    ensures is { result ≡ 2 + length (flat_map tabbed_text fields.now) }
    ensures few { result ≤ 2 + sum_by widest fields.now }
{
    2 + fields_len(fields)
}

// How long the fields of one cell are: none where its level is 0.
fn cell_len(position: u16, level: i32) -> usize
    ensures is { result ≡ length (cell_text position level) }
    ensures few { result ≤ 23 }
{
    if level == 0 {
        return 0;
    }
    fields_len(&[Field::Number(position), Field::Level(level)])
}

// How long fields are, each with a tab before it.
fn fields_len(fields: &[Field]) -> usize
    requires { sum_by widest fields.now ≤ 28 }
    ensures is { result ≡ length (flat_map tabbed_text fields.now) }
    ensures few { result ≤ sum_by widest fields.now }
{
    let mut size = 0;
    for field in fields {
        size += field.len();
    }
    size
}
