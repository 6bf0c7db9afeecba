// Lent memory, and the place in it at which the next byte is written.
ghost use Rattle.std.specs.Prelude.{[], ◌∷◌, flat_map, decimal};
ghost use Rattle.std.specs.Fmt.{signed_decimal};
ghost use Rattle.film.specs.Texts.{cell_text};
ghost use Rattle.film.specs.Writing.{tabbed_text, line_text, HasRoom, Puts};

use crate::cutting::{NEWLINE, TAB};
use crate::field::{Field, digits};
use itoa::write_digits;

#[derive(Drop)]
pub(crate) struct Cursor<'a> {
    pub(crate) out: &'a mut [u8],
    pub(crate) at: usize,
}

impl Cursor<'_> {
    // One byte.
    pub(crate) fn put(&mut self, byte: u8)
        requires { HasRoom (byte ∷ []) self.old }
        ensures { Puts (byte ∷ []) self.old self.new }
    {
        self.out[self.at] = byte;
        self.at += 1;
    }

    // Bytes as they are.
    fn put_bytes(&mut self, bytes: &[u8])
        requires { HasRoom bytes.now self.old }
        ensures { Puts bytes.now self.old self.new }
    {
        let end = self.at + bytes.len();
        self.out[self.at..end].copy_from_slice(bytes);
        self.at = end;
    }

    // A tab and a field.
    pub(crate) fn put_field(&mut self, field: Field)
        requires { HasRoom (tabbed_text field) self.old }
        ensures { Puts (tabbed_text field) self.old self.new }
    {
        self.put(TAB);
        match field {
            Field::Name(standard) => self.put_bytes(standard.name()),
            Field::Number(number) => self.put_digits(number.into()),
            Field::Level(level) => self.put_level(level),
        }
    }

    // The digits of a level, with a minus before them where it is negative.
    fn put_level(&mut self, level: i32)
        requires { HasRoom (signed_decimal level) self.old }
        ensures { Puts (signed_decimal level) self.old self.new }
    {
        if level < 0 {
            self.put(b'-');
            self.put_digits(level.unsigned_abs());
        } else {
            self.put_digits(level.unsigned_abs());
        }
    }

    // The digits of a number, written where they end.
    fn put_digits(&mut self, n: u32)
        requires { HasRoom (decimal n) self.old }
        ensures { Puts (decimal n) self.old self.new }
    {
        let end = self.at + digits(n);
        write_digits(n.into(), self.out, end);
        self.at = end;
    }

    // Fields, each with a tab before it.
    fn put_fields(&mut self, fields: &[Field])
        requires { HasRoom (flat_map tabbed_text fields.now) self.old }
        ensures { Puts (flat_map tabbed_text fields.now) self.old self.new }
    {
        for &field in fields {
            self.put_field(field);
        }
    }

    // A letter, its fields and the line's end.
    pub(crate) fn put_line(&mut self, letter: u8, fields: &[Field])
        requires { HasRoom (line_text letter fields.now) self.old }
        ensures { Puts (line_text letter fields.now) self.old self.new }
    {
        self.put(letter);
        self.put_fields(fields);
        self.put(NEWLINE);
    }

    // The position and level of one cell, if its level is not 0.
    pub(crate) fn put_cell(&mut self, position: u16, level: i32)
        requires { HasRoom (cell_text position level) self.old }
        ensures { Puts (cell_text position level) self.old self.new }
    {
        if level != 0 {
            self.put_fields(&[Field::Number(position), Field::Level(level)]);
        }
    }
}
