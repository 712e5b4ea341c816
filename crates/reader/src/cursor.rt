// The bytes of a program and a place in them, kept together. Each function is thin, and leaves work to a plain function of `fields`.
ghost use Rattle.std.specs.Prelude.{◌≡◌, ◌-◌, length};
ghost use Rattle.reader.specs.Field.{field, i16};
ghost use Rattle.reader.specs.Answers.{read_says};
ghost use Rattle.reader.specs.Places.{bytes_in, standing};

use crate::fields::{Read, Width, i16_at, left_at, number_at};

#[derive(Clone, Copy)]
pub struct Reader<'a> {
    src: &'a [u8],
    at: usize,
}

impl<'a> Reader<'a> {
    // At the first byte.
    pub fn new(src: &'a [u8]) -> Reader<'a>
        ensures { result ≡ standing src.entry 0 }
    {
        Reader { src, at: 0 }
    }

    pub fn place(self) -> usize
        ensures { result ≡ self.entry.at }
    {
        self.at
    }

    // How many bytes are left, 0 where the place lies behind the last.
    pub fn left(self) -> usize
        ensures { result ≡ length self.entry.src.now - self.entry.at }
    {
        left_at(self.src, self.at)
    }

    // The next field, unsigned.
    pub fn number(self, width: Width) -> Read<usize>
        ensures { read_says result ≡ field (bytes_in width) self.entry.src.now self.entry.at }
    {
        number_at(self.src, self.at, width)
    }

    // The next field, two bytes of two's complement.
    pub fn signed(self) -> Read<i16>
        ensures { read_says result ≡ i16 self.entry.src.now self.entry.at }
    {
        i16_at(self.src, self.at)
    }

    // At another place of the same bytes, as the one past a field.
    pub fn moved(self, at: usize) -> Reader<'a>
        ensures { result ≡ standing self.entry.src at }
    {
        Reader { src: self.src, at }
    }
}

// The field of so many bytes that stands at a place.
pub fn field_at(s: &[u8], at: usize, width: Width) -> Read<usize>
    ensures { read_says result ≡ field (bytes_in width) s.now at }
{
    Reader::new(s).moved(at).number(width)
}
