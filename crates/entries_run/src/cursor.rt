// The methods of `Reader`, on one that stands at any place.
ghost use Rattle.std.specs.Prelude.{◌≡◌, ◌-◌, length};
ghost use Rattle.reader.specs.Field.{i16};
ghost use Rattle.reader.specs.Answers.{read_says};

use reader::cursor::Reader;
use reader::fields::Read;

pub(crate) fn place_at(s: &[u8], at: usize) -> usize
    ensures { result ≡ at }
{
    Reader::new(s).moved(at).place()
}

pub(crate) fn left_at(s: &[u8], at: usize) -> usize
    ensures { result ≡ length s.now - at }
{
    Reader::new(s).moved(at).left()
}

pub(crate) fn signed_at(s: &[u8], at: usize) -> Read<i16>
    ensures { read_says result ≡ i16 s.now at }
{
    Reader::new(s).moved(at).signed()
}
