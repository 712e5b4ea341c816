// Reading from an input: its end and a failed read are told apart.
#![tactic(auto)]

ghost use Rattle.std.specs.Prelude.{◌≡◌, ◌≤◌, IfOk, length};
ghost use Rattle.std.specs.Io.KnownBytes.{ReadConsumes};
ghost use Rattle.source.specs.Filled.{Filled};
ghost use Rattle.source.specs.Within.{Within};

use std::io;
use std::io::{ErrorKind, Read};

mod stream;
#[cfg(test)]
mod tests;

pub use stream::{frame, length};

// A read failed behind so many bytes.
#[derive(Clone, Copy, Debug, PartialEq, Eq)]
pub struct ReadFailed {
    pub read: usize,
}

// How often one read is tried while signals interrupt it; then it has failed.
const AGAIN: usize = 1000;

// Reads until buf is full, the input ends or a read fails: how many bytes stand at the start of buf, fewer than it holds only at the
// end. Proved: the count lies within buf, and buf keeps its length; of a reader that says which bytes it has left, that these are put
// into buf in their order, and that fewer than asked means that none is left. Standard input does not say, and no contract tells that
// what is tried again was an interrupted read.
pub fn fill<R: Read>(input: &mut R, buf: &mut [u8]) -> Result<usize, ReadFailed>
    ensures within { Within (length buf.old) result }
    ensures buf_len_unchanged { length buf.new ≡ length buf.old }
    ensures bytes { Filled (R.remaining input.old) (R.remaining input.new) buf.new result }
{
    let mut done = 0;
    while done < buf.len() {
        match read_again(input, &mut buf[done..]) {
            Ok(0) => return Ok(done),
            Ok(more) => done += more,
            Err(_) => return Err(ReadFailed { read: done }),
        }
    }
    Ok(done)
}

// One read, tried again while a signal interrupts it before a byte is there.
fn read_again<R: Read>(input: &mut R, buf: &mut [u8]) -> io::Result<usize>
    ensures bound { IfOk result (λ n. n ≤ length buf.new) }
    ensures buf_len_unchanged { length buf.new ≡ length buf.old }
    ensures bytes { ReadConsumes (R.remaining input.old) (R.remaining input.new) result buf.new }
{
    // No `for`, which ends by itself: that each try is one fewer has a wrong program of its own (again_forever).
    let mut left = AGAIN;
    while left > 0 {
        match input.read(buf) {
            Err(e) if e.kind() == ErrorKind::Interrupted => left -= 1,
            read => return read,
        }
    }
    Err(io::Error::from(ErrorKind::Interrupted))
}
