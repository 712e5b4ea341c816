// What the programs share: reading standard input and printing, with a line on standard error where a read or a write fails.
#![tactic(auto)]

ghost use Rattle.std.specs.Prelude.{◌≡◌, ◌≤◌, ◌<◌, length, take, IfOk, IfErr};
ghost use Rattle.std.specs.Io.KnownBytes.{Consumes, IsAtEnd};

use std::fmt;
use std::io::Read;

#[derive(Clone, Copy, Debug, PartialEq, Eq)]
pub enum Failure {
    Read,
    Write,
}

impl fmt::Display for Failure {
    fn fmt<W: fmt::Write>(&self, f: &mut fmt::Formatter<W>) -> fmt::Result {
        match self {
            Failure::Read => write!(f, "a read of standard input failed"),
            Failure::Write => write!(f, "a write to standard output failed"),
        }
    }
}

// Where a program prints, and its name, which its messages begin with.
#[derive(Drop)]
pub struct Console<'a, O, E> {
    pub program: &'a str,
    pub out: &'a O,
    pub err: &'a E,
}

impl<O: Print, E: Eprint> Console<'_, O, E> {
    // As `source::fill`.
    pub fn read<R: Read>(&self, input: &mut R, buf: &mut [u8]) -> Result<usize, Failure>
        ensures within { IfOk result (λ n. n ≤ length buf.new) }
        ensures buf_len_unchanged { length buf.new ≡ length buf.old }
        ensures bytes { IfOk result (λ n. Consumes (R.remaining input.old) (R.remaining input.new) (take n buf.new)
            × (n < length buf.new → IsAtEnd (R.remaining input.new))) }
        ensures failure { IfErr result (λ e. e ≡ Failure.Read) }
    {
        match source::fill(input, buf) {
            Ok(n) => Ok(n),
            Err(_) => Err(self.failed(Failure::Read)),
        }
    }

    pub fn print(&self, bytes: &[u8]) -> Result<(), Failure>
        ensures { IfErr result (λ e. e ≡ Failure.Write) }
    {
        match self.out.write_all(bytes) {
            Ok(()) => Ok(()),
            Err(_) => Err(self.failed(Failure::Write)),
        }
    }

    // Where this write fails too, nothing is left to do.
    fn failed(&self, failure: Failure) -> Failure
        ensures { result ≡ failure }
    {
        let program = self.program;
        let _ = eprintln!(self.err; "{program}: {failure}");
        failure
    }
}
