// What no clause says: interrupted reads are tried again, up to `AGAIN` times.
use crate::{AGAIN, ReadFailed, fill};
use std::io;
use std::io::{ErrorKind, Read};

// So many reads are interrupted; then bytes come one by one, from this one down to 1, and behind them the end or a failure.
#[derive(Drop)]
struct Fake {
    interrupts: usize,
    byte: u8,
    fails: bool,
}

impl Read for Fake {
    fn read(&mut self, buf: &mut [u8]) -> io::Result<usize> {
        if self.interrupts > 0 {
            self.interrupts -= 1;
            return Err(io::Error::from(ErrorKind::Interrupted));
        }
        if self.byte == 0 {
            if self.fails {
                return Err(io::Error::from(ErrorKind::Other));
            }
            return Ok(0);
        }
        if buf.is_empty() {
            return Ok(0);
        }
        buf[0] = self.byte;
        self.byte -= 1;
        Ok(1)
    }
}

// What is said of a slice of four, and what it holds.
fn filled(interrupts: usize, byte: u8, fails: bool) -> (Result<usize, ReadFailed>, u32) {
    let mut buf = [0u8; 4];
    let mut input = Fake {
        interrupts,
        byte,
        fails,
    };
    let read = fill(&mut input, &mut buf);
    (read, u32::from_be_bytes(buf))
}

fn failed(read: usize) -> Result<usize, ReadFailed> {
    Err(ReadFailed { read })
}

#[test]
fn ends_and_failures(rt: HostRuntime) {
    assert_eq!(rt; filled(0, 3, false), (Ok(3), 0x03020100));
    assert_eq!(rt; filled(0, 5, false), (Ok(4), 0x05040302));
    assert_eq!(rt; filled(0, 3, true), (failed(3), 0x03020100));
    assert_eq!(rt; filled(0, 4, true), (Ok(4), 0x04030201));
}

#[test]
fn interrupted_reads(rt: HostRuntime) {
    assert_eq!(rt; filled(AGAIN - 1, 4, false), (Ok(4), 0x04030201));
    assert_eq!(rt; filled(AGAIN, 4, false), (failed(0), 0));
    assert_eq!(rt; filled(3, 1, true), (failed(1), 0x01000000));
}
