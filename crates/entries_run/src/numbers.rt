// Numbers from the bytes of a record, and numbers on the line.
use model::question::Refusal;
use reader::fields::Read;

// The arguments of an entry; one with fewer leaves the last aside.
#[derive(Clone, Copy)]
pub(crate) struct Args {
    pub a: usize,
    pub b: usize,
    pub c: usize,
    pub d: usize,
    pub e: usize,
    pub f: usize,
}

// The bytes from there on, where they are all there.
fn bytes_at<const N: usize>(s: &[u8], at: usize) -> Option<[u8; N]> {
    Some(*s.get(at..)?.first_chunk()?)
}

// Bytes that are not there count as 0 together.
pub(crate) fn word_at(s: &[u8], at: usize) -> u32 {
    bytes_at(s, at).map_or(0, u32::from_le_bytes)
}

pub(crate) fn number_at(s: &[u8], at: usize) -> usize {
    bytes_at(s, at).map_or(0, usize::from_le_bytes)
}

pub(crate) fn signed_at(s: &[u8], at: usize) -> i16 {
    bytes_at(s, at).map_or(0, i16::from_le_bytes)
}

// Lower bytes of an argument, for entries that take fewer.
pub(crate) fn low_byte(x: usize) -> u8 {
    (x % 256) as u8
}

pub(crate) fn low_pair(x: usize) -> u16 {
    (x % 65536) as u16
}

// The record has not what the entry takes.
pub(crate) fn refused(rt: &impl Print) {
    let _ = print!(rt; " -");
}

pub(crate) fn say(rt: &impl Print, n: usize) {
    let _ = print!(rt; " {n}");
}

pub(crate) fn say_word(rt: &impl Print, n: u32) {
    say(rt, n as usize);
}

pub(crate) fn say_bool(rt: &impl Print, b: bool) {
    say(rt, usize::from(b));
}

pub(crate) fn say_signed(rt: &impl Print, v: i16) {
    let _ = print!(rt; " {v}");
}

pub(crate) fn say_small(rt: &impl Print, v: i8) {
    say_signed(rt, i16::from(v));
}

// A question's number and its place, after the 0 that tells a refusal from an answer.
pub(crate) fn say_refusal(rt: &impl Print, refusal: Refusal) {
    say(rt, 0);
    say(rt, usize::from(u8::from(refusal.question)));
    say(rt, refusal.place);
}

pub(crate) fn say_number(rt: &impl Print, read: Read<usize>) {
    match read {
        Ok((x, next)) => {
            say(rt, 1);
            say(rt, x);
            say(rt, next);
        }
        Err(refusal) => say_refusal(rt, refusal),
    }
}

pub(crate) fn say_signed_number(rt: &impl Print, read: Read<i16>) {
    match read {
        Ok((x, next)) => {
            say(rt, 1);
            say_signed(rt, x);
            say(rt, next);
        }
        Err(refusal) => say_refusal(rt, refusal),
    }
}

pub(crate) fn say_place(rt: &impl Print, place: Result<usize, Refusal>) {
    match place {
        Ok(next) => {
            say(rt, 1);
            say(rt, next);
        }
        Err(refusal) => say_refusal(rt, refusal),
    }
}
