// Streams of frames: a length of four bytes, the lowest first, and behind it so many bytes. That a read failed is told nowhere: it ends
// a frame, or the stream.
ghost use Rattle.std.specs.Prelude.{◌≡◌, ◌≤◌, length, take, IfSome};
ghost use Rattle.std.specs.Io.KnownBytes.{Consumes};
ghost use Rattle.source.specs.Framed.{Framed, Sized};

use crate::fill;
use std::io::Read;

// How many bytes were put at the start of buf.
fn put<R: Read>(input: &mut R, buf: &mut [u8]) -> usize
    ensures within { result ≤ length buf.new }
    ensures buf_len_unchanged { length buf.new ≡ length buf.old }
    ensures bytes { Consumes (R.remaining input.old) (R.remaining input.new) (take result buf.new) }
{
    match fill(input, buf) {
        Ok(n) => n,
        Err(e) => e.read,
    }
}

// The next four bytes, or none where there are fewer.
pub fn length<R: Read>(input: &mut R) -> Option<u32>
    ensures { Sized (R.remaining input.old) (R.remaining input.new) result }
{
    let mut head = [0u8; 4];
    if put(input, &mut head) < head.len() {
        return None;
    }
    Some(u32::from_le_bytes(head))
}

// How many bytes of the next frame were put at the start of buf, fewer than its length only where the stream ends; none where there is
// no length, or buf has no room for such a frame.
pub fn frame<R: Read>(input: &mut R, buf: &mut [u8]) -> Option<usize>
    ensures within { IfSome result (λ n. n ≤ length buf.new) }
    ensures buf_len_unchanged { length buf.new ≡ length buf.old }
    ensures bytes { Framed (R.remaining input.old) (R.remaining input.new) buf.new result }
{
    let n = length(input)? as usize;
    if buf.len() < n {
        return None;
    }
    Some(put(input, &mut buf[..n]))
}
