// The writer's entry, over a list and an output of any contents.
use crate::explanations::say_byte_sum;
use crate::memory::fill;
use crate::numbers::{Args, refused};
use crate::pairs::say_reply;
use comparer::reply::{Reply, Side};
use writer::WriteError;

// The list's words and its period come before what the output holds.
pub(crate) fn called(rt: &impl Print, x: Args, s: &[u8]) {
    let k = x.b;
    if k > s.len() / 4 {
        refused(rt);
        return;
    }
    let mut list = [0u32; 33000];
    let mut out = [0u8; 20000];
    fill(&mut list, &s[0..4 * k], x.c);
    for (byte, held) in out.iter_mut().zip(&s[4 * k..]) {
        *byte = *held;
    }
    lent(rt, &list, x.a, &mut out, x.d);
}

// So many words and bytes.
fn lent(rt: &impl Print, list: &[u32], n: usize, out: &mut [u8], m: usize) {
    if n > list.len() {
        refused(rt);
        return;
    }
    if m > out.len() {
        refused(rt);
        return;
    }
    written(rt, &list[0..n], &mut out[0..m]);
}

fn written(rt: &impl Print, list: &[u32], out: &mut [u8]) {
    say_reply(rt, reply_of(writer::write_file(list, out)));
    say_byte_sum(rt, out);
}

// The file's length takes the place of the number compared.
fn reply_of(answer: Result<usize, WriteError>) -> Reply {
    match answer {
        Ok(n) => Reply::Equal(n),
        Err(WriteError::Short) => Reply::Refused(Side::Both, 25, 0),
        Err(WriteError::Refused) => Reply::Refused(Side::Left, 26, 0),
        Err(WriteError::Wide(update)) => Reply::Refused(Side::Left, 28, update),
        Err(WriteError::Long) => Reply::Refused(Side::Left, 29, 0),
    }
}
