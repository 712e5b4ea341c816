// The comparer's entries over two programs, over framed input, and over a reply; those that explain are in `explanations`, those of
// many pairs in `batches`.
use crate::explanations::say_sums;
use crate::memory::fill;
use crate::numbers::{Args, low_byte, refused, say};
use crate::{batches, explanations};
use comparer::reply::{Reply, Side};
use comparer::{LINE_BYTES, Line};
use reader::fields::pair;

pub(crate) fn called(rt: &impl Print, entry: usize, x: Args, s: &[u8]) {
    match entry {
        31 | 32 | 34 | 38 | 40 | 43 | 44 => {
            compared(rt, entry, x, s);
        }
        33 => {
            say_line(rt, comparer::line_of(reply_of(x)));
        }
        _ => {
            others(rt, entry, x, s);
        }
    }
}

fn others(rt: &impl Print, entry: usize, x: Args, s: &[u8]) {
    if entry < 39 {
        explanations::called(rt, entry, x, s);
    } else if entry < 43 {
        batches::called(rt, entry, x, s);
    } else {
        refused(rt);
    }
}

// The words that fill each memory again and again come before the bytes.
fn compared(rt: &impl Print, entry: usize, x: Args, s: &[u8]) {
    let k = x.f;
    if k > s.len() / 4 {
        refused(rt);
        return;
    }
    let words = &s[0..4 * k];
    let mut left_list = [0u32; 33000];
    let mut right_list = [0u32; 33000];
    let mut cells = [0u32; 33000];
    let mut terms = [0u32; 33000];
    fill(&mut left_list, words, k);
    fill(&mut right_list, words, k);
    fill(&mut cells, words, k);
    fill(&mut terms, words, k);
    lent(
        rt,
        entry,
        x,
        &s[4 * k..],
        &mut left_list,
        &mut right_list,
        &mut cells,
        &mut terms,
    );
}

// So many words of each.
fn lent(
    rt: &impl Print,
    entry: usize,
    x: Args,
    s: &[u8],
    left_list: &mut [u32],
    right_list: &mut [u32],
    cells: &mut [u32],
    terms: &mut [u32],
) {
    let one = x.b;
    let other = x.c;
    let third = x.d;
    let fourth = x.e;
    if one > left_list.len() {
        refused(rt);
        return;
    }
    if other > right_list.len() {
        refused(rt);
        return;
    }
    if third > cells.len() {
        refused(rt);
        return;
    }
    if fourth > terms.len() {
        refused(rt);
        return;
    }
    entered(
        rt,
        entry,
        x.a,
        s,
        &mut left_list[0..one],
        &mut right_list[0..other],
        &mut cells[0..third],
        &mut terms[0..fourth],
    );
}

fn entered(
    rt: &impl Print,
    entry: usize,
    n: usize,
    s: &[u8],
    left_list: &mut [u32],
    right_list: &mut [u32],
    cells: &mut [u32],
    terms: &mut [u32],
) {
    if entry == 40 {
        batches::entered(rt, s, left_list, right_list, cells, terms);
        return;
    }
    if entry == 43 {
        masked(rt, s, left_list, right_list, cells, terms);
        return;
    }
    if entry >= 34 {
        explanations::entered(rt, entry, n, s, left_list, right_list, cells, terms);
        return;
    }
    if n > s.len() {
        refused(rt);
        return;
    }
    say_reply(rt, reply(entry, n, s, left_list, right_list, cells, terms));
    say_sums(rt, left_list, right_list, cells, terms);
}

// A mask stands before framed input.
fn masked(
    rt: &impl Print,
    s: &[u8],
    left_list: &mut [u32],
    right_list: &mut [u32],
    cells: &mut [u32],
    terms: &mut [u32],
) {
    if s.len() < 2 {
        refused(rt);
        return;
    }
    let mask = pair(s[0], s[1]);
    say_reply(
        rt,
        comparer::compare_input_masked(&s[2..], mask, left_list, right_list, cells, terms),
    );
    say_sums(rt, left_list, right_list, cells, terms);
}

// The left has n bytes of `s`, the right the others; framed input is all of `s`.
fn reply(
    entry: usize,
    n: usize,
    s: &[u8],
    left_list: &mut [u32],
    right_list: &mut [u32],
    cells: &mut [u32],
    terms: &mut [u32],
) -> Reply {
    if entry == 32 {
        return comparer::compare_input(s, left_list, right_list, cells, terms);
    }
    if n > s.len() {
        return Reply::Equal(0);
    }
    comparer::compare_programs(&s[0..n], &s[n..], left_list, right_list, cells, terms)
}

pub(crate) fn say_reply(rt: &impl Print, reply: Reply) {
    match reply {
        Reply::Equal(n) => {
            say(rt, 0);
            say(rt, n);
        }
        Reply::Differs(a, e) => {
            say(rt, 1);
            say(rt, a);
            say(rt, e);
        }
        Reply::Refused(side, k, p) => {
            say(rt, 2);
            say_side(rt, side);
            say(rt, usize::from(k));
            say(rt, p);
        }
    }
}

pub(crate) fn say_side(rt: &impl Print, side: Side) {
    match side {
        Side::Left => {
            say(rt, 0);
        }
        Side::Right => {
            say(rt, 1);
        }
        Side::Both => {
            say(rt, 2);
        }
        Side::Input => {
            say(rt, 3);
        }
    }
}

pub(crate) fn say_line(rt: &impl Print, line: Line) {
    let bytes = line.bytes;
    say(rt, line.len);
    say_bytes(rt, &bytes);
}

fn reply_of(x: Args) -> Reply {
    match x.a % 3 {
        0 => Reply::Equal(x.b),
        1 => Reply::Differs(x.b, x.c),
        _ => Reply::Refused(side_of(x.d % 4), low_byte(x.e), x.f),
    }
}

pub(crate) fn side_of(n: usize) -> Side {
    match n {
        0 => Side::Left,
        1 => Side::Right,
        2 => Side::Both,
        _ => Side::Input,
    }
}

fn say_bytes(rt: &impl Print, bytes: &[u8; LINE_BYTES]) {
    for byte in bytes {
        say(rt, usize::from(*byte));
    }
}
