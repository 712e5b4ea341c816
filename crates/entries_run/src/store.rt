// The store's entries: a script of calls on one memory, which need not hold a store.
use crate::memory::{fill, say_sum};
use crate::numbers::{Args, refused, say, say_bool, say_word, word_at};
use terms::{InternError, Node, ShortMemory};

// What `put` counts where it refuses, one more than there is room for.
const MORE_TERMS: u32 = 4097;

// The memory's words and its period come before the script.
pub(crate) fn called(rt: &impl Print, x: Args, s: &[u8]) {
    let n = x.a;
    let k = x.b;
    if n > 33000 {
        refused(rt);
        return;
    }
    if k > s.len() / 4 {
        refused(rt);
        return;
    }
    let mut memory = [0u32; 33000];
    fill(&mut memory, &s[0..4 * k], x.c);
    lent(rt, &mut memory, n, &s[4 * k..]);
}

fn lent(rt: &impl Print, memory: &mut [u32], n: usize, script: &[u8]) {
    if n <= memory.len() {
        run(rt, &mut memory[0..n], script);
    }
}

fn run(rt: &impl Print, memory: &mut [u32], script: &[u8]) {
    steps(rt, memory, script);
    say_sum(rt, memory);
}

// Each step has 29 bytes; the count goes from step to step.
fn steps(rt: &impl Print, memory: &mut [u32], script: &[u8]) {
    let mut count: u32 = 0;
    for s in script.chunks(29) {
        count = step(rt, memory, count, s);
    }
}

fn step(rt: &impl Print, memory: &mut [u32], count: u32, s: &[u8]) -> u32 {
    let code = code_of(s);
    if code == 0 {
        model::memory::clear(memory);
        return 0;
    }
    if code < 5 {
        return adding(rt, memory, code, count, s);
    }
    say_start(
        rt,
        terms::is_start(memory, word_at(s, 1), word_at(s, 5), word_at(s, 9)),
    );
    count
}

fn code_of(s: &[u8]) -> usize {
    if s.len() == 0 {
        0
    } else {
        usize::from(s[0]) % 6
    }
}

// With the count so far, or with any.
fn adding(rt: &impl Print, memory: &mut [u32], code: usize, count: u32, s: &[u8]) -> u32 {
    match code {
        1 => interned(rt, memory, count, s),
        2 => interned(rt, memory, word_at(s, 1), s),
        3 => put(rt, memory, count, s),
        _ => put(rt, memory, word_at(s, 1), s),
    }
}

fn node_of(s: &[u8]) -> Node {
    Node {
        kind: word_at(s, 5),
        payload: word_at(s, 9),
        a0: word_at(s, 13),
        a1: word_at(s, 17),
        a2: word_at(s, 21),
        a3: word_at(s, 25),
    }
}

fn interned(rt: &impl Print, memory: &mut [u32], count: u32, s: &[u8]) -> u32 {
    match terms::intern(memory, count, node_of(s)) {
        Ok(k) => {
            say(rt, 1);
            say_word(rt, k.count);
            say_word(rt, k.id);
            k.count
        }
        Err(error) => no(rt, number_of(error), count),
    }
}

fn number_of(error: InternError) -> usize {
    match error {
        InternError::Full => 24,
        InternError::Short => 25,
    }
}

// A question's number; the count stays.
fn no(rt: &impl Print, question: usize, count: u32) -> u32 {
    say(rt, 0);
    say(rt, question);
    count
}

fn put(rt: &impl Print, memory: &mut [u32], count: u32, s: &[u8]) -> u32 {
    let ids = [
        word_at(s, 13),
        word_at(s, 17),
        word_at(s, 21),
        word_at(s, 25),
    ];
    match terms::put(memory, count, word_at(s, 5), word_at(s, 9), ids) {
        Ok(kept) => {
            say_word(rt, kept.count);
            say_word(rt, kept.id);
            kept.count
        }
        Err(error) => {
            say_word(rt, MORE_TERMS);
            say(rt, number_of(error));
            MORE_TERMS
        }
    }
}

fn say_start(rt: &impl Print, start: Result<bool, ShortMemory>) {
    match start {
        Ok(is_start) => {
            say(rt, 1);
            say_bool(rt, is_start);
        }
        Err(ShortMemory) => {
            no(rt, 25, 0);
        }
    }
}
