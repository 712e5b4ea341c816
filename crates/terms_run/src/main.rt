// Fills the store, asks for every term again, asks for one more; with names in a row, then with names that all fall into one bucket.
#![tactic(auto)]

use model::sizes::{MOST_TERMS, TERM_WORDS};
use terms::{InternError, Kept, Node, ShortMemory};

// The inverse of 129 to the fifth, modulo 2^32: names that go up by it from 0 - 19 have the mixes 0, 1, 2 and so on.
const CROWDED: u32 = 1537457537;

const CROWDED_FIRST: u32 = 4294967277;

fn say(rt: &impl Print, what: &str, n: u32) {
    let _ = println!(rt; "{what} {n}");
}

fn refuse(rt: &impl Print, e: InternError) {
    let question = match e {
        InternError::Full => 24,
        InternError::Short => 25,
    };
    say(rt, "refused", question);
}

fn constant(name: u32) -> Node {
    Node {
        kind: 19,
        payload: name,
        a0: 0,
        a1: 0,
        a2: 0,
        a3: 0,
    }
}

fn ask(rt: &impl Print, memory: &mut [u32], count: u32, name: u32) {
    match terms::intern(memory, count, constant(name)) {
        Ok(kept) => {
            say(rt, "id", kept.id);
            say(rt, "of", kept.count);
        }
        Err(e) => refuse(rt, e),
    }
}

fn put(memory: &mut [u32], count: u32, name: u32) -> Result<Kept, InternError> {
    terms::put(memory, count, 19, name, [0; 4])
}

fn ask_put(rt: &impl Print, memory: &mut [u32], count: u32, name: u32) {
    match put(memory, count, name) {
        Ok(kept) => say(rt, "id", kept.id),
        Err(e) => refuse(rt, e),
    }
}

fn ask_start(rt: &impl Print, memory: &[u32], r: u32, a: u32, c: u32) {
    match terms::is_start(memory, r, a, c) {
        Ok(true) => say(rt, "starts", r),
        Ok(false) => say(rt, "starts not", r),
        Err(ShortMemory) => say(rt, "refused", 25),
    }
}

// 4,096 names, from `first` on and `step` apart; the number of terms then.
fn fill(memory: &mut [u32], first: u32, step: u32) -> Result<u32, InternError> {
    let mut count = 0;
    for k in 0..MOST_TERMS {
        count = put(memory, count, first.wrapping_add(step.wrapping_mul(k)))?.count;
    }
    Ok(count)
}

// How many of these names have the id that they were given.
fn found(memory: &mut [u32], count: u32, first: u32, step: u32) -> Result<u32, InternError> {
    let mut right = 0;
    for k in 0..MOST_TERMS {
        if put(memory, count, first.wrapping_add(step.wrapping_mul(k)))?.id == k + 1 {
            right += 1;
        }
    }
    Ok(right)
}

fn full(
    rt: &impl Print,
    memory: &mut [u32],
    first: u32,
    step: u32,
    next: u32,
) -> Result<(), InternError> {
    model::memory::clear(memory);
    let count = fill(memory, first, step)?;
    say(rt, "stored", count);
    say(rt, "found", found(memory, count, first, step)?);
    ask(rt, memory, count, next);
    say(rt, "still found", found(memory, count, first, step)?);
    Ok(())
}

// Two starting cells; the number of terms.
fn cells(memory: &mut [u32]) -> Result<u32, InternError> {
    model::memory::clear(memory);
    let x = terms::put(memory, 0, 16, 3, [7, 0, 0, 0])?;
    let y = terms::put(memory, x.count, 16, 3, [8, 0, 0, 0])?;
    Ok(y.count)
}

// An operator over them, each way round.
fn operators(memory: &mut [u32]) -> Result<u32, InternError> {
    let count = cells(memory)?;
    let f = terms::put(memory, count, 17, 0, [1, 2, 0, 0])?;
    let g = terms::put(memory, f.count, 17, 0, [2, 1, 0, 0])?;
    Ok(g.count)
}

fn small(rt: &impl Print, memory: &mut [u32]) -> Result<(), InternError> {
    let count = operators(memory)?;
    let again = terms::put(memory, count, 17, 0, [1, 2, 0, 0])?;
    say(rt, "terms", again.count);
    say(rt, "again", again.id);
    ask_start(rt, memory, 2, 3, 8);
    ask_start(rt, memory, 2, 3, 7);
    Ok(())
}

fn short(rt: &impl Print, memory: &mut [u32]) {
    ask(rt, memory, 0, 0);
    ask_put(rt, memory, 0, 0);
    ask_start(rt, memory, 1, 0, 0);
}

// Too little memory; more terms than a store holds; chains that go round.
fn run(rt: &impl Print) -> Result<(), InternError> {
    let mut few = [0u32; 8];
    let mut memory = [9u32; TERM_WORDS];
    short(rt, &mut few);
    ask(rt, &mut memory, 4097, 0);
    ask_put(rt, &mut memory, 4097, 0);
    ask(rt, &mut memory, 20, 0);
    full(rt, &mut memory, 0, 1, 4096)?;
    full(rt, &mut memory, CROWDED_FIRST, CROWDED, 4096)?;
    small(rt, &mut memory)
}

fn main(rt: HostRuntime) {
    if let Err(e) = run(&rt) {
        refuse(&rt, e);
    }
}
