// Reads a stream of list pairs (separate/README.md, "Streams") from standard input and prints the line of each.
#![tactic(auto)]

use model::sizes::{CELL_WORDS, TERM_WORDS};
use std::io::Read;

// The longest list of a stream, in words.
const MOST_WORDS: usize = 65536;

fn main(rt: HostRuntime) {
    let mut stdin = rt.stdin();
    for _ in 0..100_000_000u32 {
        if !next(&rt, &mut stdin) {
            return;
        }
    }
}

// The next pair, if there is one: a mask of two bytes, then the two lists.
fn next(rt: &impl Print, input: &mut impl Read) -> bool {
    let mut mask = [0u8; 2];
    if source::fill(input, &mut mask) != Ok(2) {
        return false;
    }
    let mut left = [0u32; MOST_WORDS];
    let mut right = [0u32; MOST_WORDS];
    let one = take(input, &mut left);
    let other = take(input, &mut right);
    if let (Some(left), Some(right)) = (left.get(..one), right.get(..other)) {
        answer(rt, left, right, u16::from_le_bytes(mask));
    }
    true
}

// A list: the length of its slice, the number of words that are stored, and these words. What is not there is 0.
fn take(input: &mut impl Read, list: &mut [u32]) -> usize {
    let n = source::length(input).unwrap_or(0) as usize;
    let stored = source::length(input).unwrap_or(0) as usize;
    let mut bytes = [0u8; 4 * MOST_WORDS];
    let Some(bytes) = bytes.get_mut(..4 * stored) else {
        return 0;
    };
    let _ = source::fill(input, bytes);
    let (words, _) = bytes.as_chunks();
    for (word, four) in list.iter_mut().zip(words) {
        *word = u32::from_le_bytes(*four);
    }
    n
}

fn answer(rt: &impl Print, left: &[u32], right: &[u32], mask: u16) {
    let mut cells = [0u32; CELL_WORDS];
    let mut terms = [0u32; TERM_WORDS];
    let reply = comparer::compare_lists(left, right, mask, &mut cells, &mut terms);
    let line = comparer::line_of(reply);
    let _ = rt.write_all(line.as_bytes());
}
