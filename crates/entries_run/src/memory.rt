// Words of memory to lend, and a sum that tells what stands in them afterwards.
use crate::numbers::{say_word, word_at};

// The words of `s`, and from the start again after so many; 0 where `s` has fewer.
pub(crate) fn fill(memory: &mut [u32], s: &[u8], period: usize) {
    let mut j: usize = 0;
    for word in memory {
        *word = stored(s, j);
        j = after(j, period);
    }
}

fn stored(s: &[u8], j: usize) -> u32 {
    if j < 65536 { word_at(s, 4 * j) } else { 0 }
}

fn after(j: usize, period: usize) -> usize {
    if j < 65536 && j + 1 < period {
        j + 1
    } else {
        0
    }
}

// Three is odd: one word that differs changes the sum.
pub(crate) fn added(sum: u32, word: u32) -> u32 {
    sum.wrapping_mul(3).wrapping_add(word)
}

pub(crate) fn say_sum(rt: &impl Print, memory: &[u32]) {
    let sum = memory.iter().fold(0, |sum, word| added(sum, *word));
    say_word(rt, sum);
}
