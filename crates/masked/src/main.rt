// Reads a mask of two bytes and behind it a framed pair of programs, as `pair` does, and prints the line of the reply under that mask.
// Where it is a difference, the line of its explanation for the left follows, and the one for the right. Where a read fails there is
// no line, only one on standard error.
#![tactic(auto)]

use console::Console;

fn main(rt: HostRuntime) {
    let console = Console {
        program: "masked",
        out: &rt,
        err: &rt,
    };
    let mut input = [0u8; 32773];
    if let Ok(n) = console.read(&mut rt.stdin(), &mut input) {
        let (mask, pair) = masked(&input[..n]);
        framed::answer(&console, pair, Some(mask));
    }
}

// Where the mask is not there as a whole, nothing is left for the pair, which is refused for it.
fn masked(input: &[u8]) -> (u16, &[u8]) {
    match input.split_first_chunk() {
        Some((mask, pair)) => (u16::from_le_bytes(*mask), pair),
        None => (0, &[]),
    }
}
