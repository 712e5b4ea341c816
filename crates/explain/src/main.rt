// Reads a framed pair of programs from standard input, as `pair` does, and prints the line of the reply. Where it is a difference, the
// line of its explanation for the left follows, and the one for the right. Where a read fails there is no line, only one on standard
// error.
#![tactic(auto)]

use console::Console;

fn main(rt: HostRuntime) {
    let console = Console {
        program: "explain",
        out: &rt,
        err: &rt,
    };
    let mut input = [0u8; 32771];
    if let Ok(n) = console.read(&mut rt.stdin(), &mut input) {
        framed::answer(&console, &input[..n], None);
    }
}
