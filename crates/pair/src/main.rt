// Reads a framed pair of programs from standard input and prints the line of the reply. One byte more than the longest pair
// has is read: what follows it changes no reply (`InputCut`). Where a read fails there is no reply, only a line on standard error.
#![tactic(auto)]

use console::Console;

fn main(rt: HostRuntime) {
    let console = Console {
        program: "pair",
        out: &rt,
        err: &rt,
    };
    let mut input = [0u8; 32771];
    if let Ok(n) = console.read(&mut rt.stdin(), &mut input) {
        let line = comparer::line_of(framed::compare(&input[..n], None));
        let _ = console.print(line.as_bytes());
    }
}
