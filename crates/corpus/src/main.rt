// Reads a stream of framed pairs (separate/README.md, "Streams") from standard input and prints the line of each.
#![tactic(auto)]

fn main(rt: HostRuntime) {
    let mut stdin = rt.stdin();
    let mut pair = [0u8; 65536];
    for _ in 0..100_000_000u32 {
        match source::frame(&mut stdin, &mut pair) {
            Some(n) => answer(&rt, &pair[..n]),
            None => return,
        }
    }
}

fn answer(rt: &impl Print, pair: &[u8]) {
    let line = comparer::line_of(framed::compare(pair, None));
    let _ = rt.write_all(line.as_bytes());
}
