// Reads a program from standard input and writes it without loops and guards to standard output. One byte more than the longest
// program has is read: so a longer one is refused. A refusal, and a read or write that failed, is a line on standard error.
#![tactic(auto)]

use comparer::reply::{Reply, Side};
use console::Console;
use model::sizes::{LIST_WORDS, MOST_BYTES};
use unroller::UnrollError;
use writer::WriteError;

fn main(rt: HostRuntime) {
    let err = rt.stderr();
    let console = Console {
        program: "straight",
        out: &rt,
        err: &err,
    };
    let mut input = [0u8; 16385];
    if let Ok(n) = console.read(&mut rt.stdin(), &mut input) {
        answer(&console, &input[..n]);
    }
}

// The file, or on standard error the line of its refusal.
fn answer(console: &Console<'_, impl Print, impl Print + Eprint>, program: &[u8]) {
    let mut file = [0u8; MOST_BYTES];
    match straight(program, &mut file) {
        Ok(n) => {
            let _ = console.print(file.get(..n).unwrap_or(&[]));
        }
        Err(reply) => {
            let line = comparer::line_of(reply);
            let refusals = Console {
                program: console.program,
                out: console.err,
                err: console.err,
            };
            let _ = refusals.print(line.as_bytes());
        }
    }
}

// The length of the file, or its refusal: 2 to 20, as the list is long enough for 25.
fn straight(program: &[u8], file: &mut [u8]) -> Result<usize, Reply> {
    let mut list = [0u32; LIST_WORDS];
    match unroller::unroll(program, &mut list) {
        Ok(_) => written(&list, file),
        Err(UnrollError::Refused(refusal)) => {
            let number = u8::from(refusal.question);
            Err(Reply::Refused(Side::Left, number, refusal.place))
        }
        Err(UnrollError::Short) => Err(Reply::Refused(Side::Both, 25, 0)),
    }
}

// 28 and 29, as what was unrolled is accepted.
fn written(list: &[u32], file: &mut [u8]) -> Result<usize, Reply> {
    match writer::write_file(list, file) {
        Ok(n) => Ok(n),
        Err(WriteError::Short) => Err(Reply::Refused(Side::Both, 25, 0)),
        Err(WriteError::Refused) => Err(Reply::Refused(Side::Left, 26, 0)),
        Err(WriteError::Wide(update)) => Err(Reply::Refused(Side::Left, 28, update)),
        Err(WriteError::Long) => Err(Reply::Refused(Side::Left, 29, 0)),
    }
}
