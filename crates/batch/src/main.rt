// Reads pairs of programs from standard input, one after another, and prints a line for each, then the line of the totals: `turns` of
// the comparer. Where a read or a write fails there is no last line, only one on standard error.
#![tactic(auto)]

ghost use Rattle.std.specs.Prelude.{◌≤◌};

use comparer::reply::Reply;
use comparer::{LENGTHS_BYTES, LengthsError, MOST_PAIRS, Totals};
use console::{Console, Failure};
use model::sizes::{CELL_WORDS, LIST_WORDS, TERM_WORDS};
use std::io::Read;

// The bytes of the longest pair, behind its lengths.
const BODY_BYTES: usize = 32768;

// A pair's bytes behind its lengths, and what its comparison is lent.
#[derive(Drop)]
struct Memory {
    body: [u8; BODY_BYTES],
    left_list: [u32; LIST_WORDS],
    right_list: [u32; LIST_WORDS],
    cells: [u32; CELL_WORDS],
    terms: [u32; TERM_WORDS],
}

fn main(rt: HostRuntime) {
    let console = Console {
        program: "batch",
        out: &rt,
        err: &rt,
    };
    let mut memory = Memory {
        body: [0; BODY_BYTES],
        left_list: [0; LIST_WORDS],
        right_list: [0; LIST_WORDS],
        cells: [0; CELL_WORDS],
        terms: [0; TERM_WORDS],
    };
    // What fails there the console has said.
    let _ = run(&console, &mut rt.stdin(), &mut memory);
}

fn run(
    console: &Console<'_, impl Print, impl Eprint>,
    input: &mut impl Read,
    memory: &mut Memory,
) -> Result<(), Failure> {
    let mut totals = comparer::no_totals();
    for _ in 0..MOST_PAIRS {
        if !turn(console, input, &mut totals, memory)? {
            break;
        }
    }
    let line = comparer::totals_line(totals);
    console.print(line.as_bytes())
}

// The bytes of a pair's lengths, then the pair; whether another may follow it.
fn turn(
    console: &Console<'_, impl Print, impl Eprint>,
    input: &mut impl Read,
    totals: &mut Totals,
    memory: &mut Memory,
) -> Result<bool, Failure> {
    let mut head = [0u8; LENGTHS_BYTES];
    let n = console.read(input, &mut head)?;
    match comparer::pair_lengths(&head[..n]) {
        Ok(None) => Ok(false),
        Ok(Some((left, right))) => behind(console, input, totals, left, right, memory),
        Err(LengthsError { side, number }) => {
            answered(console, totals, comparer::lengths_reply(side, number))?;
            Ok(false)
        }
    }
}

// The bytes behind the lengths. If they do not hold the pair, it is the last.
fn behind(
    console: &Console<'_, impl Print, impl Eprint>,
    input: &mut impl Read,
    totals: &mut Totals,
    left: usize,
    right: usize,
    memory: &mut Memory,
) -> Result<bool, Failure>
    requires { (left ≤ 16384) × (right ≤ 16384) }
{
    let n = console.read(input, &mut memory.body[..left + right])?;
    let reply = comparer::compare_pair(
        &memory.body[..n],
        left,
        right,
        &mut memory.left_list,
        &mut memory.right_list,
        &mut memory.cells,
        &mut memory.terms,
    );
    answered(console, totals, reply)?;
    Ok(comparer::pair_whole(n, left, right))
}

// A reply's line.
fn answered(
    console: &Console<'_, impl Print, impl Eprint>,
    totals: &mut Totals,
    reply: Reply,
) -> Result<(), Failure> {
    let line = comparer::line_of(reply);
    console.print(line.as_bytes())?;
    *totals = comparer::count_reply(*totals, reply);
    Ok(())
}
