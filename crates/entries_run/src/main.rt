// Reads a stream of records (separate/README.md, "Streams") from standard input. Each names a public entry of the reader, the store,
// the unroller, the writer or the comparer and has arguments for it; the line of each is the entry's number and every number of its
// answer.
#![tactic(auto)]

mod batches;
mod cursor;
mod explanations;
mod grammar;
mod memory;
mod numbers;
mod pairs;
mod single;
mod store;
mod tabled;
mod writes;

use crate::numbers::{Args, number_at, refused};
use reader::tables::FLAT;

fn main(rt: HostRuntime) {
    let mut stdin = rt.stdin();
    let mut record = [0u8; 65536];
    for _ in 0..100_000_000u32 {
        match source::frame(&mut stdin, &mut record) {
            Some(n) => answer(&rt, &record[..n]),
            None => return,
        }
    }
}

// The entry's number, six arguments of eight bytes each, and what is lent.
fn answer(rt: &impl Print, record: &[u8]) {
    if record.len() < 49 {
        let _ = println!(rt; "-");
        return;
    }
    let x = Args {
        a: number_at(record, 1),
        b: number_at(record, 9),
        c: number_at(record, 17),
        d: number_at(record, 25),
        e: number_at(record, 33),
        f: number_at(record, 41),
    };
    let entry = usize::from(record[0]);
    let _ = print!(rt; "{entry}");
    called(rt, entry, x, &record[49..]);
    let _ = println!(rt);
}

fn called(rt: &impl Print, entry: usize, x: Args, s: &[u8]) {
    if entry < 10 {
        single::called(rt, entry, x, s);
    } else if entry < 20 {
        with_tables(rt, entry, x, s);
    } else if entry < 30 {
        grammar::called(rt, entry, x, s);
    } else {
        lending(rt, entry, x, s);
    }
}

fn lending(rt: &impl Print, entry: usize, x: Args, s: &[u8]) {
    if entry == 30 {
        store::called(rt, x, s);
    } else if entry == 45 {
        writes::called(rt, x, s);
    } else {
        pairs::called(rt, entry, x, s);
    }
}

// The tables stand in front of the bytes, as 115 numbers of eight bytes.
fn with_tables(rt: &impl Print, entry: usize, x: Args, s: &[u8]) {
    if s.len() < 920 {
        refused(rt);
        return;
    }
    let mut tables = [0usize; FLAT];
    tabled::fill(&mut tables, s);
    if entry < 18 {
        tabled::called(rt, entry, x, &tables);
    } else {
        grammar::nested(rt, entry, x, &tables, &s[920..]);
    }
}
