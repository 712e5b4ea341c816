// Entries over tables, which are any 115 numbers.
use crate::numbers::{Args, low_byte, low_pair, number_at, say};
use reader::tables::{BASES, FLAT, FlatTables, Tables};

pub(crate) fn fill(tables: &mut FlatTables, s: &[u8]) {
    for (k, number) in tables.iter_mut().enumerate() {
        *number = number_at(s, 8 * k);
    }
}

pub(crate) fn called(rt: &impl Print, entry: usize, x: Args, tables: &FlatTables) {
    match entry {
        10 => {
            say(rt, reader::tables::operator_count(tables));
        }
        11 => {
            say(rt, reader::tables::array_count(tables));
        }
        12 => {
            say(rt, reader::tables::arity_of(tables, x.a));
        }
        13 => {
            say(rt, reader::tables::role_of(tables, x.a));
        }
        14 => {
            say(rt, reader::tables::dimensions_of(tables, x.a));
        }
        15 => {
            say(rt, reader::tables::extent_of(tables, x.a, x.b));
        }
        16 => {
            say(rt, reader::tables::base_of(tables, x.a));
        }
        _ => {
            say_tables(rt, packed(tables));
        }
    }
}

// Every number of them, as `flat` puts them in a row.
pub(crate) fn say_tables(rt: &impl Print, tables: Tables) {
    let row = reader::tables::flat(tables);
    say_row(rt, &row);
}

fn say_row(rt: &impl Print, row: &FlatTables) {
    for number in row {
        say(rt, *number);
    }
}

// Tables by value, of the lower bytes of these numbers.
fn packed(tables: &FlatTables) -> Tables {
    Tables {
        operators: tables[0],
        bytes: bytes(tables, 1),
        arrays: tables[17],
        roles: bytes(tables, 18),
        dimensions: bytes(tables, 34),
        extents: extents(tables),
        bases: bases(tables),
    }
}

// Beyond the last number 0.
fn nth(tables: &FlatTables, k: usize) -> usize {
    if k < FLAT { tables[k] } else { 0 }
}

fn bytes(tables: &FlatTables, from: usize) -> [u8; 16] {
    let mut r = [0u8; 16];
    if from > 99 {
        return r;
    }
    for k in 0..16usize {
        r[k] = low_byte(nth(tables, from + k));
    }
    r
}

fn extents(tables: &FlatTables) -> [u16; 48] {
    let mut r = [0u16; 48];
    for k in 0..48usize {
        r[k] = low_pair(tables[50 + k]);
    }
    r
}

fn bases(tables: &FlatTables) -> [usize; 17] {
    let mut r = [0usize; 17];
    for k in 0..17usize {
        r[k] = tables[BASES + k];
    }
    r
}
