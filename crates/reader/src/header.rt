// The head of a file: mark, version, operator table and array table, up to the first item. Its fields are read through `cursor`.
ghost use Rattle.std.specs.Prelude.{◌≡◌, ℕ, ◌+◌, ◌≤◌, ◌<◌, List, [], ◌∷◌, false, length, IfOk};
ghost use Rattle.model.specs.Questions.{number_of};
ghost use Rattle.model.specs.Test.{within};
ghost use Rattle.model.specs.Tables.{operator_in};
ghost use Rattle.reader.specs.Field.{times};
ghost use Rattle.reader.specs.Grammar.{head, operator_of, extent, array as array_reader, arrays as arrays_reader, tables};
ghost use Rattle.reader.specs.Answers.{through, read_says};
ghost use Rattle.reader.specs.Entries.{padded, packed, unpacked, tables_step};
ghost use Rattle.reader.specs.Parts.{checked, role_test, array_table, extents_in, array_in, with_array, stored};

use crate::cursor::field_at;
use crate::fields::{Read, Width};
use crate::tables::Tables;
use model::operator::is_operator;
use model::question::Question;
use model::sizes::{MOST_BYTES, MOST_CELLS};

// The mark `ALP` and the version, 1 or 2.
#[tactic(auto, unfolding(crate::specs::Grammar::head, crate::specs::Field::u16))]
fn head_at(s: &[u8], at: usize) -> Read<usize>
    ensures { read_says result ≡ head s.now at }
{
    let (mark, version) = field_at(s, at, Width::Three)?;
    if mark != 0x50_4C_41 {
        return Err(Question::Mark.at(at));
    }
    let (v, next) = field_at(s, version, Width::Two)?;
    if v < 1 || 2 < v {
        return Err(Question::Version.at(version));
    }
    Ok((v, next))
}

// An operator's byte.
#[tactic(auto, using(model::proofs::Operators::in_small), unfolding(crate::specs::Grammar::operator_of, crate::specs::Field::byte))]
fn operator_byte_at(s: &[u8], at: usize, version: usize) -> Read<u8>
    ensures { read_says result ≡ operator_of version s.now at }
{
    let (x, next) = field_at(s, at, Width::One)?;
    if is_operator(version, x) {
        Ok((x as u8, next))
    } else {
        Err(Question::Operator.at(at))
    }
}

// The bytes of n operators.
#[tactic(auto, using(crate::proofs::Heads::row_stop, crate::proofs::Heads::row_none))]
fn operators_at(s: &[u8], at: usize, version: usize, n: usize) -> Read<[u8; 16]>
    requires { n ≤ 16 }
    ensures { read_says result ≡ through (padded 16 0) (times [] ◌∷◌ (operator_of version) n s.now at) }
{
    let mut bytes = [0u8; 16];
    let mut place = at;
    for k in 0..n {
        let (x, next) = operator_byte_at(s, place, version)?;
        bytes[k] = x;
        place = next;
    }
    Ok((bytes, place))
}

// A role, where a local came just before it or not.
#[tactic(auto, unfolding(crate::specs::Parts::checked, crate::specs::Field::byte))]
fn role_at(s: &[u8], at: usize, after: bool) -> Read<u8>
    ensures { read_says result ≡ checked 7 (role_test after) s.now at }
{
    let (x, next) = field_at(s, at, Width::One)?;
    if x == 3 || x < 3 && !after {
        Ok((x as u8, next))
    } else {
        Err(Question::Array.at(at))
    }
}

// A count from `low` to `high`; else the question is answered no.
#[tactic(auto, unfolding(crate::specs::Parts::checked, crate::specs::Field::byte))]
fn count_at(s: &[u8], at: usize, question: Question, low: usize, high: usize) -> Read<usize>
    ensures says { read_says result ≡ checked (number_of question) (within low high) s.now at }
    ensures most { IfOk result (λ r. r.0 ≤ high) }
{
    let (x, next) = field_at(s, at, Width::One)?;
    if low <= x && x <= high {
        Ok((x, next))
    } else {
        Err(question.at(at))
    }
}

#[tactic(auto, unfolding(crate::specs::Grammar::extent, crate::specs::Field::u16))]
fn extent_at(s: &[u8], at: usize) -> Read<u16>
    ensures says { read_says result ≡ extent s.now at }
    ensures most { IfOk result (λ r. r.0 ≤ 1024) }
{
    let (x, next) = field_at(s, at, Width::Two)?;
    if 1 <= x && x <= 1024 {
        Ok((x as u16, next))
    } else {
        Err(Question::Array.at(at))
    }
}

// The extents of an array, 0 behind its last dimension, and the number of its cells.
#[derive(Clone, Copy, Debug, PartialEq, Eq)]
struct Extents {
    extents: [u16; 3],
    size: usize,
}

#[tactic(auto, using(crate::proofs::Heads::row_stop, crate::proofs::Heads::row_none))]
fn extents_at(s: &[u8], at: usize, n: usize) -> Read<Extents>
    requires { n ≤ 3 }
    ensures says { read_says result ≡ through extents_in (times [] ◌∷◌ extent n s.now at) }
    ensures most { IfOk result (λ r. r.0.size ≤ 1073741824) }
{
    let mut extents = [0u16; 3];
    let mut size: usize = 1;
    let mut place = at;
    for k in 0..n {
        let (x, next) = extent_at(s, place)?;
        extents[k] = x;
        size *= usize::from(x);
        place = next;
    }
    Ok((Extents { extents, size }, place))
}

#[derive(Clone, Copy, Debug, PartialEq, Eq)]
struct Array {
    role: u8,
    dimensions: u8,
    extents: [u16; 3],
    size: usize,
}

// An array, where a local came just before it or not, and so many cells before it.
#[tactic(auto, using(crate::proofs::Heads::array_parts), unfolding(crate::specs::Answers::through))]
fn array_at(s: &[u8], at: usize, after: bool, before: usize) -> Read<Array>
    requires { before ≤ 2048 }
    ensures says { read_says result ≡ through array_in (array_reader after before s.now at) }
    ensures most { IfOk result (λ r. before + r.0.size ≤ 2048) }
{
    let (role, next) = role_at(s, at, after)?;
    let (dimensions, from) = count_at(s, next, Question::Array, 1, 3)?;
    let (Extents { extents, size }, end) = extents_at(s, from, dimensions)?;
    if MOST_CELLS < before + size {
        return Err(Question::Cells.at(at));
    }
    let array = Array {
        role,
        dimensions: dimensions as u8,
        extents,
        size,
    };
    Ok((array, end))
}

// One array more, as number k; `total` cells with it. Lent: by value the tables, 300 bytes, are copied for each array.
#[tactic(auto, unfolding(crate::specs::Parts::with_array))]
fn put_array(tables: &mut Tables, k: usize, x: Array, total: usize)
    requires { k < 16 }
    ensures { «tables».new ≡ with_array «tables».old k x total }
{
    tables.arrays = k + 1;
    tables.roles[k] = x.role;
    tables.dimensions[k] = x.dimensions;
    tables.extents[3 * k] = x.extents[0];
    tables.extents[3 * k + 1] = x.extents[1];
    tables.extents[3 * k + 2] = x.extents[2];
    tables.bases[k + 1] = total;
}

// n arrays, put into tables that hold none.
#[tactic(auto, using(crate::proofs::Heads::arrays_stop, crate::proofs::Heads::arrays_none))]
fn arrays_at(s: &[u8], at: usize, n: usize, empty: Tables) -> Read<Tables>
    requires { n ≤ 16 }
    ensures { read_says result ≡ through (stored empty 0 0) (arrays_reader n false 0 s.now at) }
{
    let mut tables = empty;
    let mut after = false;
    let mut before: usize = 0;
    let mut place = at;
    for k in 0..n {
        let (x, next) = array_at(s, place, after, before)?;
        before += x.size;
        put_array(&mut tables, k, x, before);
        after = x.role == 3;
        place = next;
    }
    Ok((tables, place))
}

// The array table, behind an operator table that was read.
#[tactic(auto, using(crate::proofs::Heads::array_table_parts), unfolding(crate::specs::Answers::through))]
fn arrays_of(s: &[u8], at: usize, operators: usize, bytes: [u8; 16]) -> Read<Tables>
    ensures { (ops : List ℕ) → length ops ≡ operators → bytes ≡ padded 16 0 ops → read_says result ≡ through (λ xs. packed (record { operators = ops; arrays = xs })) (array_table s.now at) }
{
    let (n, next) = count_at(s, at, Question::Array, 1, 16)?;
    let empty = Tables {
        operators,
        bytes,
        arrays: 0,
        roles: [0u8; 16],
        dimensions: [0u8; 16],
        extents: [0u16; 48],
        bases: [0usize; 17],
    };
    arrays_at(s, next, n, empty)
}

// The operator table and the array table of a file, whatever its length.
#[tactic(auto, using(crate::proofs::Heads::tables_parts), unfolding(crate::specs::Answers::through))]
fn tables_at(s: &[u8], at: usize) -> Read<Tables>
    ensures { read_says result ≡ through packed (tables s.now at) }
{
    let (version, count) = head_at(s, at)?;
    let (n, first) = count_at(s, count, Question::Operator, 0, 16)?;
    let (bytes, end) = operators_at(s, first, version, n)?;
    arrays_of(s, end, n, bytes)
}

// The tables of a program, and the place of its first item. 2 is asked first.
#[tactic(auto, using(crate::proofs::Heads::tables_back), unfolding(crate::specs::Entries::tables_step, crate::specs::Answers::through))]
pub fn tables_of(program: &[u8]) -> Read<Tables>
    ensures says { through unpacked (read_says result) ≡ tables_step program.now }
    ensures holds { read_says result ≡ through packed (tables_step program.now) }
{
    if MOST_BYTES < program.len() {
        return Err(Question::Length.at(0));
    }
    tables_at(program, 0)
}
