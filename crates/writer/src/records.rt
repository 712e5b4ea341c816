// The records of an accepted list, written as bytes into what remains of the lent output.
ghost use Rattle.std.specs.Prelude.{◌≡◌, ◌∷◌, [], ◌+◌, ◌*◌, ◌%◌, ◌≤◌, ◌<◌, length, get_or};
ghost use Rattle.std.proofs.lemmas.List.Edits.{sets};
ghost use Rattle.writer.specs.File.{little_bytes};
ghost use Rattle.writer.specs.Records.{subscript_bytes, Sizes, record_bytes, records_bytes, Known, KnownAll, wide_at, begins};
ghost use Rattle.writer.specs.Answers.{Counted, Measures, Puts};

use crate::layout::{
    ARRAY_WORDS, CONSTANT, DIMENSION_COUNT, EXTENTS, LITERAL, OPERATOR, RECORD_WORDS, UPDATE,
};
use model::sizes::HEADER_WORDS;

// The lowest byte.
pub(crate) fn low(x: usize) -> u8
    ensures { result ≡ x % 256 }
{
    (x % 256) as u8
}

// Two bytes of a number, the lowest first.
pub(crate) fn put_half(out: &mut [u8], x: usize)
    requires { 2 ≤ length out.old }
    ensures { out.new ≡ sets out.old 0 (little_bytes 2 x) }
{
    out[0] = low(x);
    out[1] = low(x / 256);
}

// Four bytes.
fn put_word(out: &mut [u8], x: usize)
    requires { 4 ≤ length out.old }
    ensures { out.new ≡ sets out.old 0 (little_bytes 4 x) }
{
    put_half(out, x);
    put_half(&mut out[2..], x / 256 / 256);
}

// The subscripts of a cell, for n extents from word `at` on. From the last to the first each is divided out by its own extent, without
// the product of those behind it, and the first is what remains.
fn put_subscripts(list: &[u32], at: usize, n: usize, cell: usize, out: &mut [u8])
    requires { Sizes list.now at n × (2 * n ≤ length out.old) }
    ensures { out.new ≡ sets out.old 0 (subscript_bytes list.now at n cell) }
{
    let mut rest = cell;
    for k in (1..n).rev() {
        let extent = list[at + k] as usize;
        put_half(&mut out[2 * k..], rest % extent);
        rest /= extent;
    }
    put_half(out, rest);
}

// A literal, by its word: the code and a form.
fn write_literal(x: usize, out: &mut [u8]) -> usize
    requires { 3 ≤ length out.old }
    ensures long { result ≡ 3 }
    ensures frame { out.new ≡ sets out.old 0 (18 ∷ little_bytes 2 x) }
{
    out[0] = 0x12;
    put_half(&mut out[1..], x);
    3
}

// A named constant: the code and the name.
fn write_constant(x: usize, out: &mut [u8]) -> usize
    requires { 5 ≤ length out.old }
    ensures long { result ≡ 5 }
    ensures frame { out.new ≡ sets out.old 0 (19 ∷ little_bytes 4 x) }
{
    out[0] = 0x13;
    put_word(&mut out[1..], x);
    5
}

// An operator: the code and its number.
fn write_operator(x: usize, out: &mut [u8]) -> usize
    requires { (x < 16) × (2 ≤ length out.old) }
    ensures long { result ≡ 2 }
    ensures frame { out.new ≡ sets out.old 0 (17 ∷ x ∷ []) }
{
    out[0] = 0x11;
    out[1] = low(x);
    2
}

// A target or a read: the code, the array's number and a form for each dimension.
fn write_cell(list: &[u32], code: usize, x: usize, cell: usize, out: &mut [u8]) -> usize
    requires { (code < 256) × (x < 16) × Sizes list.now (20 + 5 * x) (get_or list.now (19 + 5 * x) 0) × (2 + 2 * get_or list.now (19 + 5 * x) 0 ≤ length out.old) }
    ensures long { result ≡ 2 + 2 * get_or list.now (19 + 5 * x) 0 }
    ensures frame { out.new ≡ sets out.old 0 (code ∷ x ∷ subscript_bytes list.now (20 + 5 * x) (get_or list.now (19 + 5 * x) 0) cell) }
{
    let n = list[DIMENSION_COUNT + ARRAY_WORDS * x] as usize;
    out[0] = low(code);
    out[1] = low(x);
    put_subscripts(list, EXTENTS + ARRAY_WORDS * x, n, cell, &mut out[2..]);
    2 + 2 * n
}

// The record at word `at`: its bytes begin the output.
fn write_record(list: &[u32], at: usize, out: &mut [u8]) -> usize
    requires { Known list.now at × (length (record_bytes list.now at) ≤ length out.old) }
    ensures long { result ≡ length (record_bytes list.now at) }
    ensures frame { out.new ≡ sets out.old 0 (record_bytes list.now at) }
{
    let code = list[at] as usize;
    let x = list[at + 1] as usize;
    if code == LITERAL {
        return write_literal(x, out);
    }
    if code == CONSTANT {
        return write_constant(x, out);
    }
    if code == OPERATOR {
        return write_operator(x, out);
    }
    let cell = list[at + 2] as usize;
    write_cell(list, code, x, cell, out)
}

// How many records there are, or were written, and how many bytes they take.
#[derive(Clone, Copy, Debug, PartialEq, Eq)]
pub(crate) struct Size {
    pub records: usize,
    pub bytes: usize,
}

// The expression that begins at word `at`: each node into what remains of the output. It ends where the next update begins, or with the
// n records that are left.
fn write_expression(list: &[u32], at: usize, n: usize, out: &mut [u8]) -> Size
    requires { KnownAll list.now at n × (length (records_bytes list.now at n) ≤ length out.old) }
    ensures { Puts list.now at n 0 out.old result.records result.bytes out.new }
{
    let mut to: usize = 0;
    for k in 0..n {
        let from = at + RECORD_WORDS * k;
        if list[from] == UPDATE {
            return Size {
                records: k,
                bytes: to,
            };
        }
        to += write_record(list, from, &mut out[to..]);
    }
    Size {
        records: n,
        bytes: to,
    }
}

// The statement of the update at word `at`, of n records that are left: its target, and its expression into what remains.
fn write_statement(list: &[u32], at: usize, n: usize, out: &mut [u8]) -> Size
    requires { (0 < n) × KnownAll list.now at n × (length (records_bytes list.now at n) ≤ length out.old) }
    ensures { Puts list.now at n 1 out.old result.records result.bytes out.new }
{
    let target = write_record(list, at, out);
    let source = write_expression(list, at + RECORD_WORDS, n - 1, &mut out[target..]);
    Size {
        records: 1 + source.records,
        bytes: target + source.bytes,
    }
}

// The statements of all updates, whose n records stand behind the tables: each into what remains of the output after the last one.
pub(crate) fn write_statements(list: &[u32], n: usize, out: &mut [u8]) -> usize
    requires { KnownAll list.now 98 n × (length (records_bytes list.now 98 n) ≤ length out.old) }
    ensures long { result ≡ length (records_bytes list.now 98 n) }
    ensures frame { out.new ≡ sets out.old 0 (records_bytes list.now 98 n) }
{
    let mut at = HEADER_WORDS;
    let mut left = n;
    let mut to: usize = 0;
    while 0 < left {
        let own = write_statement(list, at, left, &mut out[to..]);
        at += RECORD_WORDS * own.records;
        left -= own.records;
        to += own.bytes;
    }
    to
}

// How many updates had begun where a literal does not fit in 16 bits.
#[derive(Clone, Copy, Debug, PartialEq, Eq)]
pub(crate) struct WideLiteral {
    pub updates: usize,
}

// How many bytes a record takes.
fn size_of(list: &[u32], at: usize) -> usize
    requires { Known list.now at }
    ensures { result ≡ length (record_bytes list.now at) }
{
    let code = list[at] as usize;
    if code == LITERAL {
        return 3;
    }
    if code == CONSTANT {
        return 5;
    }
    if code == OPERATOR {
        return 2;
    }
    let x = list[at + 1] as usize;
    2 + 2 * list[DIMENSION_COUNT + ARRAY_WORDS * x] as usize
}

// A literal that does not fit in 16 signed bits, by its word of 32: from 2^15 on, and below 2^32 - 2^15.
#[tactic(auto, unfolding(crate::specs::Records::wide_at))]
fn is_wide(list: &[u32], at: usize) -> bool
    requires { Known list.now at }
    ensures { result ≡ wide_at list.now at }
{
    let code = list[at] as usize;
    let x = list[at + 1] as usize;
    code == LITERAL && 32768 <= x && x < 4294934528
}

// 1 where an update begins.
#[tactic(auto, unfolding(crate::specs::Records::begins))]
fn begin(list: &[u32], at: usize) -> usize
    requires { Known list.now at }
    ensures { result ≡ begins list.now at }
{
    usize::from(list[at] == UPDATE)
}

// Questions 28 and 29 are asked of this, before anything is written. A code of 0 ends the records.
pub(crate) fn measure(list: &[u32]) -> Result<Size, WideLiteral>
    requires { Counted list.now }
    ensures { Measures list.now result }
{
    let mut at: usize = HEADER_WORDS;
    let mut records: usize = 0;
    let mut updates: usize = 0;
    let mut bytes: usize = 0;
    while at < list.len() && list[at] != 0 {
        if is_wide(list, at) {
            return Err(WideLiteral { updates });
        }
        updates += begin(list, at);
        bytes += size_of(list, at);
        at += RECORD_WORDS;
        records += 1;
    }
    Ok(Size { records, bytes })
}
