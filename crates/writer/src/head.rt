// The tables of an accepted list, written as bytes.
ghost use Rattle.std.specs.Prelude.{◌≡◌, ℕ, ◌+◌, ◌*◌, ◌≤◌, ◌<◌, ◌++◌, length, get_or};
ghost use Rattle.std.proofs.lemmas.List.Edits.{sets};
ghost use Rattle.reader.specs.Grammar.{mark};
ghost use Rattle.writer.specs.File.{little_bytes};
ghost use Rattle.writer.specs.Records.{extents_at};
ghost use Rattle.writer.specs.Head.{dimensions_at, array_bytes_at, arrays_bytes_at, head_bytes, version_at, ArrayKnown, ArraysKnown, HeadKnown, HeadSize};

use crate::layout::{ARRAY_COUNT, ARRAY_WORDS, ARRAYS, OPERATORS};
use crate::records::{low, put_half};
use model::operator::is_operator;

// n words, each below 256, as bytes.
fn put_bytes(list: &[u32], at: usize, n: usize, out: &mut [u8])
    requires { (at + n ≤ length list.now) × (n ≤ length out.old) × ((k : ℕ) → k < n → get_or list.now (at + k) 0 < 256) }
    ensures { out.new ≡ sets out.old 0 (extents_at list.now at n) }
{
    for k in 0..n {
        out[k] = low(list[at + k] as usize);
    }
}

// The n extents from word `at` on, one for each dimension.
fn put_dimensions(list: &[u32], at: usize, n: usize, out: &mut [u8])
    requires { (at + n ≤ length list.now) × (2 * n ≤ length out.old) }
    ensures { out.new ≡ sets out.old 0 (dimensions_at list.now at n) }
{
    for k in 0..n {
        put_half(&mut out[2 * k..], list[at + k] as usize);
    }
}

// The array at word `at`: role, dimension count, extents.
fn write_array(list: &[u32], at: usize, out: &mut [u8]) -> usize
    requires { ArrayKnown list.now at × (length (array_bytes_at list.now at) ≤ length out.old) }
    ensures long { result ≡ length (array_bytes_at list.now at) }
    ensures frame { out.new ≡ sets out.old 0 (array_bytes_at list.now at) }
{
    let n = list[at + 1] as usize;
    put_bytes(list, at, 2, out);
    put_dimensions(list, at + 2, n, &mut out[2..]);
    2 + 2 * n
}

// n arrays from word `at` on, each into what remains of the output.
fn write_arrays(list: &[u32], at: usize, n: usize, out: &mut [u8]) -> usize
    requires { ArraysKnown list.now at n × (length (arrays_bytes_at list.now at n) ≤ length out.old) }
    ensures long { result ≡ length (arrays_bytes_at list.now at n) }
    ensures frame { out.new ≡ sets out.old 0 (arrays_bytes_at list.now at n) }
{
    let mut to: usize = 0;
    for k in 0..n {
        to += write_array(list, at + ARRAY_WORDS * k, &mut out[to..]);
    }
    to
}

// The lowest version that can hold these operators.
pub(crate) fn version_of(list: &[u32]) -> usize
    requires { HeadKnown list.now }
    ensures { result ≡ version_at list.now }
{
    let n = list[0] as usize;
    for k in 0..n {
        if !is_operator(1, list[OPERATORS + k] as usize) {
            return 2;
        }
    }
    1
}

// How long n arrays are as bytes.
fn arrays_size(list: &[u32], at: usize, n: usize) -> usize
    requires { ArraysKnown list.now at n }
    ensures says { result ≡ length (arrays_bytes_at list.now at n) }
    ensures few { result ≤ 8 * n }
{
    let mut size: usize = 0;
    for k in 0..n {
        size += 2 + 2 * list[at + ARRAY_WORDS * k + 1] as usize;
    }
    size
}

// How long the tables are as bytes, in either version.
pub(crate) fn head_size(list: &[u32]) -> usize
    requires { HeadKnown list.now }
    ensures says { HeadSize list.now result }
    ensures few { result ≤ 151 }
{
    let n = list[0] as usize;
    let m = list[ARRAY_COUNT] as usize;
    let size = arrays_size(list, ARRAYS, m);
    7 + n + size
}

// The mark and the version.
fn write_mark(version: usize, out: &mut [u8])
    requires { 5 ≤ length out.old }
    ensures { out.new ≡ sets out.old 0 (mark ++ little_bytes 2 version) }
{
    out[0] = 0x41;
    out[1] = 0x4C;
    out[2] = 0x50;
    put_half(&mut out[3..], version);
}

// The mark, the version, the operators and the arrays.
pub(crate) fn write_head(list: &[u32], version: usize, out: &mut [u8]) -> usize
    requires { HeadKnown list.now × (length (head_bytes list.now version) ≤ length out.old) }
    ensures long { result ≡ length (head_bytes list.now version) }
    ensures frame { out.new ≡ sets out.old 0 (head_bytes list.now version) }
{
    let n = list[0] as usize;
    let m = list[ARRAY_COUNT] as usize;
    write_mark(version, out);
    put_bytes(list, 0, n + 1, &mut out[5..]);
    put_bytes(list, ARRAY_COUNT, 1, &mut out[6 + n..]);
    let size = write_arrays(list, ARRAYS, m, &mut out[7 + n..]);
    7 + n + size
}
