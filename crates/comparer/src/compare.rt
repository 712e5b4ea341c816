// Finds the first element at which two lists leave different terms.
ghost use Rattle.std.specs.Prelude.{◌≡◌, ◌+◌, ◌*◌, ◌≤◌, ◌<◌, length, eqb, leb};
ghost use Rattle.terms.specs.Stored.{Starts};
ghost use Rattle.comparer.specs.Comparing.{role_at, compared_at, extent_or_one, size_at, Sums, Agrees, BothGiven, FirstCell, FirstArray};
ghost use Rattle.comparer.specs.Matching.{Matches};
ghost use Rattle.model.specs.Memory.{header_words};

use crate::evaluate::apply_updates;
use crate::reply::{Reply, Side};
use model::question::Question;
use model::sizes::{CELL_WORDS, HEADER_WORDS, MOST_CELLS};

fn role_of(list: &[u32], array: usize) -> u32
    requires { (header_words ≤ length list.now) × (array < 16) }
    ensures { result ≡ role_at list.now array }
{
    list[18 + 5 * array]
}

// An out or inout array whose bit is set.
fn is_compared(list: &[u32], mask: u16, array: usize) -> bool
    requires { (header_words ≤ length list.now) × (array < 16) }
    ensures { result ≡ compared_at list.now mask array }
{
    let bits = mask >> array;
    let role = role_of(list, array);
    bits % 2 == 1 && (role == 1 || role == 2)
}

// What a word of a header adds to an array's size. No allowed extent is above 1,024, so products stay small.
fn extent_or_one(used: bool, extent: u32) -> usize
    ensures { (result ≡ extent_or_one used extent) × (result ≤ 1024) }
{
    if !used {
        1
    } else if extent > 1024 {
        0
    } else {
        extent as usize
    }
}

fn size_of(list: &[u32], array: usize) -> usize
    requires { (header_words ≤ length list.now) × (array < 16) }
    ensures { (result ≡ size_at list.now array) × (result ≤ 1073741824) }
{
    let at = 18 + 5 * array;
    let dimensions = list[at + 1];
    let x = extent_or_one(true, list[at + 2]);
    let y = extent_or_one(1 < dimensions, list[at + 3]);
    let z = extent_or_one(2 < dimensions, list[at + 4]);
    x * y * z
}

// The cells before each array.
fn bases_of(list: &[u32]) -> [usize; 17]
    requires { header_words ≤ length list.now }
    ensures { Sums list.now result }
{
    let mut bases = [0; 17];
    for a in 0..16 {
        bases[a + 1] = bases[a] + size_of(list, a);
    }
    bases
}

fn starts(terms: &[u32], id: u32, a: u32, c: u32) -> bool
    ensures { Starts terms.now id a c result }
{
    // 25 is asked before; what it refuses must not pass for equal.
    terms::is_start(terms, id, a, c).unwrap_or(false)
}

// Whether cell c of array a has the same term on both sides. A cell that is not written is its own starting cell, which is not stored for that.
fn agrees(terms: &[u32], x: u32, y: u32, a: u32, c: u32) -> bool
    ensures { Agrees terms.now x y a c result }
{
    if x == y {
        return true;
    }
    if x == 0 {
        return starts(terms, y, a, c);
    }
    y == 0 && starts(terms, x, a, c)
}

// Whether a compared element has the same value on both sides. An inout array starts alike on both. Of an out array each side has contents
// of its own, so both must have written the element; the slot of one that is not written is 0, since nothing read it.
fn same_value(terms: &[u32], role: u32, left: u32, right: u32, a: u32, c: u32) -> bool
    ensures { BothGiven terms.now (eqb role 2) left right a c result }
{
    if role == 2 {
        return agrees(terms, left, right, a, c);
    }
    left != 0 && left == right
}

fn fits(from: usize, size: usize, room: usize) -> bool
    ensures { result ≡ leb (from + size) room }
{
    size <= room && from <= room - size
}

// The first cell of an array at which the sides differ, or its size. The array's cells begin at p on the left and at q on the right.
fn first_cell(
    left: &[u32],
    right: &[u32],
    terms: &[u32],
    role: u32,
    p: usize,
    q: usize,
    array: usize,
    size: usize,
) -> usize
    requires { (array < 16) × (size ≤ 1073741824) }
    ensures { FirstCell left.now right.now terms.now (eqb role 2) p q array size 0 result }
{
    if !fits(p, size, left.len()) || !fits(q, size, right.len()) {
        return 0;
    }
    for c in 0..size {
        let x = left[p + c];
        let y = right[q + c];
        if !same_value(terms, role, x, y, array as u32, c as u32) {
            return c;
        }
    }
    size
}

// The first difference by array number, then cell number, or the number of elements compared.
fn first_array(
    list: &[u32],
    mask: u16,
    lefts: &[usize; 17],
    rights: &[usize; 17],
    left: &[u32],
    right: &[u32],
    terms: &[u32],
) -> Reply
    requires { header_words ≤ length list.now }
    ensures { FirstArray list.now mask lefts.now rights.now left.now right.now terms.now 0 0 result }
{
    let count = list[17] as usize;
    // No list that was checked or unrolled; it must not pass for equal.
    if count > 16 {
        return Reply::refused(Side::Left, Question::List, 0);
    }
    let mut sum: usize = 0;
    for a in 0..count {
        if is_compared(list, mask, a) {
            let size = size_of(list, a);
            let role = role_of(list, a);
            let c = first_cell(left, right, terms, role, lefts[a], rights[a], a, size);
            if c < size {
                return Reply::Differs(a, c);
            }
            sum += size;
        }
    }
    Reply::Equal(sum)
}

// The match of two checked lists, whose tables were found to agree, in cleared work memory. Locals differ, so each side has its own bases.
pub(crate) fn match_lists(
    left: &[u32],
    right: &[u32],
    mask: u16,
    cells: &mut [u32],
    terms: &mut [u32],
) -> Reply
    ensures { Matches left.now right.now mask cells.old terms.old result }
{
    // 25 is asked before; what it refuses must not pass for equal.
    if left.len() < HEADER_WORDS || right.len() < HEADER_WORDS || cells.len() < CELL_WORDS {
        return Reply::refused(Side::Both, Question::Memory, 0);
    }
    let lefts = bases_of(left);
    let rights = bases_of(right);
    let Some(n) = apply_updates(left, &lefts, &mut cells[0..MOST_CELLS], terms, 0) else {
        return Reply::refused(Side::Both, Question::Terms, 0);
    };
    let Some(_) = apply_updates(right, &rights, &mut cells[MOST_CELLS..CELL_WORDS], terms, n) else {
        return Reply::refused(Side::Both, Question::Terms, 0);
    };
    first_array(
        left,
        mask,
        &lefts,
        &rights,
        &cells[0..MOST_CELLS],
        &cells[MOST_CELLS..CELL_WORDS],
        terms,
    )
}
