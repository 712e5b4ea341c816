// Works out the updates of a list: each value as a term of the store.
ghost use Rattle.std.specs.Prelude.{◌≡◌, ◌+◌, ◌≤◌, ◌<◌, length, replicate, true};
ghost use Rattle.model.specs.Memory.{header_words};
ghost use Rattle.terms.specs.Stored.{sorted};
ghost use Rattle.model.specs.Tables.{swaps};
ghost use Rattle.comparer.specs.Work.{Keeps, Puts, Steps, Counts, Finds, Picks, Byte, Arity, Reads, Works, WorksLeaf, WorksAll, Applies};

use model::operator::swaps;
use model::sizes::{CELL_WORDS, HEADER_WORDS};
use terms::Kept;

// The place past a tree, the number of terms, and the id plus 1; or past the arguments of an operator, with their four ids.
#[derive(Clone, Copy)]
struct Step<T> {
    at: usize,
    count: u32,
    id: T,
}

// A term, stored where it is not yet and where there is room.
#[tactic(auto, using(crate::proofs::Leaves::kept_some))]
fn put(terms: &mut [u32], count: u32, kind: u32, payload: u32, ids: [u32; 4]) -> Option<Kept>
    ensures { Keeps (λ count' id. Puts terms.old count kind payload ids count' id terms.new) result }
{
    terms::put(terms, count, kind, payload, ids).ok()
}

// The slot of a cell: the cells before its array, and its number.
fn slot(bases: &[usize; 17], array: u32, cell: u32) -> Option<usize>
    ensures { Finds bases.now array cell result }
{
    let a = array as usize;
    if a >= 17 || bases[a] > CELL_WORDS {
        return None;
    }
    Some(bases[a] + cell as usize)
}

// What the cell holds now. One that is not written yet is its starting cell, whose id it holds from then on.
// Bases, cells and terms stay parameters here and below: in a struct, each method would promise that both slices keep their borrow and length.
fn read(
    bases: &[usize; 17],
    cells: &mut [u32],
    terms: &mut [u32],
    count: u32,
    array: u32,
    cell: u32,
) -> Option<Kept>
    requires { count ≤ 4096 }
    ensures { Keeps (λ count' id. Reads bases.now cells.old terms.old count array cell count' id cells.new terms.new) result }
{
    let k = slot(bases, array, cell)?;
    if k >= cells.len() {
        return None;
    }
    let id = cells[k];
    if id != 0 {
        return Some(Kept { count, id });
    }
    let p = put(terms, count, 16, array, [cell, 0, 0, 0])?;
    cells[k] = p.id;
    Some(p)
}

fn leaf(
    list: &[u32],
    at: usize,
    bases: &[usize; 17],
    cells: &mut [u32],
    terms: &mut [u32],
    count: u32,
) -> Option<Kept>
    requires { (at + 3 ≤ length list.now) × (count ≤ 4096) }
    ensures { Keeps (λ count' id. WorksLeaf bases.now list.now at cells.old terms.old count (at + 3) count' id cells.new terms.new) result }
{
    let code = list[at];
    let x = list[at + 1];
    if code == 16 {
        let c = list[at + 2];
        return read(bases, cells, terms, count, x, c);
    }
    put(terms, count, code, x, [0; 4])
}

// The header's word for this operator, which is its byte; 0 where there is none.
fn byte_of(list: &[u32], operator: u32) -> usize
    requires { header_words ≤ length list.now }
    ensures { Byte list.now operator result }
{
    let o = operator as usize;
    if o >= 16 {
        return 0;
    }
    list[1 + o] as usize
}

// The arity of an operator of this byte, 0 where that is no operator's. A byte without a mark passes one test: asking for the mark
// first would cost each operator another.
fn arity(byte: usize) -> usize
    ensures { Arity byte result }
{
    if byte <= 4 {
        byte
    } else if swaps(byte) {
        2
    } else {
        0
    }
}

// The ids as they are stored where the arguments may swap: the smaller of the two first.
fn in_order(ids: [u32; 4]) -> [u32; 4]
    ensures { result ≡ sorted true ids }
{
    if ids[1] < ids[0] {
        return [ids[1], ids[0], ids[2], ids[3]];
    }
    ids
}

fn pick(here: bool, id: u32, other: u32) -> u32
    ensures { Picks here id other result }
{
    if here { id } else { other }
}

// The operator over its arguments. A call of its own for those that may swap: no other waits for the order.
fn operate(terms: &mut [u32], operator: u32, byte: usize, count: u32, ids: [u32; 4]) -> Option<Kept>
    ensures { Keeps (λ count' id. Puts terms.old count 17 operator (sorted (swaps byte) ids) count' id terms.new) result }
{
    if swaps(byte) {
        return put(terms, count, 17, operator, in_order(ids));
    }
    put(terms, count, 17, operator, ids)
}

// The tree at `at`, whose operators nest at most `left` deep.
#[cycle(args_node)]
fn node(
    list: &[u32],
    at: usize,
    bases: &[usize; 17],
    cells: &mut [u32],
    terms: &mut [u32],
    count: u32,
    left: usize,
) -> Option<Step<u32>>
    requires { (header_words ≤ length list.now) × (count ≤ 4096) }
    ensures { Steps (λ at' count' id. Works bases.now list.now left at cells.old terms.old count at' count' id cells.new terms.new) result }
{
    if list.len() - 3 < at {
        return None;
    }
    if list[at] != 17 {
        let kept = leaf(list, at, bases, cells, terms, count)?;
        return Some(Step {
            at: at + 3,
            count: kept.count,
            id: kept.id,
        });
    }
    if left == 0 {
        return None;
    }
    let o = list[at + 1];
    let byte = byte_of(list, o);
    let n = arity(byte);
    let row = args(list, at + 3, bases, cells, terms, count, left - 1, n)?;
    let whole = operate(terms, o, byte, row.count, row.id)?;
    Some(Step {
        at: row.at,
        count: whole.count,
        id: whole.id,
    })
}

// The n arguments at `at`. Their ids are kept as four numbers: the processor waits for an array that is filled a word at a time and
// loaded whole.
#[cycle(args_node)]
fn args(
    list: &[u32],
    mut at: usize,
    bases: &[usize; 17],
    cells: &mut [u32],
    terms: &mut [u32],
    mut count: u32,
    left: usize,
    n: usize,
) -> Option<Step<[u32; 4]>>
    requires { (header_words ≤ length list.now) × (count ≤ 4096) × (n ≤ 4) }
    ensures { Steps (λ at' count' ids. WorksAll bases.now list.now left at cells.old terms.old count 0 n (replicate 4 0) at' count' ids cells.new terms.new) result }
{
    let mut a0: u32 = 0;
    let mut a1: u32 = 0;
    let mut a2: u32 = 0;
    let mut a3: u32 = 0;
    for k in 0..n {
        let s = node(list, at, bases, cells, terms, count, left)?;
        a0 = pick(k == 0, s.id, a0);
        a1 = pick(k == 1, s.id, a1);
        a2 = pick(k == 2, s.id, a2);
        a3 = pick(k == 3, s.id, a3);
        at = s.at;
        count = s.count;
    }
    Some(Step {
        at,
        count,
        id: [a0, a1, a2, a3],
    })
}

// Works out the updates one after another. The answer is the number of terms then, where they have room.
pub(crate) fn apply_updates(
    list: &[u32],
    bases: &[usize; 17],
    cells: &mut [u32],
    terms: &mut [u32],
    count: u32,
) -> Option<u32>
    requires { (header_words ≤ length list.now) × (count ≤ 4096) }
    ensures { Counts (λ count'. Applies bases.now list.now 98 cells.old terms.old count count' cells.new terms.new) result }
{
    let mut at: usize = HEADER_WORDS;
    let mut n = count;
    while at <= list.len() - 3 {
        if list[at] != 1 {
            return Some(n);
        }
        let k = slot(bases, list[at + 1], list[at + 2])?;
        let s = node(list, at + 3, bases, cells, terms, n, 12)?;
        if k >= cells.len() || s.at <= at {
            return None;
        }
        cells[k] = s.id;
        n = s.count;
        at = s.at;
    }
    Some(n)
}
