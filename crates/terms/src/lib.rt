// The store of terms, in lent memory (docs/LAYOUT.md, "Terms"): each term once, found by a mix of its words.
#![tactic(auto)]

ghost use Rattle.std.specs.Prelude.{◌≡◌, ◌+◌, ◌*◌, ◌<◌, ◌≤◌, length};
ghost use Rattle.terms.specs.Mix.{step_of, bucket_of};
ghost use Rattle.terms.specs.Store.{node_of, node_at, eq_node, written, linked_in, find_of, says_of, start_says, out, intern_of, starts_at};
ghost use Rattle.model.specs.Memory.{term_words};

use model::sizes::{MOST_TERMS, TERM_WORDS};

// The kind of a starting cell.
const STARTING_CELL: u32 = 16;

// The words of a term: kind, payload and four arguments, each an id plus 1, or 0 where there is none.
// Four fields, since a definition reads an array as a list of any length.
#[derive(Clone, Copy, Debug, PartialEq, Eq)]
pub struct Node {
    pub kind: u32,
    pub payload: u32,
    pub a0: u32,
    pub a1: u32,
    pub a2: u32,
    pub a3: u32,
}

// The number of terms after a call, and the term's id plus 1.
#[derive(Clone, Copy, Debug, PartialEq, Eq)]
pub struct Kept {
    pub count: u32,
    pub id: u32,
}

// Why a term is not stored.
#[derive(Clone, Copy, Debug, PartialEq, Eq)]
pub enum InternError {
    // No room for one more: question 24.
    Full,
    // Too little memory: question 25.
    Short,
}

// Too little memory: question 25.
#[derive(Clone, Copy, Debug, PartialEq, Eq)]
pub struct ShortMemory;

// The top bits of the product depend on every word.
#[tactic(auto, unfolding(crate::specs::Mix::step_of))]
fn step(h: u32, x: u32) -> u32
    ensures { result ≡ step_of h x }
{
    h.wrapping_add(x).wrapping_mul(129)
}

#[tactic(auto, unfolding(crate::specs::Mix::bucket_of))]
fn bucket(node: Node) -> usize
    ensures { (result ≡ bucket_of node) × (result < 4096) }
{
    let h1 = step(node.kind, node.payload);
    let h2 = step(h1, node.a0);
    let h3 = step(h2, node.a1);
    let h4 = step(h3, node.a2);
    let h5 = step(h4, node.a3);
    (h5 >> 20) as usize
}

#[tactic(auto, unfolding(crate::specs::Store::node_at))]
fn node_at(memory: &[u32], i: usize) -> Node
    requires { i * 8 + 8 ≤ length memory.now }
    ensures { result ≡ node_at memory.now i }
{
    let b = i * 8;
    Node {
        kind: memory[b],
        payload: memory[b + 1],
        a0: memory[b + 2],
        a1: memory[b + 3],
        a2: memory[b + 4],
        a3: memory[b + 5],
    }
}

// All six words are compared: equal mixes prove nothing.
#[tactic(auto, unfolding(crate::specs::Store::eq_node))]
fn is_node(memory: &[u32], i: usize, node: Node) -> bool
    requires { i * 8 + 8 ≤ length memory.now }
    ensures { result ≡ eq_node (node_at memory.now i) node }
{
    node_at(memory, i) == node
}

// Word by word: copied in at once, the words stand in an array on the stack first, and `put` takes a sixteenth longer.
#[tactic(auto, unfolding(crate::specs::Store::written))]
fn write(memory: &mut [u32], i: usize, node: Node)
    requires { i * 8 + 8 ≤ length memory.old }
    ensures { memory.new ≡ written memory.old i node }
{
    let b = i * 8;
    memory[b] = node.kind;
    memory[b + 1] = node.payload;
    memory[b + 2] = node.a0;
    memory[b + 3] = node.a1;
    memory[b + 4] = node.a2;
    memory[b + 5] = node.a3;
}

// Writes a node at id `count`, in front of the chain of bucket `b`, which began with `start`.
#[tactic(auto, unfolding(crate::specs::Store::linked_in))]
fn append(memory: &mut [u32], count: u32, b: usize, start: u32, node: Node)
    requires { (count < 4096) × (b < 4096) × (term_words ≤ length memory.old) }
    ensures { memory.new ≡ linked_in memory.old count b start node }
{
    let i = count as usize;
    write(memory, i, node);
    memory[i * 8 + 6] = start;
    memory[b * 8 + 7] = count + 1;
}

// The id plus 1. Links of a store go down, so what is still to be met lies below `top`; a cursor that does not ends the walk.
fn find(memory: &[u32], start: u32, count: u32, node: Node) -> Option<u32>
    requires { (count ≤ 4096) × (term_words ≤ length memory.now) }
    ensures { result ≡ find_of memory.now start count node }
{
    let mut at = start;
    let mut top = count;
    while at != 0 && at <= top {
        let i = at - 1;
        let k = i as usize;
        let alike = is_node(memory, k, node);
        if alike {
            return Some(at);
        }
        at = memory[k * 8 + 6];
        top = i;
    }
    None
}

// The term of a node, stored where it is not yet.
#[tactic(auto, unfolding(crate::specs::Store::intern_of))]
pub fn intern(memory: &mut [u32], count: u32, node: Node) -> Result<Kept, InternError>
    ensures { out (says_of result) memory.new ≡ intern_of memory.old count node }
{
    if memory.len() < TERM_WORDS {
        return Err(InternError::Short);
    }
    if count > MOST_TERMS {
        return Err(InternError::Full);
    }
    let b = bucket(node);
    let start = memory[b * 8 + 7];
    if let Some(id) = find(memory, start, count, node) {
        return Ok(Kept { count, id });
    }
    if count >= MOST_TERMS {
        return Err(InternError::Full);
    }
    append(memory, count, b, start, node);
    Ok(Kept {
        count: count + 1,
        id: count + 1,
    })
}

// `intern` for callers that have the node's words one by one.
pub fn put(
    memory: &mut [u32],
    count: u32,
    kind: u32,
    payload: u32,
    ids: [u32; 4],
) -> Result<Kept, InternError>
    ensures { out (says_of result) memory.new ≡ intern_of memory.old count (node_of kind payload ids) }
{
    let node = Node {
        kind,
        payload,
        a0: ids[0],
        a1: ids[1],
        a2: ids[2],
        a3: ids[3],
    };
    intern(memory, count, node)
}

// Whether the term with id plus 1 = r is the starting cell c of array a. No store has a term 0 or one above 4,096.
#[tactic(auto, unfolding(crate::specs::Store::starts_at))]
pub fn is_start(memory: &[u32], r: u32, a: u32, c: u32) -> Result<bool, ShortMemory>
    ensures { start_says result ≡ starts_at memory.now r a c }
{
    if memory.len() < TERM_WORDS {
        return Err(ShortMemory);
    }
    let start = Node {
        kind: STARTING_CELL,
        payload: a,
        a0: c,
        a1: 0,
        a2: 0,
        a3: 0,
    };
    Ok(0 < r && r <= MOST_TERMS && is_node(memory, (r - 1) as usize, start))
}
