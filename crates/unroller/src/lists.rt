// The check of a list that may hold anything (questions 25 and 26). docs/LAYOUT.md has the layout; `state` holds a byte for each
// array and cell, as specs/State.antt says.
ghost use Rattle.std.specs.Prelude.{◌≡◌, true, false, ◌||◌, not, eqb, ℕ, ◌+◌, ◌*◌, ◌≤◌, ◌<◌, length, drop, get_or, set};
ghost use Rattle.std.specs.List.{list_all};
ghost use Rattle.model.specs.Tables.{operator_byte};
ghost use Rattle.model.specs.Update.Trees.{nil, cons};
ghost use Rattle.unroller.specs.Words.{all_zero, times};
ghost use Rattle.unroller.specs.Decode.{expr, operates, accepted};
ghost use Rattle.unroller.specs.Unroll.{check_reply};
ghost use Rattle.unroller.specs.State.{readable_in, writable_in, spot, state_of};
ghost use Rattle.unroller.specs.CheckAnswers.{checked_says, factor_of, Declares, Arrays, Header, Leaf, answer_of, Reads, Follows, ReadsAll, Updates, Follow};
ghost use Rattle.model.specs.Memory.{header_words};

use model::operator::{arity, is_operator};
use model::sizes::{HEADER_WORDS, LIST_WORDS, MOST_CELLS, MOST_NODES, MOST_UPDATES};

// Why a list is not accepted.
#[derive(Clone, Copy, Debug, PartialEq, Eq)]
pub enum ListError {
    // It is not what the layout gives for some allowed list (26).
    Refused,
    // Too few words were lent (25).
    Short,
}

// A row of cells for each of 16 arrays.
const STATE: usize = 32768;

// Are all words 0? Eight at a time: the zeros behind a small list are most of the work of its check.
fn zeros(words: &[u32]) -> bool
    ensures { result ≡ all_zero words.now }
{
    let mut rest = words;
    while let [a, b, c, d, e, f, g, h, more @ ..] = rest {
        if (*a | *b | *c | *d | *e | *f | *g | *h) != 0 {
            return false;
        }
        rest = more;
    }
    rest.iter().all(|&word| word == 0)
}

// Are all words from `at` on 0?
fn ended(list: &[u32], at: usize) -> bool
    ensures { result ≡ all_zero (drop at list.now) }
{
    list.len() <= at || zeros(&list[at..])
}

// Are all of these operators' bytes?
fn operators(words: &[u32]) -> bool
    ensures { result ≡ list_all operator_byte words.now }
{
    words.iter().all(|&byte| is_operator(2, byte as usize))
}

// What a word adds to an array's size: an extent, or 1 where the dimension is not used.
#[tactic(auto, unfolding(crate::specs::CheckAnswers::factor_of))]
fn factor(used: bool, word: u32) -> Option<usize>
    ensures { result ≡ factor_of used word }
{
    match (used, word) {
        (true, 1..=1024) => Some(word as usize),
        (false, 0) => Some(1),
        _ => None,
    }
}

// The role and the size of the array whose five words stand at `at`.
fn array_at(list: &[u32], at: usize) -> Option<(u32, usize)>
    requires { at + 5 ≤ length list.now }
    ensures { Declares list.now at result }
{
    let role = list[at];
    let dimensions = list[at + 1];
    if 3 < role || dimensions < 1 || 3 < dimensions {
        return None;
    }
    let a = factor(true, list[at + 2])?;
    let b = factor(1 < dimensions, list[at + 3])?;
    let c = factor(2 < dimensions, list[at + 4])?;
    Some((role, a * b * c))
}

// What a cell of an array of this role has before the first update.
fn first_state(role: u32) -> u8
    ensures { result ≡ state_of role false }
{
    match role {
        0 => 3,
        2 => 2,
        _ => 1,
    }
}

// The m arrays, locals last; their cells get their first state.
fn arrays_at(list: &[u32], m: usize, state: &mut [u8]) -> bool
    requires header_words_in_bounds { (header_words ≤ length list.now) × (m ≤ 16) }
    requires state_len { (length state.old ≡ 32768) × ((i : ℕ) → get_or state.old i 0 ≡ 0) }
    ensures { Arrays list.now m state.new result }
{
    let mut local = false;
    let mut sum = 0;
    for k in 0..m {
        let Some((role, n)) = array_at(list, 18 + 5 * k) else {
            return false;
        };
        if local && role != 3 {
            return false;
        }
        if MOST_CELLS < sum + n {
            return false;
        }
        let first = MOST_CELLS * k;
        state[first..first + n].fill(first_state(role));
        local = role == 3;
        sum += n;
    }
    true
}

// The two tables, and zeros where they have none.
fn header(list: &[u32], state: &mut [u8]) -> bool
    requires header_words_in_bounds { header_words ≤ length list.now }
    requires state_len { (length state.old ≡ 32768) × ((i : ℕ) → get_or state.old i 0 ≡ 0) }
    ensures { Header list.now state.new result }
{
    let n = list[0] as usize;
    let m = list[17] as usize;
    if 16 < n || m < 1 || 16 < m {
        return false;
    }
    operators(&list[1..=n])
        && zeros(&list[1 + n..17])
        && arrays_at(list, m, state)
        && zeros(&list[18 + 5 * m..HEADER_WORDS])
}

// Is the cell of an in or inout array, or was it written?
#[tactic(auto, unfolding(crate::specs::State::readable_in))]
fn readable(state: &[u8], x: u32, y: u32) -> bool
    requires { length state.now ≡ 32768 }
    ensures { result ≡ readable_in state.now x y }
{
    x < 16 && y < 2048 && 2 <= state[MOST_CELLS * x as usize + y as usize]
}

// Is it a cell of a declared array that is no in array?
#[tactic(auto, unfolding(crate::specs::State::writable_in))]
fn writable(state: &[u8], x: u32, y: u32) -> bool
    requires { length state.now ≡ 32768 }
    ensures { result ≡ writable_in state.now x y }
{
    x < 16 && y < 2048 && matches!(state[MOST_CELLS * x as usize + y as usize], 1..=2)
}

// A record that is no operator's.
fn leaf(state: &[u8], code: u32, x: u32, y: u32) -> bool
    requires { (length state.now ≡ 32768) × (code ≡ 17 → ⊥) }
    ensures { Leaf (readable_in state.now) code x y result }
{
    match code {
        16 => readable(state, x, y),
        18 | 19 => y == 0,
        _ => false,
    }
}

// A node and all that belongs to it; operators may nest `left` deep. The answer is the place past it, or 0 for none: a record takes
// three words, so no place past one is 0. An enum went through memory from call to call, for most of the time of a check.
#[cycle(args_node_operator)]
fn node(list: &[u32], at: usize, ops: &[u32], state: &[u8], left: usize) -> usize
    requires { length state.now ≡ 32768 }
    ensures { Reads list.now at (expr ops.now (readable_in state.now) left (drop at list.now)) (answer_of result) }
{
    if list.len() < 3 || list.len() - 3 < at {
        return 0;
    }
    let code = list[at];
    let x = list[at + 1];
    let y = list[at + 2];
    if code == 17 {
        if y == 0 {
            return operator(list, at + 3, ops, state, left, x);
        }
        return 0;
    }
    if leaf(state, code, x, y) {
        return at + 3;
    }
    0
}

// What follows the record of the operator `o`.
#[cycle(args_node_operator)]
fn operator(list: &[u32], at: usize, ops: &[u32], state: &[u8], left: usize, o: u32) -> usize
    requires { (length state.now ≡ 32768) × (0 < at) }
    ensures { Follows list.now at (operates ops.now (readable_in state.now) left o (drop at list.now)) (answer_of result) }
{
    if left == 0 {
        return 0;
    }
    let k = o as usize;
    if ops.len() <= k {
        return 0;
    }
    args(list, at, ops, state, left - 1, arity(ops[k] as usize))
}

// The n arguments of an operator. Where n is 0 the answer is `at`, so that is not 0.
#[cycle(args_node_operator)]
fn args(list: &[u32], at: usize, ops: &[u32], state: &[u8], left: usize, n: usize) -> usize
    requires { (length state.now ≡ 32768) × (0 < at) }
    ensures { ReadsAll list.now at (times nil cons (expr ops.now (readable_in state.now) left) n (drop at list.now)) (answer_of result) }
{
    let mut place = at;
    for _ in 0..n {
        place = node(list, place, ops, state, left);
        if place == 0 {
            return 0;
        }
    }
    place
}

// The cell was written: from now on it may be read.
fn mark(state: &mut [u8], x: u32, y: u32)
    requires y_value { writable_in state.old x y ≡ true }
    requires state_len { length state.old ≡ 32768 }
    ensures { state.new ≡ set state.old (spot x y) 2 }
{
    state[MOST_CELLS * x as usize + y as usize] = 2;
}

// An update, where those before it have `count` nodes: the place past it, and the nodes with its own.
fn update_at(
    list: &[u32],
    at: usize,
    ops: &[u32],
    state: &mut [u8],
    count: usize,
) -> Option<(usize, usize)>
    requires { (length state.old ≡ 32768) × (count ≤ 8192) }
    ensures { Updates list.now at ops.now state.old count state.new result }
{
    if list.len() < 3 || list.len() - 3 < at {
        return None;
    }
    let code = list[at];
    let x = list[at + 1];
    let y = list[at + 2];
    if code != 1 || !writable(state, x, y) {
        return None;
    }
    let next = node(list, at + 3, ops, state, 12);
    if next == 0 {
        return None;
    }
    let size = (next - (at + 3)) / 3;
    if MOST_NODES - count < size {
        return None;
    }
    mark(state, x, y);
    Some((next, count + size))
}

// The updates from word 98 on, and the zeros behind them.
fn updates_at(list: &[u32], ops: &[u32], state: &mut [u8]) -> bool
    requires { length state.old ≡ 32768 }
    ensures { Follow list.now ops.now state.old result }
{
    let mut at = HEADER_WORDS;
    let mut count = 0;
    for _ in 0..MOST_UPDATES {
        if ended(list, at) {
            return true;
        }
        let Some((next, nodes)) = update_at(list, at, ops, state, count) else {
            return false;
        };
        at = next;
        count = nodes;
    }
    ended(list, at)
}

// Question 26, with a state of zeros.
fn accepts(list: &[u32], state: &mut [u8]) -> bool
    requires header_words_in_bounds { header_words ≤ length list.now }
    requires state_len { (length state.old ≡ 32768) × ((i : ℕ) → get_or state.old i 0 ≡ 0) }
    ensures { result ≡ accepted list.now }
{
    header(list, state) && updates_at(list, &list[1..=list[0] as usize], state)
}

// Is the list long enough (25), and is it what the layout gives for some allowed list (26)?
pub fn check_list(list: &[u32]) -> Result<(), ListError>
    ensures { checked_says result ≡ check_reply list.now }
{
    if list.len() < LIST_WORDS {
        return Err(ListError::Short);
    }
    let mut state = [0u8; STATE];
    if !accepts(list, &mut state) {
        return Err(ListError::Refused);
    }
    Ok(())
}
