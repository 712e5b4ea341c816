// One executed statement writes one update into the lent list.
ghost use Rattle.std.specs.Prelude.{◌≡◌, [], ◌∷◌, ◌+◌, ◌*◌, ◌<◌, ◌≤◌, length, drop, ltb};
ghost use Rattle.std.proofs.lemmas.List.Edits.{sets};
ghost use Rattle.reader.specs.Entries.{viewed, tables_in};
ghost use Rattle.unroller.specs.Scopes.{bytes, tables};
ghost use Rattle.unroller.specs.Walk.{with_counts, RunsStatement};
ghost use Rattle.unroller.specs.Writes.{WritesRead, WritesLiteral, WritesConstant, WritesLeaf, WritesOperator, WritesRecord, Roomy, WritesNode, Ends, spot, may_read, record_fine, scanned, Marks, WritesUpdate, Within, Sources, FewNodes, RunsUpdate};
ghost use Rattle.model.specs.Memory.{list_words};

use crate::walk::{Flags, Progress, Scope, Walk};
use model::question::{Question, Refusal};
use model::sizes::{HEADER_WORDS, LIST_WORDS, MOST_CELLS, MOST_NODES};
use reader::expressions::{expression_end, forms_end};
use reader::fields::{byte_at, index_at, name_at};
use reader::tables::{
    FlatTables, arity_of, array_count, base_of, dimensions_of, operator_count, role_of,
};

// The place past an expression, and the word past its records.
type Wrote = Result<(usize, usize), Refusal>;

// The place past a record's bytes, and how many records of arguments follow it.
type Record = Result<(usize, usize), Refusal>;

// The cell of an update's target, the place past its expression, and the word past its records.
#[derive(Clone, Copy, Debug, PartialEq, Eq)]
struct Target {
    cell: usize,
    next: usize,
    end: usize,
}

// A number as a word; what stands in a list always fits.
fn word(x: usize) -> u32
    ensures { x < 4294967296 → result ≡ x }
{
    u32::try_from(x).unwrap_or(0)
}

fn put(list: &mut [u32], to: usize, code: u32, x: u32, y: u32)
    requires { to + 3 ≤ length list.old }
    ensures { list.new ≡ sets list.old to (code ∷ x ∷ y ∷ []) }
{
    list[to] = code;
    list[to + 1] = x;
    list[to + 2] = y;
}

fn write_read(scope: &Scope, at: usize, list: &mut [u32], to: usize) -> Wrote
    requires { to + 3 ≤ length list.old }
    ensures { WritesRead (bytes scope.now) at (tables scope.now) scope.now.loops scope.now.indices list.old to result list.new }
{
    let (array, next) = index_at(scope.program, at, array_count(scope.tables))?;
    let (cell, end) = scope.cell_at(next, array)?;
    put(list, to, 16, word(array), word(cell));
    Ok((end, to + 3))
}

fn write_literal(scope: &Scope, at: usize, list: &mut [u32], to: usize) -> Wrote
    requires { to + 3 ≤ length list.old }
    ensures { WritesLiteral (bytes scope.now) at scope.now.loops scope.now.indices list.old to result list.new }
{
    let (v, next) = scope.value_at(at)?;
    put(list, to, 18, v.cast_unsigned(), 0);
    Ok((next, to + 3))
}

fn write_constant(program: &[u8], at: usize, list: &mut [u32], to: usize) -> Wrote
    requires { to + 3 ≤ length list.old }
    ensures { WritesConstant program.now at list.old to result list.new }
{
    let (name, next) = name_at(program, at)?;
    put(list, to, 19, word(name), 0);
    Ok((next, to + 3))
}

// What follows the code of a read, a literal or a constant.
fn write_leaf(scope: &Scope, code: usize, at: usize, list: &mut [u32], to: usize) -> Wrote
    requires { to + 3 ≤ length list.old }
    ensures { WritesLeaf (bytes scope.now) at (tables scope.now) scope.now.loops scope.now.indices code list.old to result list.new }
{
    match code {
        0x10 => write_read(scope, at, list, to),
        0x12 => write_literal(scope, at, list, to),
        0x13 => write_constant(scope.program, at, list, to),
        _ => Err(Question::Code.at(at)),
    }
}

// What follows an operator's code. No operator has more than four arguments, whatever the tables hold.
fn write_operator(scope: &Scope, at: usize, list: &mut [u32], to: usize) -> Record
    requires { to + 3 ≤ length list.old }
    ensures says { WritesOperator (bytes scope.now) at (tables scope.now) list.old to result list.new }
    ensures room { Roomy to (length list.old) result }
{
    let (operator, next) = index_at(scope.program, at, operator_count(scope.tables))?;
    let n = arity_of(scope.tables, operator);
    if 4 < n {
        return Err(Question::Operator.at(at));
    }
    put(list, to, 17, word(operator), 0);
    Ok((next, n))
}

// The record of the node at `at`, at word `to`.
fn write_record(scope: &Scope, at: usize, list: &mut [u32], to: usize) -> Record
    ensures says { WritesRecord (bytes scope.now) (tables scope.now) scope.now.loops scope.now.indices at list.old to result list.new }
    ensures room { Roomy to (length list.old) result }
{
    if list.len() < 3 || list.len() - 3 < to {
        return Err(Question::Nodes.at(at));
    }
    let (code, next) = byte_at(scope.program, at)?;
    if code == 0x11 {
        return write_operator(scope, next, list, to);
    }
    let (past, _) = write_leaf(scope, code, next, list, to)?;
    Ok((past, 0))
}

// The expression at `at`, into the list from word `to` on. In prefix order the arguments of an operator follow it, so it is enough
// to count how many nodes are still to come.
fn write_nodes(scope: &Scope, at: usize, list: &mut [u32], to: usize) -> Wrote
    requires { to ≤ length list.old }
    ensures says { WritesNode (bytes scope.now) at (tables scope.now) scope.now.loops scope.now.indices 12 list.old to result list.new }
    ensures ends { Ends to (length list.old) result }
{
    let mut place = at;
    let mut end = to;
    let mut more: usize = 1;
    while 0 < more {
        let (next, n) = write_record(scope, place, list, end)?;
        place = next;
        end += 3;
        more = more - 1 + n;
    }
    Ok((place, end))
}

// The number of a cell among the cells of all arrays; 2,048 for a cell beyond them.
fn spot_of(tables: &FlatTables, array: usize, cell: usize) -> usize
    ensures { result ≡ spot (viewed tables.now).bases array cell }
{
    if 16 < array {
        return MOST_CELLS;
    }
    let base = base_of(tables, array);
    if MOST_CELLS < base || MOST_CELLS < cell {
        return MOST_CELLS;
    }
    base + cell
}

// Is the cell of an in or inout array, or has an earlier update written it?
#[tactic(auto, unfolding(crate::specs::Writes::may_read))]
fn may_read(tables: &FlatTables, flags: &Flags, array: usize, cell: usize) -> bool
    ensures { result ≡ may_read (tables_in tables.now) (viewed tables.now).bases flags.now array cell }
{
    let role = role_of(tables, array);
    if role == 0 || role == 2 {
        return true;
    }
    let k = spot_of(tables, array, cell);
    k < MOST_CELLS && flags[k] == 1
}

// Is the record at `at` no read, or one of a cell that may be read?
fn record_fine(list: &[u32], at: usize, tables: &FlatTables, flags: &Flags) -> bool
    requires { at + 3 ≤ length list.now }
    ensures { result ≡ record_fine (may_read (tables_in tables.now) (viewed tables.now).bases flags.now) (drop at list.now) }
{
    list[at] != 16 || may_read(tables, flags, list[at + 1] as usize, list[at + 2] as usize)
}

// Is each cell read in the n records from word `from` on one that may be read?
fn all_written(list: &[u32], from: usize, n: usize, tables: &FlatTables, flags: &Flags) -> bool
    requires { from + 3 * n ≤ length list.now }
    ensures { result ≡ scanned (may_read (tables_in tables.now) (viewed tables.now).bases flags.now) n (drop from list.now) }
{
    for k in 0..n {
        if !record_fine(list, from + 3 * k, tables, flags) {
            return false;
        }
    }
    true
}

#[tactic(auto, unfolding(crate::specs::Writes::Marks))]
fn mark(flags: &mut Flags, k: usize)
    ensures { Marks flags.old k flags.new }
{
    if k < MOST_CELLS {
        flags[k] = 1;
    }
}

// The record of the target at word `to`, and the expression's behind it.
fn write_update(
    scope: &Scope,
    array: usize,
    at: usize,
    list: &mut [u32],
    to: usize,
) -> Result<Target, Refusal>
    requires { to + 3 ≤ length list.old }
    ensures says { WritesUpdate (bytes scope.now) array at (tables scope.now) scope.now.loops scope.now.indices list.old to result list.new }
    ensures within { Within to (length list.old) result }
{
    let (cell, source) = scope.cell_at(at, array)?;
    put(list, to, 1, word(array), word(cell));
    let (next, end) = write_nodes(scope, source, list, to + 3)?;
    Ok(Target { cell, next, end })
}

// The number of nodes of the expression behind a target's subscripts.
fn nodes_behind(scope: &Scope, at: usize, array: usize) -> Result<usize, Refusal>
    ensures { Sources (bytes scope.now) at (tables scope.now) scope.now.loops array result }
{
    let source = forms_end(
        scope.program,
        at,
        scope.loops,
        dimensions_of(scope.tables, array),
    )?;
    let (nodes, _) = expression_end(scope.program, source, scope.tables, scope.loops)?;
    Ok(nodes)
}

fn too_many(nodes: usize, more: usize) -> bool
    ensures { result ≡ ltb 8192 (nodes + more) }
{
    MOST_NODES < nodes || MOST_NODES - nodes < more
}

// Are there at most 8,192 nodes with those of the expression behind the subscripts at `at`? A node takes a byte at least, so they
// are counted only where the whole file is too long to tell.
fn few_nodes(scope: &Scope, at: usize, array: usize, nodes: usize) -> bool
    ensures { FewNodes (bytes scope.now) at (tables scope.now) scope.now.loops array nodes result }
{
    if !too_many(nodes, scope.program.len()) {
        return true;
    }
    match nodes_behind(scope, at, array) {
        Ok(more) => !too_many(nodes, more),
        Err(_) => true,
    }
}

// What is asked and done behind questions 19 and 20 of the statement whose code stands at `at`.
fn update(
    scope: &Scope,
    at: usize,
    array: usize,
    subscripts: usize,
    progress: &mut Progress,
    flags: &mut Flags,
    list: &mut [u32],
) -> Walk
    requires { (progress.old.updates < 2048) × (progress.old.nodes ≤ 8192) × (list_words ≤ length list.old) }
    ensures { RunsUpdate scope.now at array subscripts progress.old list.old flags.old (with_counts result progress.new) list.new flags.new }
{
    let to = HEADER_WORDS + 3 * (progress.updates + progress.nodes);
    let target = match write_update(scope, array, subscripts, list, to) {
        Ok(target) => target,
        // The run's refusals are the statement's, wherever in it they arise.
        Err(refusal) => return Err(refusal.question.at(at)),
    };
    let more = (target.end - (to + 3)) / 3;
    if !all_written(list, to + 3, more, scope.tables, flags) {
        return Err(Question::Unwritten.at(at));
    }
    mark(flags, spot_of(scope.tables, array, target.cell));
    progress.nodes += more;
    progress.updates += 1;
    Ok(target.next)
}

// The statement whose code stands at `at`. Its questions in order: 19, 20, then 16 of all subscripts, last 17.
pub(crate) fn statement(
    scope: &Scope,
    at: usize,
    progress: &mut Progress,
    flags: &mut Flags,
    list: &mut [u32],
) -> Walk
    ensures { RunsStatement scope.now at progress.old list.old flags.old (with_counts result progress.new) list.new flags.new }
{
    if 2047 < progress.updates {
        return Err(Question::Updates.at(at));
    }
    // A statement that was read has its code in the program, a list that was lent is long enough, and there were 8,192 nodes at most.
    if scope.program.len() <= at {
        return Err(Question::Cut.at(at));
    }
    if list.len() < LIST_WORDS {
        return Err(Question::Memory.at(at));
    }
    if MOST_NODES < progress.nodes {
        return Err(Question::Nodes.at(at));
    }
    let (array, subscripts) = index_at(scope.program, at + 1, array_count(scope.tables))?;
    if !few_nodes(scope, subscripts, array, progress.nodes) {
        return Err(Question::Nodes.at(at));
    }
    update(scope, at, array, subscripts, progress, flags, list)
}
