// Expressions, in prefix order. A node and the arguments that remain are read by turns, at most 12 operators deep.
ghost use Rattle.std.specs.Prelude.{◌≡◌, [], ◌∷◌};
ghost use Rattle.reader.specs.Field.{times};
ghost use Rattle.reader.specs.Syntax.{count, counts};
ghost use Rattle.reader.specs.Syntax.Exprs.{none as no_args, more as more_args};
ghost use Rattle.reader.specs.Grammar.{form, read_of, literal_of, constant_of, node as node_of, applied, expression};
ghost use Rattle.reader.specs.Answers.{through, ended, read_says, place_says};
ghost use Rattle.reader.specs.Entries.{tables_in, forms_step, expression_step, leaf_of, arity_step};

use crate::fields::{Read, byte_at, index_at, name_at};
use crate::forms::form_end;
use crate::tables::{FlatTables, arity_of, array_count, dimensions_of, operator_count};
use model::question::{Question, Refusal};

// The end of n forms in a row.
#[tactic(auto, using(crate::proofs::Steps::times_end, crate::proofs::Steps::times_stop, crate::proofs::Steps::times_step))]
pub(crate) fn forms_past(s: &[u8], at: usize, loops: usize, n: usize) -> Result<usize, Refusal>
    ensures { place_says result ≡ ended (times [] ◌∷◌ (form loops) n s.now at) }
{
    let mut place = at;
    for _ in 0..n {
        place = form_end(s, place, loops)?;
    }
    Ok(place)
}

// The end of n forms in a row inside any number of loops. Beyond 8 it is 12, of no form too.
#[tactic(auto, unfolding(crate::specs::Answers::through, crate::specs::Entries::forms_step))]
pub fn forms_end(s: &[u8], at: usize, loops: usize, n: usize) -> Result<usize, Refusal>
    ensures { place_says result ≡ ended (forms_step loops n s.now at) }
{
    if 8 < loops {
        return Err(Question::Depth.at(at));
    }
    forms_past(s, at, loops, n)
}

#[tactic(auto, unfolding(crate::specs::Answers::through, crate::specs::Grammar::read_of, crate::specs::Grammar::subscripts))]
fn read_end(s: &[u8], at: usize, tables: &FlatTables, loops: usize) -> Result<usize, Refusal>
    ensures { place_says result ≡ ended (read_of (tables_in tables.now) loops s.now at) }
{
    let (array, next) = index_at(s, at, array_count(tables))?;
    forms_past(s, next, loops, dimensions_of(tables, array))
}

#[tactic(auto, unfolding(crate::specs::Answers::through, crate::specs::Grammar::constant_of))]
fn constant_end(s: &[u8], at: usize, tables: &FlatTables, loops: usize) -> Result<usize, Refusal>
    ensures { place_says result ≡ ended (constant_of (tables_in tables.now) loops s.now at) }
{
    let (_, next) = name_at(s, at)?;
    Ok(next)
}

// What follows the code of a read, a literal or a constant, which stands at `at`: one node.
#[tactic(auto, unfolding(crate::specs::Answers::through, crate::specs::Entries::leaf_of, crate::specs::Grammar::literal_of, crate::specs::Syntax::count, crate::specs::Grammar::read_of, crate::specs::Grammar::subscripts, crate::specs::Grammar::constant_of))]
fn leaf_end(
    s: &[u8],
    at: usize,
    code: usize,
    next: usize,
    tables: &FlatTables,
    loops: usize,
) -> Read<usize>
    ensures { read_says result ≡ through count (leaf_of (tables_in tables.now) loops code at s.now next) }
{
    let end = match code {
        0x10 => read_end(s, next, tables, loops)?,
        0x12 => form_end(s, next, loops)?,
        0x13 => constant_end(s, next, tables, loops)?,
        _ => return Err(Question::Code.at(at)),
    };
    Ok((1, end))
}

// The arity of the operator whose code stands at `code`, and the place behind its number. 12 is asked before that is read.
#[tactic(auto, unfolding(crate::specs::Answers::through, crate::specs::Entries::arity_step))]
fn operator_at(s: &[u8], code: usize, at: usize, tables: &FlatTables, left: usize) -> Read<usize>
    ensures { read_says result ≡ arity_step (tables_in tables.now) left code s.now at }
{
    if left == 0 {
        return Err(Question::Depth.at(code));
    }
    let (operator, next) = index_at(s, at, operator_count(tables))?;
    Ok((arity_of(tables, operator), next))
}

// A node at `at`, in which operators may nest `left` deep: its nodes and its end. It and `args` call each other. What falls: an
// operator takes two bytes and a level of nesting from its arguments; an argument begins no earlier than the first of them.
#[tactic(auto, unfolding(crate::specs::Answers::through, crate::specs::Grammar::node, crate::specs::Entries::leaf_of, crate::specs::Grammar::applied, crate::specs::Grammar::apply_of, crate::specs::Entries::arity_step, crate::specs::Syntax::count))]
#[cycle(args_node)]
fn node(s: &[u8], at: usize, tables: &FlatTables, loops: usize, left: usize) -> Read<usize>
    ensures { read_says result ≡ through count (node_of (tables_in tables.now) loops (applied (tables_in tables.now) loops left) s.now at) }
{
    let (code, next) = byte_at(s, at)?;
    if code != 0x11 {
        return leaf_end(s, at, code, next, tables, loops);
    }
    let (n, first) = operator_at(s, at, next, tables, left)?;
    let (nodes, end) = args(s, first, tables, loops, left - 1, n)?;
    Ok((nodes + 1, end))
}

// The arguments that remain: the nodes of all, and their end. A loop reads them, so calls nest as deep as operators do.
#[cycle(args_node)]
fn args(
    s: &[u8],
    at: usize,
    tables: &FlatTables,
    loops: usize,
    left: usize,
    more: usize,
) -> Read<usize>
    ensures { read_says result ≡ through counts (times no_args more_args (node_of (tables_in tables.now) loops (applied (tables_in tables.now) loops left)) more s.now at) }
{
    let mut place = at;
    let mut nodes: usize = 0;
    for _ in 0..more {
        let (own, next) = node(s, place, tables, loops, left)?;
        nodes += own;
        place = next;
    }
    Ok((nodes, place))
}

// The expression at `at`: the number of its nodes and the place past it.
#[tactic(auto, unfolding(crate::specs::Grammar::expression))]
pub(crate) fn expression_past(s: &[u8], at: usize, tables: &FlatTables, loops: usize) -> Read<usize>
    ensures { read_says result ≡ through count (expression (tables_in tables.now) loops s.now at) }
{
    node(s, at, tables, loops, 12)
}

// The same inside any number of loops; beyond 8 it is 12.
#[tactic(auto, unfolding(crate::specs::Answers::through, crate::specs::Entries::expression_step))]
pub fn expression_end(s: &[u8], at: usize, tables: &FlatTables, loops: usize) -> Read<usize>
    ensures { read_says result ≡ through count (expression_step (tables_in tables.now) loops s.now at) }
{
    if loops > 8 {
        Err(Question::Depth.at(at))
    } else {
        expression_past(s, at, tables, loops)
    }
}
