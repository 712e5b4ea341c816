// Items up to their closing 00. A run of items and an item with a run of its own are read by turns, at most 8 deep.
ghost use Rattle.std.specs.Prelude.{◌≡◌, ℕ, ◌+◌, ◌≤◌, ◌<◌, length};
ghost use Rattle.reader.specs.Field.{Reader};
ghost use Rattle.reader.specs.Syntax.{Items};
ghost use Rattle.reader.specs.Grammar.{statement_of, loop_of, item_of, nested, body};
ghost use Rattle.reader.specs.Answers.{ended, place_says};
ghost use Rattle.reader.specs.Entries.{tables_in, continued, items_step};

use crate::expressions::{expression_past, forms_past};
use crate::fields::{index_at, step_at};
use crate::forms::form_end;
use crate::tables::{FlatTables, array_count, dimensions_of, role_of};
use model::question::{Question, Refusal};

// What follows a statement's code, wherever that stands.
#[tactic(auto, unfolding(crate::specs::Answers::through, crate::specs::Grammar::statement_of, crate::specs::Grammar::subscripts))]
fn statement_end(s: &[u8], at: usize, tables: &FlatTables, loops: usize) -> Result<usize, Refusal>
    ensures { (p : ℕ) → place_says result ≡ ended (statement_of (tables_in tables.now) loops p s.now at) }
{
    let (array, next) = index_at(s, at, array_count(tables))?;
    if role_of(tables, array) == 0 {
        return Err(Question::Target.at(at));
    }
    let source = forms_past(s, next, loops, dimensions_of(tables, array))?;
    let (_, end) = expression_past(s, source, tables, loops)?;
    Ok(end)
}

// A loop's start, end and step: where its own items, whatever reads them, begin.
#[tactic(auto, unfolding(crate::specs::Answers::through, crate::specs::Grammar::loop_of))]
fn loop_head_end(s: &[u8], at: usize, loops: usize) -> Result<usize, Refusal>
    ensures { (own : Reader Items) (p : ℕ) → continued result (λ next. ended (own s.now next)) ≡ ended (loop_of loops own p s.now at) }
{
    let end = form_end(s, at, loops)?;
    let step = form_end(s, end, loops)?;
    let (_, next) = step_at(s, step)?;
    Ok(next)
}

// The items from `at` on, inside so many loops, where loops and guards may still nest `left` deep.
#[cycle(around_item_run)]
fn run(
    s: &[u8],
    at: usize,
    tables: &FlatTables,
    left: usize,
    loops: usize,
) -> Result<usize, Refusal>
    requires { loops + left ≤ 8 }
    ensures { place_says result ≡ ended (body (tables_in tables.now) (length s.now) left loops s.now at) }
{
    let mut place = at;
    while place < s.len() {
        let code = s[place];
        if code == 0 {
            return Ok(place + 1);
        }
        place = item(s, place, code, tables, left, loops)?;
    }
    Err(Question::Cut.at(place))
}

// What follows an item's code, which stands at `at`.
#[tactic(auto, unfolding(crate::specs::Answers::through, crate::specs::Grammar::item_of))]
#[cycle(around_item_run)]
fn item(
    s: &[u8],
    at: usize,
    code: u8,
    tables: &FlatTables,
    left: usize,
    loops: usize,
) -> Result<usize, Refusal>
    requires { (loops + left ≤ 8) × (at < length s.now) }
    ensures { place_says result ≡ ended (item_of (tables_in tables.now) (length s.now) (nested (tables_in tables.now) (length s.now) left loops) loops code at s.now (at + 1)) }
{
    match code {
        1 => statement_end(s, at + 1, tables, loops),
        2 | 3 => around(s, at, code, tables, left, loops),
        _ => Err(Question::Code.at(at)),
    }
}

// What follows the code of a loop (2) or a guard (3) at `at`: its forms, and a run of its own.
#[tactic(auto, using(crate::proofs::Runs::guard_is), unfolding(crate::specs::Answers::through, crate::specs::Grammar::nested, crate::specs::Grammar::guard_of))]
#[cycle(around_item_run)]
fn around(
    s: &[u8],
    at: usize,
    code: u8,
    tables: &FlatTables,
    left: usize,
    loops: usize,
) -> Result<usize, Refusal>
    requires { (loops + left ≤ 8) × (at < length s.now) }
    ensures { place_says result ≡ ended (nested (tables_in tables.now) (length s.now) left loops code at s.now (at + 1)) }
{
    if left == 0 {
        return Err(Question::Depth.at(at));
    }
    if code == 2 {
        let next = loop_head_end(s, at + 1, loops)?;
        run(s, next, tables, left - 1, loops + 1)
    } else {
        let next = form_end(s, at + 1, loops)?;
        run(s, next, tables, left - 1, loops)
    }
}

// The end of a run of items inside so many loops, where loops and guards may still nest `left` deep. More than 8 together is 12.
#[tactic(auto, unfolding(crate::specs::Answers::through, crate::specs::Entries::items_step))]
pub fn items_end(
    s: &[u8],
    at: usize,
    tables: &FlatTables,
    left: usize,
    loops: usize,
) -> Result<usize, Refusal>
    ensures { place_says result ≡ ended (items_step (tables_in tables.now) left loops s.now at) }
{
    if 8 < left || 8 - left < loops {
        return Err(Question::Depth.at(at));
    }
    run(s, at, tables, left, loops)
}
