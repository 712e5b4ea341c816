// Where an element was written last: a second walk over the items of a program that has run without a "no". It keeps the last
// statement that wrote the element and nothing else. What would be a "no" of the run is `None` here, and does not occur.
ghost use Rattle.std.specs.Prelude.{◌≡◌, ◌+◌, ◌≤◌, ◌<◌, length, leb, pos};
ghost use Rattle.model.specs.Memory.{list_words, work_left};
ghost use Rattle.unroller.specs.Origins.{PastIs, TracesStatement, TracesItem, TracesItems, TracesNested, TracesRound, TracesRounds};
ghost use Rattle.unroller.specs.OriginReply.{Found, origin_reply, origin_says};

use crate::entry::{UnrollError, unroll};
use crate::forms::goes_on;
use crate::items::Range;
use crate::walk::Scope;
use model::memory::clear;
use reader::expressions::expression_end;
use reader::fields::index_at;
use reader::header::tables_of;
use reader::items::items_end;
use reader::tables::{array_count, flat};

// An array and one of its cells.
#[derive(Clone, Copy, Debug, PartialEq, Eq)]
struct Element {
    array: usize,
    cell: usize,
}

// The stretch from a statement's code byte up to the end of its expression, and the index values of its loops, outermost first,
// `count` of the eight.
#[derive(Clone, Copy, Debug, PartialEq, Eq)]
pub struct Writer {
    pub from: usize,
    pub to: usize,
    pub count: usize,
    pub indices: [i16; 8],
}

// The place past the statement at `at`, whose expression stands at `source`. One that writes the element is the last so far.
fn past(
    scope: &Scope,
    at: usize,
    source: usize,
    hit: bool,
    last: &mut Option<Writer>,
) -> Option<usize>
    ensures { PastIs scope.now at source hit last.old result last.new }
{
    let (_, next) = expression_end(scope.program, source, scope.tables, scope.loops).ok()?;
    if hit {
        *last = Some(Writer {
            from: at,
            to: next,
            count: scope.loops,
            indices: scope.indices,
        });
    }
    Some(next)
}

// The statement whose code stands at `at`.
fn statement(scope: &Scope, at: usize, element: Element, last: &mut Option<Writer>) -> Option<usize>
    requires { at < length scope.now.program.now }
    ensures { TracesStatement scope.now at element last.old result last.new }
{
    let (array, subscripts) = index_at(scope.program, at + 1, array_count(scope.tables)).ok()?;
    let (cell, source) = scope.cell_at(subscripts, array).ok()?;
    past(scope, at, source, Element { array, cell } == element, last)
}

// The items from `start` on, where loops and guards may still nest `left` deep.
#[cycle(item_items_round_rounds_run_guard_run_loop)]
fn items(
    scope: &Scope,
    start: usize,
    left: usize,
    element: Element,
    last: &mut Option<Writer>,
) -> Option<usize>
    requires { scope.now.loops + left ≤ 8 }
    ensures { TracesItems scope.now start left element last.old result last.new }
{
    let mut place = start;
    while place < scope.program.len() {
        let code = scope.program[place];
        if code == 0 {
            return Some(place + 1);
        }
        let next = item(scope, place, code, left, element, last)?;
        // An item takes a byte at least.
        if next <= place {
            return None;
        }
        place = next;
    }
    None
}

// The item whose code stands at `at`.
#[cycle(item_items_round_rounds_run_guard_run_loop)]
fn item(
    scope: &Scope,
    at: usize,
    code: u8,
    left: usize,
    element: Element,
    last: &mut Option<Writer>,
) -> Option<usize>
    requires { (scope.now.loops + left ≤ 8) × (at < length scope.now.program.now) }
    ensures { TracesItem scope.now at code left element last.old result last.new }
{
    match code {
        1 => statement(scope, at, element, last),
        2 => run_loop(scope, at, left, element, last),
        3 => run_guard(scope, at, left, element, last),
        _ => None,
    }
}

// The guard whose code stands at `at`: its items run when its form is 0 or more.
#[cycle(item_items_round_rounds_run_guard_run_loop)]
fn run_guard(
    scope: &Scope,
    at: usize,
    left: usize,
    element: Element,
    last: &mut Option<Writer>,
) -> Option<usize>
    requires { (scope.now.loops + left ≤ 8) × (at < length scope.now.program.now) }
    ensures { TracesNested scope.now at 3 left element last.old result last.new }
{
    if left == 0 {
        return None;
    }
    let (value, body) = scope.value_at(at + 1).ok()?;
    if value < 0 {
        return items_end(scope.program, body, scope.tables, left - 1, scope.loops).ok();
    }
    items(scope, body, left - 1, element, last)
}

// The loop whose code stands at `at`.
#[cycle(item_items_round_rounds_run_guard_run_loop)]
fn run_loop(
    scope: &Scope,
    at: usize,
    left: usize,
    element: Element,
    last: &mut Option<Writer>,
) -> Option<usize>
    requires { (scope.now.loops + left ≤ 8) × (at < length scope.now.program.now) }
    ensures { TracesNested scope.now at 2 left element last.old result last.new }
{
    if left == 0 {
        return None;
    }
    let range = scope.range_at(at).ok()?;
    rounds(scope, range, left - 1, element, last)
}

// The rounds of a loop, as the run makes them.
#[cycle(item_items_round_rounds_run_guard_run_loop)]
fn rounds(
    scope: &Scope,
    range: Range,
    left: usize,
    element: Element,
    last: &mut Option<Writer>,
) -> Option<usize>
    requires { (scope.now.loops + left < 8) × (range.step ≡ pos 0 → ⊥) }
    ensures { TracesRounds scope.now range.body left range.step range.last 65536 range.first None element last.old result last.new }
{
    let end = i32::from(range.last);
    let mut index = i32::from(range.first);
    let mut past = None;
    while goes_on(index, end, range.step) {
        past = Some(round(scope, range.body, left, index as i16, element, last)?);
        index += i32::from(range.step);
    }
    match past {
        Some(next) => Some(next),
        None => items_end(
            scope.program,
            range.body,
            scope.tables,
            left,
            scope.loops + 1,
        )
        .ok(),
    }
}

// One round, at this index. A round of no items is told from here, without a call.
#[cycle(item_items_round_rounds_run_guard_run_loop)]
fn round(
    scope: &Scope,
    body: usize,
    left: usize,
    index: i16,
    element: Element,
    last: &mut Option<Writer>,
) -> Option<usize>
    requires { scope.now.loops + left < 8 }
    ensures { TracesRound scope.now body left index element last.old result last.new }
{
    if body < scope.program.len() && scope.program[body] == 0 {
        return Some(body + 1);
    }
    items(&scope.inner(index), body, left, element, last)
}

// Of a program that runs without a "no".
fn last_writer(program: &[u8], element: Element) -> Option<Writer>
    ensures { Found program.now element.array element.cell result }
{
    let (tables, first) = tables_of(program).ok()?;
    let scope = Scope {
        program,
        tables: &flat(tables),
        loops: 0,
        indices: [0; 8],
    };
    let mut last = None;
    items(&scope, first, 8, element, &mut last)?;
    last
}

// Where cell `cell` of array `array` was written last, if a statement wrote it. The list is work memory: all zeros afterwards,
// untouched under 25.
pub fn origin_of(
    program: &[u8],
    array: usize,
    cell: usize,
    list: &mut [u32],
) -> Result<Option<Writer>, UnrollError>
    ensures reply { origin_says result ≡ origin_reply program.now array cell (length list.old) }
    ensures leaves { list.new ≡ work_left (leb list_words (length list.old)) list.old }
{
    unroll(program, list)?;
    clear(list);
    Ok(last_writer(program, Element { array, cell }))
}
