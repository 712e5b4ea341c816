// Walks the items of a file that was read without a "no": loops and guards here, statements by `statement`. The grammar rules out
// what the walk would refuse by its questions; they are asked all the same, so that no function leans on the bytes.
ghost use Rattle.std.specs.Prelude.{◌≡◌, ◌+◌, ◌≤◌, ◌<◌, length, pos};
ghost use Rattle.unroller.specs.Walk.{with_counts, RunsItem, RunsItems};
ghost use Rattle.unroller.specs.WalkItems.{Short, Ranges, Moves, RunsNested, RunsRound, RunsRounds};

use crate::forms::goes_on;
use crate::statement::statement;
use crate::walk::{Flags, Progress, Scope, Walk};
use model::question::{Question, Refusal};
use reader::fields::step_at;
use reader::items::items_end;

// A loop's start, end and step, and the place of its body.
#[derive(Clone, Copy, Debug, PartialEq, Eq)]
pub(crate) struct Range {
    pub(crate) first: i16,
    pub(crate) last: i16,
    pub(crate) step: i16,
    pub(crate) body: usize,
}

// An end of the loop at `at`. Does it lie in 16 signed bits?
fn short(v: i32, at: usize) -> Result<i16, Refusal>
    ensures { Short at v result }
{
    i16::try_from(v).map_err(|_| Question::Range.at(at))
}

impl<'a> Scope<'a> {
    // The loop whose code stands at `at`. Start and end are both worked out before they are asked about.
    pub(crate) fn range_at(&self, at: usize) -> Result<Range, Refusal>
        requires { at < length self.now.program.now }
        ensures ranges { Ranges self.now at result }
        ensures moves { Moves result }
    {
        let (first, middle) = self.value_at(at + 1)?;
        let (last, end) = self.value_at(middle)?;
        let (step, body) = step_at(self.program, end)?;
        Ok(Range {
            first: short(first, at)?,
            last: short(last, at)?,
            step,
            body,
        })
    }
}

// The items from `start` on, where loops and guards may still nest `left` deep.
#[cycle(item_items_round_rounds_run_guard_run_loop)]
pub(crate) fn items(
    scope: &Scope,
    start: usize,
    left: usize,
    progress: &mut Progress,
    flags: &mut Flags,
    list: &mut [u32],
) -> Walk
    requires { scope.now.loops + left ≤ 8 }
    ensures { RunsItems scope.now start left progress.old list.old flags.old (with_counts result progress.new) list.new flags.new }
{
    let mut place = start;
    while place < scope.program.len() {
        let code = scope.program[place];
        if code == 0 {
            return Ok(place + 1);
        }
        let next = item(scope, place, code, left, progress, flags, list)?;
        // An item takes a byte at least.
        if next <= place {
            return Err(Question::Cut.at(place));
        }
        place = next;
    }
    Err(Question::Cut.at(place))
}

// The item whose code stands at `at`.
#[cycle(item_items_round_rounds_run_guard_run_loop)]
fn item(
    scope: &Scope,
    at: usize,
    code: u8,
    left: usize,
    progress: &mut Progress,
    flags: &mut Flags,
    list: &mut [u32],
) -> Walk
    requires { (scope.now.loops + left ≤ 8) × (at < length scope.now.program.now) }
    ensures { RunsItem scope.now at code left progress.old list.old flags.old (with_counts result progress.new) list.new flags.new }
{
    match code {
        1 => statement(scope, at, progress, flags, list),
        2 => run_loop(scope, at, left, progress, flags, list),
        3 => run_guard(scope, at, left, progress, flags, list),
        _ => Err(Question::Code.at(at)),
    }
}

// The guard whose code stands at `at`: its items run when its form is 0 or more.
#[cycle(item_items_round_rounds_run_guard_run_loop)]
fn run_guard(
    scope: &Scope,
    at: usize,
    left: usize,
    progress: &mut Progress,
    flags: &mut Flags,
    list: &mut [u32],
) -> Walk
    requires { (scope.now.loops + left ≤ 8) × (at < length scope.now.program.now) }
    ensures { RunsNested scope.now at 3 left progress.old list.old flags.old (with_counts result progress.new) list.new flags.new }
{
    if left == 0 {
        return Err(Question::Depth.at(at));
    }
    let (value, body) = scope.value_at(at + 1)?;
    if value < 0 {
        return items_end(scope.program, body, scope.tables, left - 1, scope.loops);
    }
    items(scope, body, left - 1, progress, flags, list)
}

// The loop whose code stands at `at`.
#[cycle(item_items_round_rounds_run_guard_run_loop)]
fn run_loop(
    scope: &Scope,
    at: usize,
    left: usize,
    progress: &mut Progress,
    flags: &mut Flags,
    list: &mut [u32],
) -> Walk
    requires { (scope.now.loops + left ≤ 8) × (at < length scope.now.program.now) }
    ensures { RunsNested scope.now at 2 left progress.old list.old flags.old (with_counts result progress.new) list.new flags.new }
{
    if left == 0 {
        return Err(Question::Depth.at(at));
    }
    let range = scope.range_at(at)?;
    rounds(scope, at, range, left - 1, progress, flags, list)
}

// The rounds of the loop at `at`. The index is wider than 16 bits, so that a step past either end ends the loop. Where there was no
// round, the end of the body is looked for; else the last round has found it.
#[cycle(item_items_round_rounds_run_guard_run_loop)]
fn rounds(
    scope: &Scope,
    at: usize,
    range: Range,
    left: usize,
    progress: &mut Progress,
    flags: &mut Flags,
    list: &mut [u32],
) -> Walk
    requires { (scope.now.loops + left < 8) × (range.step ≡ pos 0 → ⊥) }
    ensures { RunsRounds scope.now at range.body left range.step range.last 65536 range.first None progress.old list.old flags.old (with_counts result progress.new) list.new flags.new }
{
    let end = i32::from(range.last);
    let mut index = i32::from(range.first);
    let mut past = None;
    while goes_on(index, end, range.step) {
        let next = round(
            scope,
            at,
            range.body,
            left,
            index as i16,
            progress,
            flags,
            list,
        )?;
        past = Some(next);
        index += i32::from(range.step);
    }
    match past {
        Some(next) => Ok(next),
        None => items_end(
            scope.program,
            range.body,
            scope.tables,
            left,
            scope.loops + 1,
        ),
    }
}

// One round, at this index. Before it: are there at most 65,536 with it? 18
#[cycle(item_items_round_rounds_run_guard_run_loop)]
fn round(
    scope: &Scope,
    at: usize,
    body: usize,
    left: usize,
    index: i16,
    progress: &mut Progress,
    flags: &mut Flags,
    list: &mut [u32],
) -> Walk
    requires { scope.now.loops + left < 8 }
    ensures { RunsRound scope.now at body left index progress.old list.old flags.old (with_counts result progress.new) list.new flags.new }
{
    if 65536 <= progress.rounds {
        return Err(Question::Rounds.at(at));
    }
    progress.rounds += 1;
    // A round of no items is told from here, without a call.
    if body < scope.program.len() && scope.program[body] == 0 {
        return Ok(body + 1);
    }
    items(&scope.inner(index), body, left, progress, flags, list)
}
