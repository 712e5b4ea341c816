// The checker for C and Rust to link (`tools/build cabi`, bindings/c/tengmua.h): a slice is a pointer and a length, a reply four
// numbers by value, an explanation nine and eight index values. Nothing is asked of a caller beyond that its slices are memory it owns, and that none it lends to be
// written overlaps another.
#![tactic(auto)]

ghost use Rattle.std.specs.Prelude.{◌≡◌, length};
ghost use Rattle.model.specs.Reply.{equal, refused};
ghost use Rattle.unroller.specs.Unroll.{unroll_reply, unroll_leaves, check_reply};
ghost use Rattle.unroller.specs.UnrollAnswers.{unrolled_says};
ghost use Rattle.unroller.specs.CheckAnswers.{checked_says};
ghost use Rattle.writer.specs.Write.{write_reply, write_leaves};
ghost use Rattle.writer.specs.Answers.{written_says};
ghost use Rattle.comparer.specs.Answers.{side_says, reply_says};
ghost use Rattle.comparer.specs.Entry.{EntryAnswers, ListsAnswer, entry_reply, programs_reply, plain_reply, words_reply};
ghost use Rattle.comparer.specs.Explain.{explanation};
ghost use Rattle.comparer.specs.ExplainAnswers.{chosen_says, explanation_says};
ghost use Rattle.cabi.specs.Numbers.{side_number, numbers_of, unrolled_numbers, checked_numbers, written_numbers, chosen_by, explanation_numbers};

use comparer::reply::{Reply, Side};
use comparer::{
    Answer, Chosen, Explanation, compare_lists, compare_programs, compare_programs_masked, explain,
};
use unroller::{ListError, UnrollError, check_list, unroll};
use writer::{WriteError, write_file};

// Kind 0, equal: how many elements were compared (of `unroll` the updates, of `check_list` 0, of `write_file` the bytes). 1, differs: array and cell.
// 2, refused: side (0 left, 1 right, 2 both, 3 input), question and place. Unused numbers are 0.
#[repr(C)]
#[derive(Clone, Copy)]
pub struct Numbers {
    pub kind: usize,
    pub first: usize,
    pub second: usize,
    pub third: usize,
}

fn side_number(side: Side) -> usize
    ensures { result ≡ side_number (side_says side) }
{
    match side {
        Side::Left => 0,
        Side::Right => 1,
        Side::Both => 2,
        Side::Input => 3,
    }
}

fn count(n: usize) -> Numbers
    ensures { result ≡ numbers_of (equal n) }
{
    Numbers {
        kind: 0,
        first: n,
        second: 0,
        third: 0,
    }
}

fn refusal(side: Side, question: u8, place: usize) -> Numbers
    ensures { result ≡ numbers_of (refused (side_says side) question place) }
{
    Numbers {
        kind: 2,
        first: side_number(side),
        second: question as usize,
        third: place,
    }
}

fn reply_numbers(reply: Reply) -> Numbers
    ensures { result ≡ numbers_of (reply_says reply) }
{
    match reply {
        Reply::Equal(n) => count(n),
        Reply::Differs(a, e) => Numbers {
            kind: 1,
            first: a,
            second: e,
            third: 0,
        },
        Reply::Refused(side, k, p) => refusal(side, k, p),
    }
}

fn unrolled_numbers(answer: Result<usize, UnrollError>) -> Numbers
    ensures { result ≡ unrolled_numbers (unrolled_says answer) }
{
    match answer {
        Ok(n) => count(n),
        Err(UnrollError::Refused(r)) => refusal(Side::Left, u8::from(r.question), r.place),
        Err(UnrollError::Short) => refusal(Side::Both, 25, 0),
    }
}

fn checked_numbers(answer: Result<(), ListError>) -> Numbers
    ensures { result ≡ checked_numbers (checked_says answer) }
{
    match answer {
        Ok(()) => count(0),
        Err(ListError::Refused) => refusal(Side::Left, 26, 0),
        Err(ListError::Short) => refusal(Side::Both, 25, 0),
    }
}

fn written_numbers(answer: Result<usize, WriteError>) -> Numbers
    ensures { result ≡ written_numbers (written_says answer) }
{
    match answer {
        Ok(length) => count(length),
        Err(WriteError::Short) => refusal(Side::Both, 25, 0),
        Err(WriteError::Refused) => refusal(Side::Left, 26, 0),
        Err(WriteError::Wide(update)) => refusal(Side::Left, 28, update),
        Err(WriteError::Long) => refusal(Side::Left, 29, 0),
    }
}

// Two programs, in the arrays whose bit of the mask is 1. The four lent slices are work memory: zeros afterwards, untouched under 25.
#[unsafe(no_mangle)]
pub extern "C" fn tengmua_compare_programs(
    left: &[u8],
    right: &[u8],
    mask: u16,
    left_list: &mut [u32],
    right_list: &mut [u32],
    cells: &mut [u32],
    terms: &mut [u32],
) -> Numbers
    ensures { EntryAnswers result (λ long. numbers_of (entry_reply long (programs_reply mask left.now right.now)))
        left_list.old right_list.old cells.old terms.old
        left_list.new right_list.new cells.new terms.new }
{
    let reply = compare_programs_masked(left, right, mask, left_list, right_list, cells, terms);
    reply_numbers(reply)
}

// Two programs, in the out arrays. The four lent slices are work memory, as above.
#[unsafe(no_mangle)]
pub extern "C" fn tengmua_compare_plain(
    left: &[u8],
    right: &[u8],
    left_list: &mut [u32],
    right_list: &mut [u32],
    cells: &mut [u32],
    terms: &mut [u32],
) -> Numbers
    ensures { EntryAnswers result (λ long. numbers_of (entry_reply long (plain_reply left.now right.now)))
        left_list.old right_list.old cells.old terms.old
        left_list.new right_list.new cells.new terms.new }
{
    let reply = compare_programs(left, right, left_list, right_list, cells, terms);
    reply_numbers(reply)
}

// Two lists, which may hold anything. `cells` and `terms` are work memory, as above.
#[unsafe(no_mangle)]
pub extern "C" fn tengmua_compare_lists(
    left: &[u32],
    right: &[u32],
    mask: u16,
    cells: &mut [u32],
    terms: &mut [u32],
) -> Numbers
    ensures { ListsAnswer result (numbers_of (words_reply mask left.now right.now (length cells.old) (length terms.old)))
        left.now right.now cells.old terms.old cells.new terms.new }
{
    let reply = compare_lists(left, right, mask, cells, terms);
    reply_numbers(reply)
}

// The list of a program, with zeros after it; zeros on a refusal, untouched under 25.
#[unsafe(no_mangle)]
pub extern "C" fn tengmua_unroll(program: &[u8], list: &mut [u32]) -> Numbers
    ensures value { result ≡ unrolled_numbers (unroll_reply program.now (length list.old)) }
    ensures list_after { list.new ≡ unroll_leaves program.now list.old }
{
    let answer = unroll(program, list);
    unrolled_numbers(answer)
}

// Questions 25 and 26 of a list that may hold anything.
#[unsafe(no_mangle)]
pub extern "C" fn tengmua_check_list(list: &[u32]) -> Numbers
    ensures { result ≡ checked_numbers (check_reply list.now) }
{
    let answer = check_list(list);
    checked_numbers(answer)
}

// A list as a program file at the front of `out`. Bytes beyond it are as they were, and so are all of them on a refusal.
#[unsafe(no_mangle)]
pub extern "C" fn tengmua_write_file(list: &[u32], out: &mut [u8]) -> Numbers
    ensures value { result ≡ written_numbers (write_reply list.now (length out.old)) }
    ensures out_after { out.new ≡ write_leaves list.now out.old }
{
    let answer = write_file(list, out);
    written_numbers(answer)
}

// Kind 0, written: array, cell, the stretch from `from` up to `to`, and the first `count` index values. 1, starting content: array and
// cell. 2, refused: side (0 left, 1 right, 2 both, 3 input), question and place. Unused numbers are 0.
#[repr(C)]
#[derive(Clone, Copy)]
pub struct ExplanationNumbers {
    pub kind: usize,
    pub side: usize,
    pub question: usize,
    pub place: usize,
    pub array: usize,
    pub cell: usize,
    pub from: usize,
    pub to: usize,
    pub count: usize,
    pub indices: [i16; 8],
}

fn chosen_by(side: usize) -> Chosen
    ensures { chosen_says result ≡ chosen_by side }
{
    if side == 0 {
        return Chosen::Left;
    }
    Chosen::Right
}

fn explanation_numbers(explanation: Explanation) -> ExplanationNumbers
    ensures { result ≡ explanation_numbers (explanation_says explanation) }
{
    let answer = explanation.answer;
    let indices = explanation.indices;
    let mut numbers = ExplanationNumbers {
        kind: 0,
        side: 0,
        question: 0,
        place: 0,
        array: 0,
        cell: 0,
        from: explanation.from,
        to: explanation.to,
        count: explanation.count,
        indices,
    };
    match answer {
        Answer::Written(a, e) => {
            numbers.array = a;
            numbers.cell = e;
        }
        Answer::Starting(a, e) => {
            numbers.kind = 1;
            numbers.array = a;
            numbers.cell = e;
        }
        Answer::Refused(side, k, p) => {
            numbers.kind = 2;
            numbers.side = side_number(side);
            numbers.question = k as usize;
            numbers.place = p;
        }
    }
    numbers
}

// Explains the first difference of two programs, for the left (0) or the right (any other number). Work memory as of a compare.
#[unsafe(no_mangle)]
pub extern "C" fn tengmua_explain(
    left: &[u8],
    right: &[u8],
    mask: u16,
    side: usize,
    left_list: &mut [u32],
    right_list: &mut [u32],
    cells: &mut [u32],
    terms: &mut [u32],
) -> ExplanationNumbers
    ensures { EntryAnswers result (λ long. explanation_numbers (explanation long mask (chosen_by side) left.now right.now))
        left_list.old right_list.old cells.old terms.old
        left_list.new right_list.new cells.new terms.new }
{
    let chosen = chosen_by(side);
    let explanation = explain(
        left, right, mask, chosen, left_list, right_list, cells, terms,
    );
    explanation_numbers(explanation)
}
