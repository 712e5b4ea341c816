// Two lists in words: questions 25 and 26, then 22 to 24.
ghost use Rattle.std.specs.Prelude.{◌≡◌, true, ◌≤◌, length};
ghost use Rattle.model.specs.Memory.{list_words};
ghost use Rattle.unroller.specs.Decode.{decode, accepted};
ghost use Rattle.comparer.specs.Answers.{reply_says};
ghost use Rattle.comparer.specs.Asked.{Asked};
ghost use Rattle.comparer.specs.Entry.{ListsAnswer, enough, enough_lent, decoded_reply, words_reply};
ghost use Rattle.comparer.specs.Headers.{Counted};

use crate::compare::match_lists;
use crate::reply::{Reply, Side};
use crate::tables::{Unequal, tables};
use model::memory::clear;
use model::question::Question;
use model::sizes::{CELL_WORDS, LIST_WORDS, TERM_WORDS};
use unroller::check_list;

// Question 25, of the lengths of two lists and of the work memory.
pub(crate) fn long_enough(left: usize, right: usize, cells: usize, terms: usize) -> bool
    ensures { result ≡ enough left right cells terms }
{
    LIST_WORDS <= left && LIST_WORDS <= right && CELL_WORDS <= cells && TERM_WORDS <= terms
}

// 22 to 24, of two lists that stand in their slices. Work memory may hold anything.
pub(crate) fn compared(
    left: &[u32],
    right: &[u32],
    mask: u16,
    cells: &mut [u32],
    terms: &mut [u32],
) -> Reply
    requires { Counted left.now × Counted right.now }
    ensures { Asked left.now right.now mask cells.old terms.old result }
{
    match tables(left, right) {
        Err(Unequal::Arrays(a)) => Reply::refused(Side::Both, Question::Arrays, a),
        Err(Unequal::Operators(o)) => Reply::refused(Side::Both, Question::Operators, o),
        Ok(()) => {
            clear(cells);
            clear(terms);
            match_lists(left, right, mask, cells, terms)
        }
    }
}

fn is_accepted(list: &[u32]) -> bool
    requires { list_words ≤ length list.now }
    ensures { result ≡ accepted list.now }
{
    check_list(list).is_ok()
}

// 26 of the left, then of the right, then 22 to 24.
fn checked(left: &[u32], right: &[u32], mask: u16, cells: &mut [u32], terms: &mut [u32]) -> Reply
    requires { enough_lent left.now right.now cells.old terms.old ≡ true }
    ensures { reply_says result ≡ decoded_reply mask (decode left.now) (decode right.now) }
{
    if !is_accepted(left) {
        return Reply::refused(Side::Left, Question::List, 0);
    }
    if !is_accepted(right) {
        return Reply::refused(Side::Right, Question::List, 0);
    }
    compared(left, right, mask, cells, terms)
}

pub fn compare_lists(
    left: &[u32],
    right: &[u32],
    mask: u16,
    cells: &mut [u32],
    terms: &mut [u32],
) -> Reply
    ensures { ListsAnswer (reply_says result) (words_reply mask left.now right.now (length cells.old) (length terms.old))
        left.now right.now cells.old terms.old cells.new terms.new }
{
    if !long_enough(left.len(), right.len(), cells.len(), terms.len()) {
        return Reply::refused(Side::Both, Question::Memory, 0);
    }
    let reply = checked(left, right, mask, cells, terms);
    clear(cells);
    clear(terms);
    reply
}
