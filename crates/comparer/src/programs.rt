// Two programs, both in one framed input, or one of many pairs: question 1, then 2 to 20 of each, then 22 to 24.
// Work memory is four slices and no struct of them: its fields have no names in a contract (`work.entry.1.1.0.now`).
use crate::batch::{LengthsError, lengths_reply, pair_whole, program_length};
use crate::lists::{compared, long_enough};
use crate::memory::clear_used;
use crate::reply::{Reply, Side};
use crate::tables::out_bits;
use model::memory::clear;
use model::question::{Question, Refusal};
use reader::fields::pair;
use unroller::{UnrollError, unroll};

// The mask of many pairs.
const ALL_BITS: u16 = 65535;

ghost use Rattle.std.specs.Prelude.{◌≡◌, ℕ, true, ◌≤◌, length, IfOk, IfErr};
ghost use Rattle.model.specs.Memory.{cleared, list_words};
ghost use Rattle.comparer.specs.Answers.{side_says, reply_says};
ghost use Rattle.comparer.specs.Headers.{Counted};
ghost use Rattle.comparer.specs.Laying.{Lays, Ended, mask_by, Masks};
ghost use Rattle.model.specs.Reply.{refused, input};
ghost use Rattle.model.specs.Update.{Listed};
ghost use Rattle.comparer.specs.BatchSteps.{body_reply};
ghost use Rattle.comparer.specs.Entry.{EntryAnswers, enough_lent, entry_reply, programs_by, programs_reply, plain_reply, input_by, input_masked, input_reply};

// The mask as a caller gives it; where none is given, the bits of the out arrays of the left's list.
fn mask_of(mask: Option<u16>, list: &[u32]) -> u16
    requires { Counted list.now }
    ensures { Masks mask list.now result }
{
    match mask {
        Some(bits) => bits,
        None => out_bits(list),
    }
}

fn lay_out(program: &[u8], list: &mut [u32]) -> Result<(), Refusal>
    requires { list_words ≤ length list.old }
    ensures lays { Lays program.now list.new result }
    ensures ended { Ended list.new }
{
    match unroll(program, list) {
        Ok(_) => Ok(()),
        Err(UnrollError::Refused(refusal)) => Err(refusal),
        Err(UnrollError::Short) => Err(Question::Memory.at(0)),
    }
}

// 2 to 20 of the left, then of the right, then 22 to 24.
fn unrolled_reply(
    left: &[u8],
    right: &[u8],
    mask: Option<u16>,
    left_list: &mut [u32],
    right_list: &mut [u32],
    cells: &mut [u32],
    terms: &mut [u32],
) -> Reply
    requires { enough_lent left_list.old right_list.old cells.old terms.old ≡ true }
    ensures result_value { reply_says result ≡ programs_by (mask_by mask) left.now right.now }
    ensures ended { Ended left_list.new × Ended right_list.new }
{
    if let Err(refusal) = lay_out(left, left_list) {
        clear(right_list);
        return Reply::refused(Side::Left, refusal.question, refusal.place);
    }
    if let Err(refusal) = lay_out(right, right_list) {
        return Reply::refused(Side::Right, refusal.question, refusal.place);
    }
    let bits = mask_of(mask, left_list);
    compared(left_list, right_list, bits, cells, terms)
}

// After 25; work memory is cleared behind it.
fn programs_reply(
    left: &[u8],
    right: &[u8],
    mask: Option<u16>,
    left_list: &mut [u32],
    right_list: &mut [u32],
    cells: &mut [u32],
    terms: &mut [u32],
) -> Reply
    ensures { EntryAnswers (reply_says result) (λ long. entry_reply long (programs_by (mask_by mask) left.now right.now))
        left_list.old right_list.old cells.old terms.old
        left_list.new right_list.new cells.new terms.new }
{
    if !long_enough(left_list.len(), right_list.len(), cells.len(), terms.len()) {
        return Reply::refused(Side::Both, Question::Memory, 0);
    }
    let reply = unrolled_reply(left, right, mask, left_list, right_list, cells, terms);
    clear_used(left_list, right_list, cells, terms);
    reply
}

// In the out and inout arrays whose bit of the mask is set.
pub fn compare_programs_masked(
    left: &[u8],
    right: &[u8],
    mask: u16,
    left_list: &mut [u32],
    right_list: &mut [u32],
    cells: &mut [u32],
    terms: &mut [u32],
) -> Reply
    ensures { EntryAnswers (reply_says result) (λ long. entry_reply long (programs_reply mask left.now right.now))
        left_list.old right_list.old cells.old terms.old
        left_list.new right_list.new cells.new terms.new }
{
    programs_reply(left, right, Some(mask), left_list, right_list, cells, terms)
}

// In the out arrays.
pub fn compare_programs(
    left: &[u8],
    right: &[u8],
    left_list: &mut [u32],
    right_list: &mut [u32],
    cells: &mut [u32],
    terms: &mut [u32],
) -> Reply
    ensures { EntryAnswers (reply_says result) (λ long. entry_reply long (plain_reply left.now right.now))
        left_list.old right_list.old cells.old terms.old
        left_list.new right_list.new cells.new terms.new }
{
    programs_reply(left, right, None, left_list, right_list, cells, terms)
}

// A refusal before any program is read.
fn unframed(reply: Reply, left_list: &mut [u32], right_list: &mut [u32]) -> Reply
    ensures value { result ≡ reply }
    ensures left_list_after { left_list.new ≡ cleared left_list.old }
    ensures right_list_after { right_list.new ≡ cleared right_list.old }
{
    clear(left_list);
    clear(right_list);
    reply
}

// The two programs of a framed input: the left's length in two bytes, the left, and the right up to the end.
fn programs_in(input: &[u8]) -> Result<(&[u8], &[u8]), LengthsError>
    ensures ok { IfOk result (λ programs. (mask : Listed → ℕ) → programs_by mask programs.0.now programs.1.now ≡ input_by mask input.now) }
    ensures err { IfErr result (λ e. (mask : Listed → ℕ) → refused (side_says e.side) e.number 0 ≡ input_by mask input.now) }
{
    let cut = LengthsError {
        side: Side::Input,
        number: 1,
    };
    if input.len() < 2 {
        return Err(cut);
    }
    let length = program_length(Side::Left, pair(input[0], input[1]))?;
    let end = 2 + length;
    if input.len() < end {
        return Err(cut);
    }
    Ok((&input[2..end], &input[end..]))
}

fn framed_reply(
    input: &[u8],
    mask: Option<u16>,
    left_list: &mut [u32],
    right_list: &mut [u32],
    cells: &mut [u32],
    terms: &mut [u32],
) -> Reply
    requires { enough_lent left_list.old right_list.old cells.old terms.old ≡ true }
    ensures result_value { reply_says result ≡ input_by (mask_by mask) input.now }
    ensures ended { Ended left_list.new × Ended right_list.new }
{
    match programs_in(input) {
        Ok((left, right)) => {
            unrolled_reply(left, right, mask, left_list, right_list, cells, terms)
        }
        Err(e) => unframed(lengths_reply(e.side, e.number), left_list, right_list),
    }
}

// After 25; work memory is cleared behind it.
fn input_reply(
    input: &[u8],
    mask: Option<u16>,
    left_list: &mut [u32],
    right_list: &mut [u32],
    cells: &mut [u32],
    terms: &mut [u32],
) -> Reply
    ensures { EntryAnswers (reply_says result) (λ long. entry_reply long (input_by (mask_by mask) input.now))
        left_list.old right_list.old cells.old terms.old
        left_list.new right_list.new cells.new terms.new }
{
    if !long_enough(left_list.len(), right_list.len(), cells.len(), terms.len()) {
        return Reply::refused(Side::Both, Question::Memory, 0);
    }
    let reply = framed_reply(input, mask, left_list, right_list, cells, terms);
    clear_used(left_list, right_list, cells, terms);
    reply
}

// Two programs in one framed input, in the out arrays.
pub fn compare_input(
    input: &[u8],
    left_list: &mut [u32],
    right_list: &mut [u32],
    cells: &mut [u32],
    terms: &mut [u32],
) -> Reply
    ensures { EntryAnswers (reply_says result) (λ long. entry_reply long (input_reply input.now))
        left_list.old right_list.old cells.old terms.old
        left_list.new right_list.new cells.new terms.new }
{
    input_reply(input, None, left_list, right_list, cells, terms)
}

// The same, in the out and inout arrays whose bit of the mask is set.
pub fn compare_input_masked(
    input: &[u8],
    mask: u16,
    left_list: &mut [u32],
    right_list: &mut [u32],
    cells: &mut [u32],
    terms: &mut [u32],
) -> Reply
    ensures { EntryAnswers (reply_says result) (λ long. entry_reply long (input_masked mask input.now))
        left_list.old right_list.old cells.old terms.old
        left_list.new right_list.new cells.new terms.new }
{
    input_reply(input, Some(mask), left_list, right_list, cells, terms)
}

// One of many pairs whose bytes are cut.
fn cut_reply(
    left_list: &mut [u32],
    right_list: &mut [u32],
    cells: &mut [u32],
    terms: &mut [u32],
) -> Reply
    ensures { EntryAnswers (reply_says result) (λ long. entry_reply long (refused input 1 0))
        left_list.old right_list.old cells.old terms.old
        left_list.new right_list.new cells.new terms.new }
{
    if !long_enough(left_list.len(), right_list.len(), cells.len(), terms.len()) {
        return Reply::refused(Side::Both, Question::Memory, 0);
    }
    clear(cells);
    clear(terms);
    unframed(
        Reply::refused(Side::Input, Question::Frame, 0),
        left_list,
        right_list,
    )
}

// One of many pairs: its lengths, and the bytes behind them. All bits of the mask are set.
pub fn compare_pair(
    body: &[u8],
    left: usize,
    right: usize,
    left_list: &mut [u32],
    right_list: &mut [u32],
    cells: &mut [u32],
    terms: &mut [u32],
) -> Reply
    ensures { EntryAnswers (reply_says result) (λ long. entry_reply long (body_reply left right body.now))
        left_list.old right_list.old cells.old terms.old
        left_list.new right_list.new cells.new terms.new }
{
    if !pair_whole(body.len(), left, right) {
        return cut_reply(left_list, right_list, cells, terms);
    }
    let end = left + right;
    compare_programs_masked(
        &body[0..left],
        &body[left..end],
        ALL_BITS,
        left_list,
        right_list,
        cells,
        terms,
    )
}
