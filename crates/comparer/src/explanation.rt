// The explanation of a difference: the stretch of the left or the right program's bytes that wrote the element last.
ghost use Rattle.std.specs.Prelude.{◌≡◌, length, leb, min, take};
ghost use Rattle.model.specs.Memory.{list_words, work_left};
ghost use Rattle.unroller.specs.OriginReply.{origin_reply};
ghost use Rattle.comparer.specs.Answers.{reply_says};
ghost use Rattle.comparer.specs.Entry.{EntryAnswers, left_in, right_in};
ghost use Rattle.comparer.specs.Explain.{plain, explanation, input_masked_explanation, input_explanation};
ghost use Rattle.comparer.specs.ExplainAnswers.{chosen_says, chosen_of, answer_says, explanation_says, answer_by, explanation_by, replied_by, list_left, IsPart};

use crate::programs::{compare_input, compare_input_masked, compare_programs_masked};
use crate::reply::{Reply, Side};
use reader::fields::pair;
use unroller::{UnrollError, origin_of};

// The side that a caller asks about.
#[derive(Clone, Copy, Debug, PartialEq, Eq)]
pub enum Chosen {
    Left,
    Right,
}

// A statement wrote the element, of which array and cell number are given; that side never wrote it; or side, question's number
// and place.
#[derive(Clone, Copy, Debug, PartialEq, Eq)]
pub enum Answer {
    Written(usize, usize),
    Starting(usize, usize),
    Refused(Side, u8, usize),
}

// The stretch is from `from` up to `to` in the chosen program's bytes, and the first `count` of the index values are the update's,
// outermost first; all are 0 where no statement wrote the element. There is no heap, so they are an array of fixed size and a count.
#[derive(Clone, Copy, Debug, PartialEq, Eq)]
pub struct Explanation {
    pub answer: Answer,
    pub from: usize,
    pub to: usize,
    pub count: usize,
    pub indices: [i16; 8],
}

impl Explanation {
    // Those that count.
    pub(crate) fn values(&self) -> &[i16]
        ensures values { result.now ≡ take (min self.now.count 8) self.now.indices }
        ensures count { length result.now ≡ min self.now.count 8 }
    {
        &self.indices[..self.count.min(8)]
    }
}

fn no_stretch(answer: Answer) -> Explanation
    ensures { explanation_says result ≡ plain (answer_says answer) }
{
    Explanation {
        answer,
        from: 0,
        to: 0,
        count: 0,
        indices: [0i16; 8],
    }
}

// Of an element of one program.
fn traced(program: &[u8], array: usize, cell: usize, list: &mut [u32]) -> Explanation
    ensures says { explanation_says result ≡ explanation_by array cell (origin_reply program.now array cell (length list.old)) }
    ensures leaves { list.new ≡ work_left (leb list_words (length list.old)) list.old }
{
    match origin_of(program, array, cell, list) {
        Ok(Some(writer)) => {
            let indices = writer.indices;
            Explanation {
                answer: Answer::Written(array, cell),
                from: writer.from,
                to: writer.to,
                count: writer.count,
                indices,
            }
        }
        Ok(None) => no_stretch(Answer::Starting(array, cell)),
        Err(UnrollError::Refused(refusal)) => {
            let number = u8::from(refusal.question);
            no_stretch(Answer::Refused(Side::Left, number, refusal.place))
        }
        Err(UnrollError::Short) => no_stretch(Answer::Refused(Side::Both, 25, 0)),
    }
}

// What the comparison's reply becomes. The list is work memory.
fn replied(reply: Reply, left: &[u8], right: &[u8], side: Chosen, list: &mut [u32]) -> Explanation
    ensures says { explanation_says result ≡ replied_by (reply_says reply) (λ a e. origin_reply (chosen_of side left.now right.now) a e (length list.old)) }
    ensures leaves { list.new ≡ list_left (reply_says reply) list.old }
{
    match reply {
        Reply::Equal(_) => no_stretch(Answer::Refused(Side::Both, 27, 0)),
        Reply::Refused(s, number, place) => no_stretch(Answer::Refused(s, number, place)),
        Reply::Differs(array, cell) => match side {
            Chosen::Left => traced(left, array, cell, list),
            Chosen::Right => traced(right, array, cell, list),
        },
    }
}

// Compares two programs and explains the first difference under this mask. The four lent slices are work memory.
pub fn explain(
    left: &[u8],
    right: &[u8],
    mask: u16,
    side: Chosen,
    left_list: &mut [u32],
    right_list: &mut [u32],
    cells: &mut [u32],
    terms: &mut [u32],
) -> Explanation
    ensures { EntryAnswers (explanation_says result) (λ long. explanation long mask (chosen_says side) left.now right.now)
        left_list.old right_list.old cells.old terms.old
        left_list.new right_list.new cells.new terms.new }
{
    let reply = compare_programs_masked(left, right, mask, left_list, right_list, cells, terms);
    replied(reply, left, right, side, left_list)
}

// The two programs of a framed input, as far as they are there.
fn parts_in(input: &[u8]) -> (&[u8], &[u8])
    ensures { (result.0.now ≡ left_in input.now) × (result.1.now ≡ right_in input.now) }
{
    if input.len() < 2 {
        return (&input[0..0], &input[0..0]);
    }
    let length = usize::from(pair(input[0], input[1]));
    let rest = &input[2..];
    rest.split_at(length.min(rest.len()))
}

fn framed(reply: Reply, input: &[u8], side: Chosen, list: &mut [u32]) -> Explanation
    ensures says { explanation_says result ≡ replied_by (reply_says reply) (λ a e. origin_reply (chosen_of side (left_in input.now) (right_in input.now)) a e (length list.old)) }
    ensures leaves { list.new ≡ list_left (reply_says reply) list.old }
{
    let (left, right) = parts_in(input);
    replied(reply, left, right, side, list)
}

// The same for a framed input, of the difference that `compare_input` finds in the out arrays.
pub fn explain_input(
    input: &[u8],
    side: Chosen,
    left_list: &mut [u32],
    right_list: &mut [u32],
    cells: &mut [u32],
    terms: &mut [u32],
) -> Explanation
    ensures { EntryAnswers (explanation_says result) (λ long. input_explanation long (chosen_says side) input.now)
        left_list.old right_list.old cells.old terms.old
        left_list.new right_list.new cells.new terms.new }
{
    let reply = compare_input(input, left_list, right_list, cells, terms);
    framed(reply, input, side, left_list)
}

// The same for a framed input and a mask.
pub fn explain_input_masked(
    input: &[u8],
    mask: u16,
    side: Chosen,
    left_list: &mut [u32],
    right_list: &mut [u32],
    cells: &mut [u32],
    terms: &mut [u32],
) -> Explanation
    ensures { EntryAnswers (explanation_says result) (λ long. input_masked_explanation long mask (chosen_says side) input.now)
        left_list.old right_list.old cells.old terms.old
        left_list.new right_list.new cells.new terms.new }
{
    let reply = compare_input_masked(input, mask, left_list, right_list, cells, terms);
    framed(reply, input, side, left_list)
}

// The bytes from `from` up to `to`; none where there is no such part.
fn part(bytes: &[u8], from: usize, to: usize) -> &[u8]
    ensures { IsPart bytes.entry from to result }
{
    if to < from || bytes.len() < to {
        return &bytes[0..0];
    }
    &bytes[from..to]
}

// A stretch of the left or the right program's bytes: a part of the lent slice, and no copy.
pub fn stretch<'a>(
    left: &'a [u8],
    right: &'a [u8],
    side: Chosen,
    from: usize,
    to: usize,
) -> &'a [u8]
    ensures { IsPart (chosen_of side left.entry right.entry) from to result }
{
    match side {
        Chosen::Left => part(left, from, to),
        Chosen::Right => part(right, from, to),
    }
}
