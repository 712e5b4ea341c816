// What the programs say of a framed pair of programs, in memory of their own: the reply, and the explanation of a difference.
#![tactic(auto)]

ghost use Rattle.std.specs.Prelude.{◌≡◌};
ghost use Rattle.comparer.specs.Answers.{reply_says};
ghost use Rattle.comparer.specs.ExplainAnswers.{chosen_says, explanation_says};
ghost use Rattle.framed.specs.Masked.{reply_under, explanation_under};

use comparer::reply::Reply;
use comparer::{Chosen, Explanation};
use console::Console;
use model::sizes::{CELL_WORDS, LIST_WORDS, TERM_WORDS};

// In the out and inout arrays whose bit of the mask is set, or without a mask in the out arrays.
pub fn compare(input: &[u8], mask: Option<u16>) -> Reply
    ensures { reply_says result ≡ reply_under mask input.now }
{
    let mut left_list = [0u32; LIST_WORDS];
    let mut right_list = [0u32; LIST_WORDS];
    let mut cells = [0u32; CELL_WORDS];
    let mut terms = [0u32; TERM_WORDS];
    match mask {
        None => comparer::compare_input(
            input,
            &mut left_list,
            &mut right_list,
            &mut cells,
            &mut terms,
        ),
        Some(mask) => comparer::compare_input_masked(
            input,
            mask,
            &mut left_list,
            &mut right_list,
            &mut cells,
            &mut terms,
        ),
    }
}

// Of the difference that `compare` finds.
pub fn explain(input: &[u8], mask: Option<u16>, side: Chosen) -> Explanation
    ensures { explanation_says result ≡ explanation_under mask (chosen_says side) input.now }
{
    let mut left_list = [0u32; LIST_WORDS];
    let mut right_list = [0u32; LIST_WORDS];
    let mut cells = [0u32; CELL_WORDS];
    let mut terms = [0u32; TERM_WORDS];
    match mask {
        None => comparer::explain_input(
            input,
            side,
            &mut left_list,
            &mut right_list,
            &mut cells,
            &mut terms,
        ),
        Some(mask) => comparer::explain_input_masked(
            input,
            mask,
            side,
            &mut left_list,
            &mut right_list,
            &mut cells,
            &mut terms,
        ),
    }
}

// Prints the line of the reply, and where it is a difference the line of its explanation for the left, then the one for the right. What
// fails there the console has said.
pub fn answer(
    console: &Console<'_, impl Print, impl Eprint>,
    input: &[u8],
    mask: Option<u16>,
) -> Reply
    ensures { reply_says result ≡ reply_under mask input.now }
{
    let reply = compare(input, mask);
    let line = comparer::line_of(reply);
    let _ = console.print(line.as_bytes());
    if matches!(reply, Reply::Differs(..)) {
        for side in [Chosen::Left, Chosen::Right] {
            let line = comparer::explanation_line(explain(input, mask, side));
            let _ = console.print(line.as_bytes());
        }
    }
    reply
}
