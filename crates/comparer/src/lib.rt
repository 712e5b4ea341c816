// Compares two update lists, or two programs: the reply of docs/FORMAT.md. Explains a difference. Counts the replies to many pairs.
#![tactic(auto)]

mod batch;
mod compare;
mod evaluate;
mod explanation;
mod line;
mod lists;
mod memory;
mod programs;
pub mod reply;
mod tables;

pub use batch::{
    LENGTHS_BYTES, LengthsError, MOST_PAIRS, Totals, count_reply, lengths_reply, no_totals,
    pair_lengths, pair_whole,
};
pub use explanation::{
    Answer, Chosen, Explanation, explain, explain_input, explain_input_masked, stretch,
};
pub use line::{LINE_BYTES, Line, explanation_line, line_of, totals_line};
pub use lists::compare_lists;
pub use programs::{
    compare_input, compare_input_masked, compare_pair, compare_programs, compare_programs_masked,
};
