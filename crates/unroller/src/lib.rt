// Turns a program into its update list in lent memory, and checks a list.
#![tactic(auto)]

mod entry;
mod forms;
mod header;
mod items;
mod lists;
mod origins;
mod statement;
mod walk;

pub use entry::{UnrollError, unroll};
pub use lists::{ListError, check_list};
pub use origins::{Writer, origin_of};
