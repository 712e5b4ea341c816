// Writes an update list back as a program file.
#![tactic(auto)]

mod entry;
mod head;
mod layout;
mod records;

pub use entry::{WriteError, write_file};
