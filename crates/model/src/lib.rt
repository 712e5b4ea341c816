// Tables, update lists and replies, as definitions that all crates share, and the clearing of lent memory.
#![tactic(auto)]

pub mod memory;
pub mod operator;
pub mod question;
pub mod sizes;
