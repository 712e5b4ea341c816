// Reads a program file. Plain functions on a slice and a place; each answers what the definition of the same part of the grammar says.
// `cursor` keeps slice and place together, and the head of a file is read through it.
#![tactic(auto)]

ghost use Rattle.std.specs.Prelude.{◌≡◌};
ghost use Rattle.reader.specs.Grammar.{read_program};
ghost use Rattle.reader.specs.Verdicts.{said, verdict_says};

use crate::header::tables_of;
use crate::items::items_end;
use crate::tables::flat;
use model::question::{Question, Refusal};

pub mod cursor;
pub mod expressions;
pub mod fields;
pub mod forms;
pub mod header;
pub mod items;
pub mod tables;

// Whether a file is a program, or the question that was answered no. A program alone is the left one (`verdict_says`).
#[tactic(auto, using(crate::proofs::Whole::file_parts, crate::proofs::Flattened::tables_flat), unfolding(crate::specs::Verdicts::said, crate::specs::Answers::through))]
pub fn read_program(program: &[u8]) -> Result<(), Refusal>
    ensures { verdict_says result ≡ said (read_program program.now) }
{
    let (tables, at) = tables_of(program)?;
    let tables = flat(tables);
    let end = items_end(program, at, &tables, 8, 0)?;
    if end == program.len() {
        Ok(())
    } else {
        Err(Question::Rest.at(end))
    }
}
