// The unroller's entry.
ghost use Rattle.std.specs.Prelude.{◌≡◌, ◌≤◌, length};
ghost use Rattle.unroller.specs.Unroll.{unroll_reply, unroll_leaves};
ghost use Rattle.unroller.specs.UnrollAnswers.{unrolled_says, Unrolls};
ghost use Rattle.unroller.specs.declared.entry.UnrollError.TheVariants.{Refused};
ghost use Rattle.model.specs.Memory.{list_words};

use crate::header::header;
use crate::items::items;
use crate::walk::{Progress, Scope};
use model::memory::clear;
use model::question::Refusal;
use model::sizes::{LIST_WORDS, MOST_CELLS};
use reader::header::tables_of;
use reader::read_program;
use reader::tables::flat;

// Why there is no update list: a question was answered no, or the list is too short, which is question 25.
#[derive(Clone, Copy, Debug, PartialEq, Eq)]
pub enum UnrollError {
    Refused(Refusal),
    Short,
}

impl From<Refusal> for UnrollError {
    ghost from_gives = { λ r e. e ≡ Refused r };

    fn from(refusal: Refusal) -> UnrollError {
        UnrollError::Refused(refusal)
    }
}

// An accepted program, into a cleared list. On a refusal the list is cleared again.
fn run(program: &[u8], list: &mut [u32]) -> Result<usize, UnrollError>
    requires { list_words ≤ length list.old }
    ensures { Unrolls program.now list.old result list.new }
{
    let (tables, first) = tables_of(program)?;
    header(&tables, list);
    let scope = Scope {
        program,
        tables: &flat(tables),
        loops: 0,
        indices: [0; 8],
    };
    let mut flags = [0; MOST_CELLS];
    let mut progress = Progress::default();
    match items(&scope, first, 8, &mut progress, &mut flags, list) {
        Ok(_) => Ok(progress.updates),
        Err(refusal) => {
            clear(list);
            Err(UnrollError::Refused(refusal))
        }
    }
}

// The number of updates in the list of a program, which is followed by zeros. 25 is asked first and touches nothing.
pub fn unroll(program: &[u8], list: &mut [u32]) -> Result<usize, UnrollError>
    ensures reply { unrolled_says result ≡ unroll_reply program.now (length list.old) }
    ensures leaves { list.new ≡ unroll_leaves program.now list.old }
{
    if list.len() < LIST_WORDS {
        return Err(UnrollError::Short);
    }
    clear(list);
    read_program(program)?;
    run(program, list)
}
