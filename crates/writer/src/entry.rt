// The writer's entry.
ghost use Rattle.std.specs.Prelude.{◌≡◌, true, ◌≤◌, length};
ghost use Rattle.std.proofs.lemmas.List.Edits.{sets};
ghost use Rattle.unroller.specs.Decode.{accepted};
ghost use Rattle.writer.specs.Write.{write_reply, write_leaves};
ghost use Rattle.writer.specs.Records.{KnownAll};
ghost use Rattle.writer.specs.Head.{HeadKnown};
ghost use Rattle.writer.specs.Answers.{written_says, unlisted, file_bytes, Writes};

use crate::head::{head_size, version_of, write_head};
use crate::records::{measure, write_statements};
use model::sizes::MOST_BYTES;
use unroller::{ListError, check_list};

// Why a list is no file. Short: 25. Refused: 26. Wide: 28, with the first update that has such a literal. Long: 29.
#[derive(Clone, Copy, Debug, PartialEq, Eq)]
pub enum WriteError {
    Short,
    Refused,
    Wide(usize),
    Long,
}

// The tables, the statements, each into what remains of the output, and the closing 00.
fn write_all(list: &[u32], n: usize, out: &mut [u8])
    requires { HeadKnown list.now × KnownAll list.now 98 n × (length (file_bytes list.now n) ≤ length out.old) }
    ensures { out.new ≡ sets out.old 0 (file_bytes list.now n) }
{
    let version = version_of(list);
    let head = write_head(list, version, out);
    let size = write_statements(list, n, &mut out[head..]);
    out[head + size] = 0;
}

impl From<ListError> for WriteError {
    ghost from_gives = { λ l e. e ≡ unlisted l };

    fn from(error: ListError) -> WriteError {
        match error {
            ListError::Short => WriteError::Short,
            ListError::Refused => WriteError::Refused,
        }
    }
}

// An accepted list. 28 and 29 are asked before anything is written.
fn write_accepted(list: &[u32], out: &mut [u8]) -> Result<usize, WriteError>
    requires { accepted list.now ≡ true }
    ensures { Writes list.now out.old result out.new }
{
    match measure(list) {
        Err(wide) => Err(WriteError::Wide(wide.updates - 1)),
        Ok(size) => {
            let total = head_size(list) + size.bytes + 1;
            if MOST_BYTES < total {
                return Err(WriteError::Long);
            }
            if out.len() < total {
                return Err(WriteError::Long);
            }
            write_all(list, size.records, out);
            Ok(total)
        }
    }
}

// The list as a program file without loops and guards, at the front of the output. A refusal leaves the output as it was.
pub fn write_file(list: &[u32], out: &mut [u8]) -> Result<usize, WriteError>
    ensures reply { written_says result ≡ write_reply list.now (length out.old) }
    ensures leaves { out.new ≡ write_leaves list.now out.old }
{
    check_list(list)?;
    write_accepted(list, out)
}
