// Clearing what two programs have used.
ghost use Rattle.std.specs.Prelude.{◌≡◌, ◌+◌, ◌≤◌, length};
ghost use Rattle.model.specs.Memory.{cleared};
ghost use Rattle.comparer.specs.Laying.{Ended, Empties};

use model::memory::clear;
use model::sizes::{HEADER_WORDS, USED_WORDS};

// n words from `from` on.
fn clear_words(list: &mut [u32], from: usize, n: usize)
    requires { from + n ≤ length list.old }
    ensures { Empties from n list.old list.new }
{
    list[from..from + n].fill(0);
}

// A list that was unrolled, 64 records at a time. No record begins with 0, so nothing stands behind the first that does: a short
// list is cleared in little time, however long the slice.
fn clear_list(list: &mut [u32])
    requires { Ended list.old }
    ensures { list.new ≡ cleared list.old }
{
    clear_words(list, 0, HEADER_WORDS);
    let mut at: usize = HEADER_WORDS;
    while at < USED_WORDS {
        if list[at] == 0 {
            return;
        }
        clear_words(list, at, 192);
        at += 192;
    }
}

pub(crate) fn clear_used(
    left_list: &mut [u32],
    right_list: &mut [u32],
    cells: &mut [u32],
    terms: &mut [u32],
)
    requires { Ended left_list.old × Ended right_list.old }
    ensures left_list_after { left_list.new ≡ cleared left_list.old }
    ensures right_list_after { right_list.new ≡ cleared right_list.old }
    ensures cells_after { cells.new ≡ cleared cells.old }
    ensures terms_after { terms.new ≡ cleared terms.old }
{
    clear_list(left_list);
    clear_list(right_list);
    clear(cells);
    clear(terms);
}
