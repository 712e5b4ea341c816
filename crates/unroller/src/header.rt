// The header of an update list (docs/LAYOUT.md), written into a cleared list.
ghost use Rattle.std.specs.Prelude.{◌≡◌, ◌+◌, ◌≤◌, length};
ghost use Rattle.std.proofs.lemmas.List.Edits.{sets};
ghost use Rattle.reader.specs.Entries.{cut};
ghost use Rattle.unroller.specs.UnrollAnswers.{rows, head_words};
ghost use Rattle.model.specs.Memory.{header_words};

use reader::tables::Tables;

fn put_operators(bytes: &[u8; 16], list: &mut [u32])
    requires { header_words ≤ length list.old }
    ensures { list.new ≡ sets list.old 1 (cut 16 0 bytes.now) }
{
    for k in 0..16 {
        list[1 + k] = u32::from(bytes[k]);
    }
}

// The five words of an array.
fn put_row(list: &mut [u32], at: usize, row: [u32; 5])
    requires { at + 5 ≤ length list.old }
    ensures { list.new ≡ sets list.old at row }
{
    list[at..at + 5].copy_from_slice(&row);
}

fn put_rows(tables: &Tables, list: &mut [u32])
    requires { header_words ≤ length list.old }
    ensures { list.new ≡ sets list.old 18 (rows 16 0 «tables».now.roles «tables».now.dimensions «tables».now.extents) }
{
    for k in 0..16 {
        let row = [
            u32::from(tables.roles[k]),
            u32::from(tables.dimensions[k]),
            u32::from(tables.extents[3 * k]),
            u32::from(tables.extents[3 * k + 1]),
            u32::from(tables.extents[3 * k + 2]),
        ];
        put_row(list, 18 + 5 * k, row);
    }
}

// At most 16 operators and 16 arrays count.
pub(crate) fn header(tables: &Tables, list: &mut [u32])
    requires { header_words ≤ length list.old }
    ensures { list.new ≡ sets list.old 0 (head_words «tables».now) }
{
    list[0] = tables.operators.min(16) as u32;
    put_operators(&tables.bytes, list);
    list[17] = tables.arrays.min(16) as u32;
    put_rows(tables, list);
}
