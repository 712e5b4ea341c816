// What the walk over a program's items hands on.
ghost use Rattle.std.specs.Prelude.{◌≡◌, ◌<◌};
ghost use Rattle.unroller.specs.Scopes.{bytes, tables, inside};
ghost use Rattle.unroller.specs.Writes.{InExtent, Below, Subscript, CellOf};

use model::question::{Question, Refusal};
use model::sizes::MOST_CELLS;
use reader::fields::Read;
use reader::tables::{FlatTables, array_count, dimensions_of, extent_of};

// For each cell whether an update has written it.
pub(crate) type Flags = [u8; MOST_CELLS];

// The rounds, nodes and updates of the run so far. Lent to the walk: in its answer they would be copied at each item and each round.
#[derive(Clone, Copy, Debug, Default, PartialEq, Eq)]
pub(crate) struct Progress {
    pub(crate) rounds: usize,
    pub(crate) nodes: usize,
    pub(crate) updates: usize,
}

// The place past what was run.
pub(crate) type Walk = Result<usize, Refusal>;

// What an item stands in: the program and its tables, the number of loops around it and their index values, outermost first.
#[derive(Clone, Copy)]
pub(crate) struct Scope<'a> {
    pub(crate) program: &'a [u8],
    pub(crate) tables: &'a FlatTables,
    pub(crate) loops: usize,
    pub(crate) indices: [i16; 8],
}

impl<'a> Scope<'a> {
    // One loop deeper, at this index.
    pub(crate) fn inner(&self, index: i16) -> Scope<'a>
        requires { self.now.loops < 8 }
        ensures { result ≡ inside self.now index }
    {
        let mut indices = self.indices;
        indices[self.loops] = index;
        Scope {
            loops: self.loops + 1,
            indices,
            ..*self
        }
    }

    // The subscript at `at`.
    fn subscript_at(&self, at: usize, extent: usize) -> Read<usize>
        requires { extent < 65536 }
        ensures says { Subscript (bytes self.now) at self.now.loops self.now.indices extent result }
        ensures below { Below extent result }
    {
        let (v, next) = self.value_at(at)?;
        in_extent(v, extent, next)
    }

    // The cell of a declared array at the subscripts that stand at `at`, last fastest. The hint keeps it from being a call of its own
    // in the walk, where LLVM's own limit is near.
    #[inline]
    pub(crate) fn cell_at(&self, at: usize, array: usize) -> Read<usize>
        ensures { CellOf (bytes self.now) at (tables self.now) self.now.loops self.now.indices array result }
    {
        // The grammar rules it out; asked here once, it is not asked again for each extent.
        if array_count(self.tables) <= array {
            return Err(Question::Subscript.at(at));
        }
        let mut cell = 0;
        let mut next = at;
        for k in 0..dimensions_of(self.tables, array) {
            let extent = extent_of(self.tables, array, k);
            let (v, to) = self.subscript_at(next, extent)?;
            cell = cell * extent + v;
            next = to;
        }
        Ok((cell, next))
    }
}

// Is the subscript inside its extent? 16. With the extent first LLVM makes one comparison of the two.
fn in_extent(v: i32, extent: usize, next: usize) -> Read<usize>
    requires { extent < 65536 }
    ensures says { InExtent extent v next result }
    ensures below { Below extent result }
{
    if v >= extent as i32 || v < 0 {
        return Err(Question::Subscript.at(next));
    }
    Ok((v as usize, next))
}
