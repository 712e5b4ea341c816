// The operator table and the array table, by value and as the numbers that the walks lend, and what these say of an operator or an
// array.
ghost use Rattle.std.specs.Prelude.{◌≡◌, ℕ, ◌+◌, ◌≤◌, ◌<◌, min, length, get_or};
ghost use Rattle.model.specs.Tables.{array_at, arity_at};
ghost use Rattle.reader.specs.Entries.{Puts, viewed, tables_in, flattened};

use model::operator::arity;

// Numbers of tables that are lent as one array (`viewed` says which stand where), and where the bases begin. No struct, for stored
// tests of the functions below give them any 115 numbers.
pub const FLAT: usize = 115;

pub const BASES: usize = 98;

pub type FlatTables = [usize; FLAT];

// Entries beyond the counts are 0. bytes[o] is the byte of operator o; the extents of array a stand at 3a; bases[a] is the number
// of cells before array a, bases[arrays] that of all.
#[derive(Clone, Copy, Debug, PartialEq, Eq)]
pub struct Tables {
    pub operators: usize,
    pub bytes: [u8; 16],
    pub arrays: usize,
    pub roles: [u8; 16],
    pub dimensions: [u8; 16],
    pub extents: [u16; 48],
    pub bases: [usize; 17],
}

// Puts numbers of any width into the flat tables, from `to` on.
fn put<T: Copy + Into<usize>, const N: usize>(r: &mut FlatTables, to: usize, from: &[T; N])
    requires { to + N ≤ 115 }
    ensures puts { Puts T.converts from.now r.old to r.new }
    ensures long { length from.now ≡ N }
{
    for k in 0..N {
        r[to + k] = from[k].into();
    }
}

// The tables as 115 numbers (`viewed` says which stand where): lent, they cost no copy at a call.
pub fn flat(tables: Tables) -> FlatTables
    ensures numbers { result ≡ flattened «tables» }
    ensures small { (i : ℕ) → i < 48 → get_or «tables».extents i 0 < 65536 }
{
    let mut r = [0usize; FLAT];
    r[0] = tables.operators;
    put(&mut r, 1, &tables.bytes);
    r[17] = tables.arrays;
    put(&mut r, 18, &tables.roles);
    put(&mut r, 34, &tables.dimensions);
    put(&mut r, 50, &tables.extents);
    put(&mut r, BASES, &tables.bases);
    r
}

#[tactic(auto, using(crate::proofs::Flattened::operators_in))]
pub fn operator_count(tables: &FlatTables) -> usize
    ensures { result ≡ length (tables_in tables.now).operators }
{
    tables[0].min(16)
}

#[tactic(auto, using(crate::proofs::Flattened::arrays_in))]
pub fn array_count(tables: &FlatTables) -> usize
    ensures { result ≡ length (tables_in tables.now).arrays }
{
    tables[17].min(16)
}

// The arity of an operator; 0 where it is not declared.
#[tactic(auto, using(crate::proofs::Flattened::operators_in, crate::proofs::Flattened::operator_at, crate::proofs::Flattened::arity_none))]
pub fn arity_of(tables: &FlatTables, operator: usize) -> usize
    ensures { result ≡ arity_at (tables_in tables.now).operators operator }
{
    if operator < operator_count(tables) {
        arity(tables[1 + operator])
    } else {
        0
    }
}

// The role of an array; an undeclared one counts as a local.
#[tactic(auto, using(crate::proofs::Flattened::arrays_in, crate::proofs::Flattened::role_at_lem, crate::proofs::Flattened::role_none))]
pub fn role_of(tables: &FlatTables, array: usize) -> usize
    ensures { result ≡ (array_at (tables_in tables.now).arrays array).role }
{
    if array < array_count(tables) {
        tables[18 + array]
    } else {
        3
    }
}

// The number of an array's dimensions; an undeclared one has one.
#[tactic(auto, using(crate::proofs::Flattened::arrays_in, crate::proofs::Flattened::dimensions_at_lem, crate::proofs::Flattened::dimensions_none))]
pub fn dimensions_of(tables: &FlatTables, array: usize) -> usize
    ensures { result ≡ length (array_at (tables_in tables.now).arrays array).extents }
{
    if array < array_count(tables) {
        tables[34 + array].min(3)
    } else {
        1
    }
}

// 0 where the array is not declared, or has fewer dimensions.
#[tactic(auto, using(crate::proofs::Flattened::arrays_in, crate::proofs::Flattened::extent_room, crate::proofs::Flattened::extent_at, crate::proofs::Flattened::extent_few, crate::proofs::Flattened::extent_not))]
pub fn extent_of(tables: &FlatTables, array: usize, dimension: usize) -> usize
    ensures { (result ≡ get_or (array_at (tables_in tables.now).arrays array).extents dimension 0) × (result < 65536) }
{
    if array < array_count(tables) && dimension < dimensions_of(tables, array) {
        tables[50 + 3 * array + dimension].min(65535)
    } else {
        0
    }
}

// The number of cells before an array; 0 for one beyond the last.
#[tactic(auto, using(crate::proofs::Flattened::base_at, crate::proofs::Flattened::base_none))]
pub fn base_of(tables: &FlatTables, array: usize) -> usize
    ensures { result ≡ get_or (viewed tables.now).bases array 0 }
{
    if array < 17 { tables[BASES + array] } else { 0 }
}
