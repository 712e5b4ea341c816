// Where a list has what, in words (docs/LAYOUT.md).

// In the header: the first operator, the array count, and of the first array its role, its dimension count and its extents.
pub(crate) const OPERATORS: usize = 1;

pub(crate) const ARRAY_COUNT: usize = 17;

pub(crate) const ARRAYS: usize = 18;

pub(crate) const DIMENSION_COUNT: usize = 19;

pub(crate) const EXTENTS: usize = 20;

// From one array, or one record, to the next.
pub(crate) const ARRAY_WORDS: usize = 5;

pub(crate) const RECORD_WORDS: usize = 3;

// Codes of records: the others are an update's and a read's, whose two words are an array and a cell.
pub(crate) const UPDATE: u32 = 1;

pub(crate) const OPERATOR: usize = 17;

pub(crate) const LITERAL: usize = 18;

pub(crate) const CONSTANT: usize = 19;
