// Sizes that several crates name: limits of a program and of its list (docs/FORMAT.md), and lengths of lent slices (docs/LAYOUT.md).

pub const MOST_BYTES: usize = 16384;
// All arrays of a program together.
pub const MOST_CELLS: usize = 2048;

pub const MOST_UPDATES: usize = 2048;
// All right sides of a list together.
pub const MOST_NODES: usize = 8192;
// Both sides of a pair together.
pub const MOST_TERMS: u32 = 4096;

pub const LIST_WORDS: usize = 32768;
// The words of a list before its first record, and of the longest list.
pub const HEADER_WORDS: usize = 98;

pub const USED_WORDS: usize = 30818;

pub const CELL_WORDS: usize = 4096;

pub const TERM_WORDS: usize = 32768;
