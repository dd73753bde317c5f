// The limits of document 01, and the lengths that follow from them.

// The bytes of a sheet: its header's, and at most.
pub const HEADER_LENGTH: usize = 6;

pub const LONGEST_SHEET: usize = 65536;

// The most records of each part of a sheet.
pub const MOST_SORT_RECORDS: usize = 2048;

pub const MOST_TERMS: usize = 4096;

pub const MOST_QUESTIONS: usize = 1024;

// The most rows: two for each term, the inferred one and the checked one.
pub const ROWS: usize = 2 * MOST_TERMS;

// The most entries of a list.
pub const LONGEST_LIST: usize = 64;

// The bytes of a sort record without its tree size: with every field, and with one list alone.
pub const LONGEST_RECORD: usize = 266;

pub const LONGEST_LISTED: usize = 131;

// The bytes of a tree size in a record.
pub const SIZE_LENGTH: usize = 2;

// The largest width of a vector, the largest tree of a sort, and what its parts' trees may be together.
pub const LARGEST_WIDTH: usize = 65535;

pub const LARGEST_TREE: usize = 4096;

pub const LARGEST_PARTS: usize = LARGEST_TREE - 1;

// The most sorts in a store.
pub const MOST_SORTS: usize = 4096;

// The most names that are bound at a time: each is a variable of the store, but for as many as are given beside a list.
pub const MOST_BOUND: usize = MOST_SORTS + LONGEST_LIST;

// How many names there are.
pub const NAMES: usize = 65536;

// A row is refused from this number on: it is the cause's number times this one. Below it, it is the number of a sort.
pub const REFUSED: usize = 65536;
