// The records of a sheet, read field by field: each method of a cursor reads one field and returns what it read with the next
// cursor, or the refusal. Here stand the types; fields.rt has the methods for single fields, records.rt those for whole records,
// again.rt reads a term record a second time, tables.rt has the limits of each kind and scans.rt the tests of the numbers of a list.
#![tactic(auto)]

mod again;
mod fields;
mod records;
pub mod scans;
pub mod tables;

ghost use Rattle.reader.specs.Reader.{Numbered, RefusedForMap};

use record::SortRecord;
use record::kinds::{QuestionKind, TermKind, UnknownKind};
use record::span::Span;

// Why a sheet is refused, with the documents' numbers.
#[derive(Clone, Copy, Debug, PartialEq, Eq)]
pub enum Refusal {
    // The sheet is under 6 or over 65,536 bytes.
    Length = 1,
    // A count of the header is over its limit.
    Header = 2,
    // A record runs past the end.
    PastEnd = 3,
    // The bit of the kind is missing, the kind unknown, or the bit map not the kind's.
    Map = 4,
    // A list length, a number or a name list is outside what its kind takes.
    Value = 5,
    // A reference is not to an earlier record.
    Reference = 6,
    // Bytes stand after the last record.
    Trailing = 7,
    // Fewer rows than 2 T or fewer answers than Q are lent.
    Lent = 8,
    // A sort's tree size is over 4,096.
    TreeSize = 9,
    // The tree size that a sort record says is not its sort's.
    WrittenSize = 34,
    // The store cannot hold the sheet's sorts.
    Store = 10,
}

impl From<UnknownKind> for Refusal {
    ghost from_gives = { RefusedForMap };

    // A record of an unknown kind is refused for its map.
    fn from(_unknown: UnknownKind) -> Self {
        Refusal::Map
    }
}

impl From<Refusal> for u32 {
    ghost from_gives = { Numbered };

    // The number of the refusal: 1 to 10, or 34.
    fn from(refusal: Refusal) -> Self {
        refusal as u32
    }
}

// A place in a sheet.
#[derive(Clone, Copy, Debug, PartialEq, Eq)]
pub struct Cursor {
    pub at: usize,
}

// What was read and the place behind it, or the refusal.
pub type Read<T> = Result<(T, Cursor), Refusal>;

// The bit map and the number of the kind that open a record.
#[derive(Clone, Copy, Debug, PartialEq, Eq)]
pub struct Head {
    pub map: usize,
    pub kind: usize,
}

// A sort record of a sheet, and the tree size that it says; it says none where bit 128 does not stand in its map.
#[derive(Clone, Copy, Debug, PartialEq, Eq)]
pub struct SheetSort {
    pub fields: SortRecord,
    pub size: Option<usize>,
}

// The fields of a term record: its list, its pairs and its second list come last.
#[derive(Clone, Copy, Debug, PartialEq, Eq)]
pub struct TermRecord {
    pub kind: TermKind,
    pub name: usize,
    pub number: usize,
    pub sort: usize,
    pub list: Span,
    pub pairs: Span,
    pub second: Span,
}

// The fields of a question record: its list of sorts, its pairs of given name and sort, and its list of names.
#[derive(Clone, Copy, Debug, PartialEq, Eq)]
pub struct QuestionRecord {
    pub kind: QuestionKind,
    pub list: Span,
    pub pairs: Span,
    pub names: Span,
}
