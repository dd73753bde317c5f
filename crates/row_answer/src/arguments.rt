// The arguments of a term: the numbers of their sorts from the rows before it, and the sorts of bindings, put together in a
// lent array; and integer constants.
ghost use Rattle.std.specs.Prelude.{◌≡◌, ◌+◌, ◌*◌, ◌≤◌, ◌<◌, ◌-◌, IfSome, OnOk, IfErr, is_ok, length, get_or, take, drop, set};
ghost use Rattle.record.specs.Codec.{Bytes};
ghost use Rattle.record.specs.Decode.{written};
ghost use Rattle.record.specs.Kinds.{sort_number};
ghost use Rattle.record.specs.Number.{u16_at, numbers_at};
ghost use Rattle.record.specs.Numbers.{numbers_left};
ghost use Rattle.row_rules.specs.declared.Cause.TheVariants.{Below};
ghost use Rattle.row_answer.specs.Arguments.{column_number, GatherAsks, GatherIs, JudgedAsks, JudgedIs, PutNumberAsks, put_at, BindingsAsks, BindingsAre, ConstantAsks, integer_of, integer_at, IndexAsks, IndexIs};

use super::MAP_LIST;
use record::kinds::{SortKind, TermKind};
use record::limits::REFUSED;
use record::numbers::Numbers;
use record::span::Span;
use record::{u16_at, u32_at};
use row_rules::Cause;
use sheet::ReadSheet;
use store::buffers::copy_at;

// Where the numbers stand in a lent array: behind a record's bit map, its kind and the length of its list.
const FIRST_AT: usize = 3;

// The columns of the rows.
#[derive(Clone, Copy, Debug, PartialEq, Eq)]
pub enum Column {
    Inferred,
    Checked,
}

// The numbers of sorts in a lent array from byte 3 on, two bytes each, where the list of a Function, Set or Tuple record stands.
#[derive(Drop)]
pub struct Args<'a> {
    pub bytes: &'a mut [u8],
    pub count: usize,
    pub ghost fits: { 3 + 2 * count ≤ length bytes.now },
}

impl Args<'_> {
    ghost use Rattle.row_answer.specs.Args.{SameArgs};

    // The number in the place i.
    pub fn number(&self, i: usize) -> usize
        requires { i < self.now.count }
        ensures value { result ≡ u16_at self.now.bytes.now (3 + 2 * i) }
        ensures upper_bound { result < 65536 }
    {
        u16_at(self.bytes, FIRST_AT + 2 * i)
    }

    // Where all of the numbers stand.
    pub fn span(&self) -> Span
        ensures at { result.at ≡ 3 }
        ensures count { result.count ≡ self.now.count }
    {
        Span {
            at: FIRST_AT,
            count: self.count,
        }
    }

    // Where the numbers behind the first one stand.
    pub fn rest(&self) -> Span
        requires { 0 < self.now.count }
        ensures at { result.at ≡ 5 }
        ensures count { result.count ≡ self.now.count - 1 }
    {
        self.span().skip(1)
    }

    // The numbers, from the first to the last.
    pub fn numbers(&self) -> Numbers<'_>
        ensures { numbers_left result ≡ numbers_at self.now.bytes.now 3 self.now.count }
    {
        self.span().numbers(self.bytes)
    }

    // The bytes of the numbers.
    pub fn packed(&self) -> &[u8]
        ensures { result.now ≡ take (2 * self.now.count) (drop 3 self.now.bytes.now) }
    {
        &self.bytes[FIRST_AT..FIRST_AT + 2 * self.count]
    }

    // Leaves no number.
    pub fn clear(&mut self)
        ensures same { SameArgs self.old self.new }
        ensures count { self.new.count ≡ 0 }
        ensures bytes { self.new.bytes.now ≡ self.old.bytes.now }
    {
        self.count = 0;
    }

    // Writes one number more.
    pub fn push(&mut self, k: usize)
        requires { PutNumberAsks self.old.bytes.now (3 + 2 * self.old.count) k }
        ensures same { SameArgs self.old self.new }
        ensures count { self.new.count ≡ self.old.count + 1 }
        ensures bytes { self.new.bytes.now ≡ put_at self.old.bytes.now (3 + 2 * self.old.count) k }
    {
        copy_at(
            self.bytes,
            FIRST_AT + 2 * self.count,
            &(k as u16).to_le_bytes(),
        );
        self.count += 1;
    }

    // Copies the numbers that stand in `bytes` at `list` in place of what was there.
    pub fn copy(&mut self, bytes: &[u8], list: Span)
        requires within { list.at + 2 * list.count ≤ length bytes.now }
        requires room { 3 + 2 * list.count ≤ length self.old.bytes.now }
        ensures same { SameArgs self.old self.new }
        ensures count { self.new.count ≡ list.count }
        ensures bytes { self.new.bytes.now ≡ written self.old.bytes.now 3 (take (2 * list.count) (drop list.at bytes.now)) }
    {
        let end = list.at + 2 * list.count;
        copy_at(self.bytes, FIRST_AT, &bytes[list.at..end]);
        self.count = list.count;
    }

    // Writes the bit map of a list, the kind and how many numbers there are before the numbers.
    pub fn put_head(&mut self, kind: SortKind)
        requires { self.old.count < 256 }
        ensures same { SameArgs self.old self.new }
        ensures count { self.new.count ≡ self.old.count }
        ensures bytes { self.new.bytes.now ≡ set (set (set self.old.bytes.now 0 17) 1 (sort_number kind)) 2 self.old.count }
    {
        copy_at(self.bytes, 0, &[MAP_LIST, kind as u8, self.count as u8]);
    }

    // The head and the numbers.
    pub fn record(&self) -> &[u8]
        ensures value { result.now ≡ take (3 + 2 * self.now.count) self.now.bytes.now }
        ensures bytes { Bytes result.now }
    {
        front(self.bytes, FIRST_AT + 2 * self.count)
    }

    // Writes the sorts of the terms that the sheet names in `list`, by their rows in a column, in place of what was there;
    // Below where one of these rows is refused.
    pub fn gather(
        &mut self,
        sheet: &[u8],
        list: Span,
        rows: &[u32],
        column: Column,
    ) -> Result<(), Cause>
        requires { GatherAsks sheet.now list.at list.count rows.now (column_number column) self.old.bytes.now }
        ensures same { SameArgs self.old self.new }
        ensures count { OnOk result (self.new.count ≡ list.count) }
        ensures cause { IfErr result (λ e. e ≡ Below) }
        ensures gathered { GatherIs sheet.now list.at list.count rows.now (column_number column) self.new.bytes.now (is_ok result) }
    {
        self.clear();
        for t in list.numbers(sheet) {
            let k = row_of(rows, t, column);
            if REFUSED <= k {
                return Err(Cause::Below);
            }
            self.push(k);
        }
        Ok(())
    }

    // Writes the store numbers of the sorts of pairs of the sheet in place of what was there.
    pub fn put_bindings(&mut self, sheet: &ReadSheet<'_>, pairs: Span)
        requires { BindingsAsks sheet.now.bytes.now pairs.at pairs.count sheet.now.table.now self.old.bytes.now }
        ensures same { SameArgs self.old self.new }
        ensures count { self.new.count ≡ pairs.count }
        ensures bindings { BindingsAre sheet.now.bytes.now pairs.at pairs.count sheet.now.table.now self.new.bytes.now }
    {
        self.clear();
        for (_, sort) in pairs.pairs(sheet.bytes) {
            self.push(sheet.table[sort] as usize);
        }
    }
}

// The first `end` bytes.
fn front(bytes: &[u8], end: usize) -> &[u8]
    requires { end ≤ length bytes.now }
    ensures value { result.now ≡ take end bytes.now }
    ensures bytes { Bytes result.now }
{
    &bytes[..end]
}

// The row of the term t in a column.
fn row_of(rows: &[u32], t: usize, column: Column) -> usize
    requires { 2 * t + column_number column < length rows.now }
    ensures { result ≡ get_or rows.now (2 * t + column_number column) 0 }
{
    rows[2 * t + column as usize] as usize
}

// Whether the rows in a column of the terms that the sheet names in `list` are no refusals.
pub fn all_judged(sheet: &[u8], list: Span, rows: &[u32], column: Column) -> bool
    requires { JudgedAsks sheet.now list.at list.count rows.now (column_number column) }
    ensures { JudgedIs sheet.now list.at list.count rows.now (column_number column) result }
{
    list.numbers(sheet)
        .all(|t| row_of(rows, t, column) < REFUSED)
}

// The number of the term whose record starts at `at`, where it is an integer constant; else None.
pub fn constant_at(sheet: &[u8], at: usize) -> Option<usize>
    requires { ConstantAsks sheet.now at }
    ensures is { integer_of result ≡ integer_at sheet.now at }
    ensures small { IfSome result (λ v. v < 4294967296) }
{
    if sheet[at + 1] != TermKind::Integer as u8 {
        return None;
    }
    Some(u32_at(sheet, at + 2))
}

// The number of the term that the sheet names in the place i of a list, where it is an integer constant; else None.
pub fn index_at(sheet: &ReadSheet<'_>, list: Span, i: usize) -> Option<usize>
    requires { IndexAsks sheet.now.bytes.now sheet.now.starts.now (list.at + 2 * i) }
    ensures { IndexIs sheet.now.bytes.now sheet.now.starts.now (list.at + 2 * i) result }
{
    let t = list.get(sheet.bytes, i);
    constant_at(sheet.bytes, sheet.starts[t] as usize)
}
