// What an App was found to be, noted in a lent table by the numbers of its head and its arguments. The table has 128 slots of 132
// bytes for each column of the rows, or fewer where it is shorter: how many terms (0 in an empty slot), the row's code in three bytes,
// a number of the store and a cause, and from byte 4 on the numbers of the terms' sorts, two bytes each. A slot keeps the last App that
// was looked up there. Behind that: the row of a code.
#![tactic(auto)]

ghost use Rattle.std.specs.Prelude.{◌≡◌, ℕ, true};
ghost use Rattle.record.specs.Number.{numbers_at};
ghost use Rattle.row_answer.specs.Arguments.{column_number};
ghost use Rattle.row_slots.specs.Slots.{slot_of, no_room, KeyAsks, Tells, LackAsks, LackIs, SeekAsks, PastSlotAsks, RecalledIs, OpenedIs, SeekIs, SlotNoteAsks, SlotNotedIs, RowNoteAsks, RowNotedIs, Coded, AgainIs, again, LookAsks, LookedIs, SamePast};

use reader::TermRecord;
use record::kinds::{SortKind, TermKind};
use record::limits::REFUSED;
use record::u16_at;
use row_answer::arguments::{Args, Column};
use row_answer::code;
use row_rules::{Cause, Row};
use store::buffers::copy_at;
use store::entries::Entries;

// How many slots a column has, the bytes of a slot, and of the whole table.
const SLOTS: usize = 128;

pub const SLOT: usize = 132;

pub const TABLE: usize = 2 * SLOTS * SLOT;

// What a look-up gave.
#[derive(Clone, Copy, Debug, PartialEq, Eq)]
pub enum Look {
    // Nothing: the record is none that is noted, or the table has no slot for it.
    Apart,
    // The code of its row.
    Noted(usize),
    // No note: the slot at this place is empty and has the numbers of its terms.
    Open(usize),
}

// Where the slot of an App of these terms stands in a column: by its head, its first and its last argument.
pub fn slot_of(args: &Args<'_>, column: Column) -> usize
    requires { SeekAsks args.now.bytes.now args.now.count (column_number column) }
    ensures { result ≡ slot_of (column_number column) args.now.bytes.now args.now.count }
{
    let head = args.number(0);
    let first = args.number(1);
    let last = args.number(args.count - 1);
    (column as usize * SLOTS + (head * 31 + first * 6 + last) % SLOTS) * SLOT
}

// The table, whatever it holds.
#[derive(Drop)]
pub struct Past<'a> {
    pub bytes: &'a mut [u8],
}

impl Past<'_> {
    // The code in the slot at `at`, where that has noted the terms whose numbers are in `args`; else None.
    pub fn recalled(&self, at: usize, args: &Args<'_>) -> Option<usize>
        requires { PastSlotAsks self.now.bytes.now at args.now.bytes.now args.now.count }
        ensures { RecalledIs self.now.bytes.now at args.now.bytes.now args.now.count result }
    {
        let n = args.count;
        if self.bytes[at] as usize != n {
            return None;
        }
        if !self.bytes[at + 4..].starts_with(args.packed()) {
            return None;
        }
        Some(self.bytes[at + 3] as usize * REFUSED + u16_at(self.bytes, at + 1))
    }

    // Empties the slot at `at` and writes the numbers in `args` there.
    pub fn opened(&mut self, at: usize, args: &Args<'_>)
        requires { PastSlotAsks self.old.bytes.now at args.now.bytes.now args.now.count }
        ensures same { SamePast self.old self.new }
        ensures opened { OpenedIs self.old.bytes.now at args.now.bytes.now args.now.count self.new.bytes.now }
    {
        self.bytes[at] = 0;
        copy_at(self.bytes, at + 4, args.packed());
    }

    // Looks up an App of the terms whose numbers are in `args`: its code in a column, or its slot, which is emptied and has the
    // numbers then; Apart where the table has no such slot.
    pub fn seek(&mut self, args: &Args<'_>, column: Column) -> Look
        requires { SeekAsks args.now.bytes.now args.now.count (column_number column) }
        ensures same { SamePast self.old self.new }
        ensures sought { SeekIs self.old.bytes.now args.now.bytes.now args.now.count (column_number column) self.new.bytes.now result }
    {
        let at = slot_of(args, column);
        if self.bytes.len() < at + SLOT {
            return Look::Apart;
        }
        if let Some(row) = self.recalled(at, args) {
            return Look::Noted(row);
        }
        self.opened(at, args);
        Look::Open(at)
    }

    // Whether the inferred sort of an App of the terms whose numbers are in `args` is noted to have no room.
    pub fn noted_full(&self, args: &Args<'_>) -> bool
        requires { KeyAsks args.now.bytes.now args.now.count }
        ensures { result ≡ true → Tells self.now.bytes.now 0 (numbers_at args.now.bytes.now 3 args.now.count) no_room }
    {
        let at = slot_of(args, Column::Inferred);
        if self.bytes.len() < at + SLOT {
            return false;
        }
        self.recalled(at, args)
            .is_some_and(|row| row == code(Err(Cause::Full)) as usize)
    }

    // The same of an App for which the look-up left a slot; no for any other record.
    pub fn lacks_room(&self, look: Look, args: &Args<'_>) -> bool
        requires { LackAsks args.now.bytes.now args.now.count look }
        ensures { LackIs self.now.bytes.now args.now.bytes.now args.now.count look result }
    {
        match look {
            Look::Open(_) => self.noted_full(args),
            _ => false,
        }
    }

    // Notes a code in the slot at `at`, which has the numbers of `n` terms.
    pub fn noted(&mut self, at: usize, n: usize, row: usize)
        requires { SlotNoteAsks self.old.bytes.now at n row }
        ensures same { SamePast self.old self.new }
        ensures noted { SlotNotedIs self.old.bytes.now at n row self.new.bytes.now }
    {
        let [low, high, cause, _] = (row as u32).to_le_bytes();
        copy_at(self.bytes, at, &[n as u8, low, high, cause]);
    }

    // Notes a row of `n` terms where the look-up left a slot for it; else the table stays as it was.
    pub fn row_noted(&mut self, n: usize, look: Look, row: Row)
        requires { RowNoteAsks self.old.bytes.now n look row }
        ensures same { SamePast self.old self.new }
        ensures noted { RowNotedIs self.old.bytes.now n look row self.new.bytes.now }
    {
        if let Look::Open(at) = look {
            self.noted(at, n, code(row) as usize);
        }
    }

    // Looks up an App of two terms or more whose head is a Par, the numbers of its sorts in `args`: the code of its row in a
    // column, or the slot where it is to be noted; Apart for any other record. Inlined, since
    // most records are none.
    #[inline(always)]
    pub fn looked_up(
        &mut self,
        entries: Entries<'_>,
        term: TermRecord,
        args: &Args<'_>,
        column: Column,
    ) -> Look
        requires asks { LookAsks entries.records.now entries.places.now term args.now.bytes.now (column_number column) }
        requires count { args.now.count ≡ term.list.count }
        ensures same { SamePast self.old self.new }
        ensures looked { LookedIs term args.now.bytes.now (column_number column) self.old.bytes.now self.new.bytes.now result }
    {
        if term.kind != TermKind::App || args.count < 2 {
            return Look::Apart;
        }
        if entries.kind(args.number(0)) != SortKind::Par {
            return Look::Apart;
        }
        self.seek(args, column)
    }
}

// The row with this code: a sort that the store has, or a refusal.
pub fn row_again(row: usize) -> Row
    requires { Coded row }
    ensures { (n u : ℕ) → AgainIs row n u (again result n u) }
{
    if row < REFUSED {
        return Ok(row);
    }
    Err(Cause::try_from((row / REFUSED) as u32).unwrap())
}
