// What a store says of its sorts.
ghost use Rattle.std.specs.Prelude.{◌≡◌, ◌+◌, ◌≤◌, ◌<◌, length};
ghost use Rattle.record.specs.Number.{u16_at};
ghost use Rattle.record.specs.Kinds.{sort_number};
ghost use Rattle.store.specs.Entry.{EntryHas, KindHas};

use super::Store;
use super::entries::{Entries, Sorts};
use record::SortRecord;
use record::kinds::SortKind;

impl Store<'_> {
    // Its records and their places.
    pub fn entries(&self) -> Entries<'_>
        ensures records { result.records.now ≡ self.now.records.now }
        ensures places { result.places.now ≡ self.now.places.now }
    {
        Entries {
            records: self.records,
            places: self.places,
        }
    }

    // Its sorts, to be read.
    pub fn sorts(&self) -> Sorts<'_>
        ensures records { result.records.now ≡ self.now.records.now }
        ensures places { result.places.now ≡ self.now.places.now }
        ensures count { result.count ≡ self.now.count }
    {
        Sorts {
            records: self.records,
            places: self.places,
            count: self.count,
        }
    }

    // The sort `k`: kind, name, number, and where its parts' numbers and its names stand.
    pub fn entry(&self, k: usize) -> SortRecord
        requires { k < self.now.count }
        ensures { EntryHas self.now.records.now self.now.places.now k result }
    {
        self.sorts().entry(k)
    }

    // The kind of the sort `k`.
    pub fn kind(&self, k: usize) -> SortKind
        requires { k < self.now.count }
        ensures { KindHas self.now.records.now self.now.places.now k (sort_number result) }
    {
        self.sorts().kind(k)
    }

    // The number of two bytes that stands at a place of the records.
    pub fn number(&self, at: usize) -> usize
        requires { at + 2 ≤ length self.now.records.now }
        ensures value { result ≡ u16_at self.now.records.now at }
        ensures upper_bound { result < 65536 }
    {
        self.entries().number(at)
    }
}
