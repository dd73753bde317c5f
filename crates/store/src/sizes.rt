// The tree sizes of sorts, which their records carry.
ghost use Rattle.std.specs.Prelude.{◌≡◌, ◌<◌};
ghost use Rattle.record.specs.Sort.{size};
ghost use Rattle.record.specs.Record.{sort_of};
ghost use Rattle.record.specs.Decode.{fields_at, sort_at, Fresh};
ghost use Rattle.store.specs.Entry.{EntrySizeAsks, Ends};

use super::Store;
use super::entries::{Entries, record_at};
use record::limits::SIZE_LENGTH;

impl Entries<'_> {
    // Where the record of the sort `k` of the `count` in `used` bytes ends: at the place of the next one, and the last one behind the
    // bytes in use.
    fn end(self, count: usize, used: usize, k: usize) -> usize
        requires { EntrySizeAsks self.records.now self.places.now count used k }
        ensures { Ends self.entry.records.now self.entry.places.now k result }
    {
        let next = k + 1;
        if next < count {
            self.places[next] as usize
        } else {
            used
        }
    }

    // The tree size of the sort `k` of the `count` in `used` bytes: the last two bytes of its record.
    pub fn size(self, count: usize, used: usize, k: usize) -> usize
        requires { EntrySizeAsks self.records.now self.places.now count used k }
        ensures { result ≡ size (sort_at self.entry.records.now self.entry.places.now count k) }
    {
        self.number(self.end(count, used, k) - SIZE_LENGTH)
    }
}

impl Store<'_> {
    ghost use Rattle.store.specs.Words.{store_in, sort_in};

    // The tree size of the sort `k`.
    pub fn size(&self, k: usize) -> usize
        requires { k < self.now.count }
        ensures { result ≡ size (sort_in self.now k) }
    {
        self.entries().size(self.count, self.used, k)
    }

    // The tree size of the sort of a record that is over the store: 1 and the sizes of its references.
    pub fn tree_size(&self, rec: &[u8]) -> usize
        requires { Fresh rec.now self.now.count }
        ensures { result ≡ size (sort_of (store_in self.now) (fields_at rec.now 0)) }
    {
        let parts = record_at(rec, 0).parts;
        let mut sum = 1;
        for k in parts.numbers(rec) {
            sum += self.size(k);
        }
        sum
    }
}
