// How large a sort is with its names replaced by a table of images, by a table of the sizes that are known already.
ghost use Rattle.std.specs.Prelude.{◌≡◌, ◌<◌};
ghost use Rattle.apply_walk.specs.Images.{ImageTable};
ghost use Rattle.apply_walk.specs.Contract.{ReadStore};
ghost use Rattle.apply_walk.specs.Props.{ReadStore-prop};

use super::lists::names_kept;
use super::tables::{recall, remember};
use super::{capped_at, image_of, whole_size};
use record::kinds::SortKind;
use record::span::Span;
use store::Store;
use store::entries::Entries;

// A store that is only read, and a table of images in it.
#[derive(Clone, Copy)]
pub struct Replacing<'a> {
    pub entries: Entries<'a>,
    pub count: usize,
    pub used: usize,
    pub images: &'a [u16],
    pub ghost reading: { ReadStore entries.records.now entries.places.now count used images.now } by { ReadStore-prop entries.records.now entries.places.now count used images.now },
}

impl<'a> Replacing<'a> {
    ghost use Rattle.apply_walk.specs.Stores.{WeighsTrue, WeighedIn, ListKnown, AllWeighedIn};

    // A store with a table.
    pub fn of(store: &'a Store<'_>, images: &'a [u16]) -> Replacing<'a>
        requires { ImageTable images.now store.now.count }
        ensures records { result.entries.records.now ≡ store.now.records.now }
        ensures places { result.entries.places.now ≡ store.now.places.now }
        ensures count { result.count ≡ store.now.count }
        ensures images { result.images.now ≡ images.now }
    {
        Replacing {
            entries: store.entries(),
            count: store.count,
            used: store.used,
            images,
        }
    }

    // The tree size of the sort `k` replaced, or 4,097 for each that is larger than 4,096; from the table `weighed`, which keeps
    // the sizes of sorts with parts.
    #[cycle(applied_size_applied_sizes)]
    pub fn applied_size(&self, weighed: &mut [u16], k: usize) -> usize
        requires known { k < self.now.count }
        requires weighed { WeighsTrue self.now weighed.old }
        ensures { WeighedIn self.now k weighed.new result }
    {
        if let Some(seen) = recall(weighed, k) {
            return seen;
        }
        let e = self.entries.entry(k);
        if e.kind == SortKind::Var {
            let i = image_of(self.images, e.name, k);
            return self.entries.size(self.count, self.used, i);
        }
        if e.parts.count == 0 {
            return 1;
        }
        let sum = self.applied_sizes(weighed, e.parts);
        let kept = names_kept(self.entries.records, e.names, self.images);
        let size = whole_size(e.kind, kept, sum);
        remember(weighed, k, size);
        size
    }

    // The tree sizes together of the sorts replaced that the list `parts` names, or 4,097 where that is more than 4,096; each from
    // the table `weighed`, where that keeps it.
    #[cycle(applied_size_applied_sizes)]
    pub fn applied_sizes(&self, weighed: &mut [u16], parts: Span) -> usize
        requires list { ListKnown self.now parts }
        requires weighed { WeighsTrue self.now weighed.old }
        ensures { AllWeighedIn self.now parts weighed.new result }
    {
        let mut sum = 0;
        for k in parts.numbers(self.entries.records) {
            let one = self.applied_size(weighed, k);
            sum = capped_at(sum + one);
        }
        sum
    }
}
