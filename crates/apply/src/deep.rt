// Substitution in a deep sort with little stack: its sorts with parts are put in order first, parts before what they stand in,
// so that the walk that makes the answers finds those of the parts in its table.
ghost use Rattle.store.specs.Changes.{Same};
ghost use Rattle.apply_walk.specs.Stores.{WalkAsks, WalkedIn, WalkAllAsk, AllWalkedIn};
ghost use Rattle.apply.specs.Order.{OrderAsks, OrderIs};
ghost use Rattle.apply.specs.Stores.{ListAsks, ListedIn};

use apply_walk::apply_sort;
use arrayvec::ArrayVec;
use record::limits::MOST_SORTS;
use store::entries::Entries;
use store::{Full, Store};

// The largest tree that is walked without an order: up to it the stack that an order saves is not worth its time.
const SHALLOW: usize = 1024;

// Sorts with parts, each once, parts first from left to right; and which sorts are noted as listed.
#[derive(Drop)]
pub struct Order {
    pub seen: [bool; MOST_SORTS],
    pub list: ArrayVec<u16, MOST_SORTS>,
}

impl Order {
    // Lists the sorts with parts in the sort `k` of a store of `count` sorts, but for those noted, and notes them.
    pub fn add(&mut self, entries: &Entries<'_>, count: usize, k: usize)
        requires { OrderAsks entries.now.records.now entries.now.places.now self.old.seen self.old.list.items count k }
        ensures { OrderIs entries.now.records.now entries.now.places.now self.old.seen self.old.list.items count k self.new.seen self.new.list.items }
    {
        let e = entries.entry(k);
        if e.parts.count == 0 || self.seen[k] {
            return;
        }
        for part in e.parts.numbers(entries.records) {
            self.add(entries, count, part);
        }
        self.seen[k] = true;
        self.list.push(k as u16);
    }
}

// The sorts `order` replaced one after the other, in the store with their answers; `Full`, with the sorts made so far, where that
// store would be too long. Each from the table `known`, where that keeps it.
pub fn apply_order(
    store: &mut Store<'_>,
    known: &mut [u16],
    order: &[u16],
    images: &[u16],
) -> Result<(), Full>
    requires { ListAsks store.old known.old order.now images.now }
    ensures same { Same store.old store.new }
    ensures made { ListedIn store.old order.now images.now store.new known.new result }
{
    for k in order {
        apply_sort(store, known, usize::from(*k), images)?;
    }
    Ok(())
}

// As `apply_sort`, in little stack: a large tree is put in order first.
pub fn apply_deep(
    store: &mut Store<'_>,
    known: &mut [u16],
    k: usize,
    images: &[u16],
) -> Result<usize, Full>
    requires { WalkAsks store.old known.old k images.now }
    ensures same { Same store.old store.new }
    ensures made { WalkedIn store.old k images.now store.new known.new result }
{
    if store.size(k) <= SHALLOW {
        return apply_sort(store, known, k, images);
    }
    let mut order = Order {
        seen: [false; MOST_SORTS],
        list: ArrayVec::new(),
    };
    let count = store.count;
    order.add(&store.entries(), count, k);
    apply_order(store, known, order.list.as_slice(), images)?;
    apply_sort(store, known, k, images)
}

// As `apply_parts`, in little stack.
pub fn apply_list(
    store: &mut Store<'_>,
    known: &mut [u16],
    parts: &mut [u16],
    images: &[u16],
) -> Result<(), Full>
    requires { WalkAllAsk store.old known.old parts.old images.now }
    ensures same { Same store.old store.new }
    ensures made { AllWalkedIn store.old parts.old images.now store.new known.new parts.new result }
{
    for part in parts.iter_mut() {
        let k = usize::from(*part);
        let i = apply_deep(store, known, k, images)?;
        *part = i as u16;
    }
    Ok(())
}
