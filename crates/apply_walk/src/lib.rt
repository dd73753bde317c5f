// The walks of a substitution over store numbers: that a sort with its names replaced by a table of images is made in the store that
// it is read from, by a table of what is known already. How large the answer is, `replacing` finds.
#![tactic(auto)]

pub mod build;
pub mod lists;
pub mod replacing;
pub mod tables;

ghost use Rattle.std.specs.Prelude.{◌≡◌, cond, ◌+◌, ◌≤◌, ◌<◌, length, get_or};
ghost use Rattle.record.specs.Kinds.{sort_number};
ghost use Rattle.store.specs.Changes.{Same};
ghost use Rattle.apply_walk.specs.Images.{image_number};
ghost use Rattle.apply_walk.specs.Contract.{capped, goes};
ghost use Rattle.apply_walk.specs.Stores.{answer_in, MadeIn, RebuildAsksOf, WalkAsks, WalkedIn, WalkAllAsk, AllWalkedIn};

use arrayvec::ArrayVec;
use build::{SortFields, make_fields};
use lists::{names_left, read_numbers, same_numbers};
use record::kinds::SortKind;
use record::limits::{LARGEST_TREE, LONGEST_LIST};
use store::{Full, Store};
use tables::{recall, remember};

// The size of each tree that is over the limit.
const TOO_LARGE: usize = LARGEST_TREE + 1;

// A size, or 4,097 for each that is larger than 4,096.
#[tactic(auto, unfolding(crate::specs::Contract::capped))]
pub fn capped_at(v: usize) -> usize
    ensures { result ≡ capped v }
{
    v.min(TOO_LARGE)
}

// Whether the wrapper goes: a Par that has no names left.
#[tactic(auto, unfolding(crate::specs::Contract::goes))]
pub fn wrapper_goes(kind: SortKind, names: usize) -> bool
    ensures { result ≡ goes (sort_number kind) names }
{
    kind == SortKind::Par && names == 0
}

// The number of the name's image, or `k` if it has none.
pub fn image_of(images: &[u16], name: usize, k: usize) -> usize
    requires { name < length images.now }
    ensures { result ≡ image_number (get_or images.now name 0) k }
{
    usize::from(images[name]).checked_sub(1).unwrap_or(k)
}

// The size of a sort from those of its parts together, of which a Par without names left has only these.
pub fn whole_size(kind: SortKind, names: usize, sum: usize) -> usize
    requires { sum ≤ 4097 }
    ensures { result ≡ cond (goes (sort_number kind) names) sum (capped (1 + sum)) }
{
    if wrapper_goes(kind, names) {
        sum
    } else {
        capped_at(1 + sum)
    }
}

// The sort `k` replaced, from the numbers of its parts replaced: `k` itself where these and the names are its own; `Full`,
// with all as it was, where the store with it would be too long. Not inlined, so that the walk's frame has no place for the names.
#[inline(never)]
pub fn rebuild(
    store: &mut Store<'_>,
    k: usize,
    parts: &[u16],
    images: &[u16],
) -> Result<usize, Full>
    requires { RebuildAsksOf store.old k parts.now images.now }
    ensures same { Same store.old store.new }
    ensures made { MadeIn store.old (answer_in store.old images.now k) store.new result }
{
    let e = store.entry(k);
    let records = store.entries().records;
    let mut left = ArrayVec::new();
    names_left(records, e.names, images, &mut left);
    let names = left.as_slice();
    let kept = names.len();
    if wrapper_goes(e.kind, kept) {
        return Ok(usize::from(parts[0]));
    }
    if kept == e.names.count && same_numbers(records, e.parts, parts) {
        return Ok(k);
    }
    make_fields(
        store,
        &SortFields {
            kind: e.kind,
            name: e.name,
            number: e.number,
            parts,
            names,
        },
    )
}

// The number of the sort `k` replaced, in the store with its sorts added, parts first from left to right; `Full`, with the sorts
// made so far, where that store would be too long. From the table `known`, which keeps the number of the answer afterwards.
#[cycle(apply_parts_apply_sort)]
pub fn apply_sort(
    store: &mut Store<'_>,
    known: &mut [u16],
    k: usize,
    images: &[u16],
) -> Result<usize, Full>
    requires { WalkAsks store.old known.old k images.now }
    ensures same { Same store.old store.new }
    ensures made { WalkedIn store.old k images.now store.new known.new result }
{
    if let Some(seen) = recall(known, k) {
        return Ok(seen - 1);
    }
    let e = store.entry(k);
    if e.kind == SortKind::Var {
        let image = image_of(images, e.name, k);
        remember(known, k, image + 1);
        return Ok(image);
    }
    if e.parts.count == 0 {
        remember(known, k, k + 1);
        return Ok(k);
    }
    let mut room = [0u16; LONGEST_LIST];
    let parts = &mut room[..e.parts.count];
    read_numbers(store.entries().records, e.parts, parts);
    apply_parts(store, known, parts, images)?;
    let i = rebuild(store, k, parts, images)?;
    remember(known, k, i + 1);
    Ok(i)
}

// Puts the number of the answer in the place of each of the numbers `parts`, from left to right, in the store with these;
// `Full`, with the sorts made so far, where that store would be too long. Each from the table `known`, where that keeps it.
#[cycle(apply_parts_apply_sort)]
pub fn apply_parts(
    store: &mut Store<'_>,
    known: &mut [u16],
    parts: &mut [u16],
    images: &[u16],
) -> Result<(), Full>
    requires { WalkAllAsk store.old known.old parts.old images.now }
    ensures same { Same store.old store.new }
    ensures made { AllWalkedIn store.old parts.old images.now store.new known.new parts.new result }
{
    for part in parts.iter_mut() {
        let k = usize::from(*part);
        let i = match recall(known, k) {
            Some(seen) => seen - 1,
            None => apply_sort(store, known, k, images)?,
        };
        *part = i as u16;
    }
    Ok(())
}
