// The operators of vectors, over the numbers of their arguments' sorts: the group of nineteen, and BvConcat.
ghost use Rattle.std.specs.Prelude.{◌≡◌, ◌<◌, ℕ};
ghost use Rattle.record.specs.Numbers.{numbers_left};
ghost use Rattle.substitution.specs.MatchWith.{is_bit_vec};
ghost use Rattle.record.specs.Decode.{Stored, sort_at};
ghost use Rattle.store.specs.Changes.{Same};
ghost use Rattle.infer_rules.specs.Inferred.{first_vector, concat_from};
ghost use Rattle.row_answer.specs.Answer.{Answered};
ghost use Rattle.row_answer.specs.Heads.{HeadAsks};
ghost use Rattle.infer_operator.specs.Asks.{ArgumentsAsk, KnownAsk, arguments};
ghost use Rattle.infer_operator.specs.Vectors.{ScanHas, VectorsHas, WidthAsks, WidthsHas, vector_of};

use record::kinds::SortKind;
use record::numbers::Numbers;
use row_answer::arguments::Args;
use row_answer::{bit_vector, leaf};
use row_rules::{Cause, Row};
use store::Store;
use store::entries::Entries;

// The vector of a width, ParamBitVec where it is unknown; `near` may be its number.
#[tactic(auto, unfolding(record::specs::Record::map_of, record::specs::Record::maps))]
pub fn vector(store: &mut Store<'_>, width: Option<usize>, near: usize) -> Row
    ensures same { Same store.old store.new }
    ensures answer { Answered store.old (vector_of width) store.new result }
{
    match width {
        Some(w) => bit_vector(store, w, near),
        None => leaf(store, SortKind::ParamBitVec, near),
    }
}

// The first vector of known width among the arguments, if nothing but vectors of unknown width stands before it; None where
// there are only those; Panics where another sort is met.
pub fn scan_vectors(entries: Entries<'_>, numbers: Numbers<'_>) -> Result<Option<usize>, Cause>
    requires { KnownAsk entries.records.now entries.places.now (numbers_left numbers) }
    ensures { ScanHas entries.entry.records.now entries.entry.places.now (numbers_left numbers.entry) result }
{
    for k in numbers {
        match entries.kind(k) {
            SortKind::BitVec => return Ok(Some(k)),
            SortKind::ParamBitVec => {}
            _ => return Err(Cause::Panics),
        }
    }
    Ok(None)
}

// The group of nineteen: the first vector of known width; ParamBitVec without one; Panics at another sort before it.
#[tactic(auto, unfolding(record::specs::Record::map_of, record::specs::Record::maps))]
pub fn first_vector(store: &mut Store<'_>, args: &Args<'_>, near: usize) -> Row
    requires { ArgumentsAsk store.old args.now }
    ensures same { Same store.old store.new }
    ensures answer { Answered store.old (first_vector (arguments store.old args.now)) store.new result }
{
    match scan_vectors(store.entries(), args.numbers())? {
        Some(k) => Ok(k),
        None => leaf(store, SortKind::ParamBitVec, near),
    }
}

// Whether a sort is a vector, of known or unknown width.
fn is_vector(entries: Entries<'_>, k: usize) -> bool
    requires { HeadAsks entries.records.now entries.places.now k }
    ensures { (n : ℕ) → Stored entries.entry.records.now entries.entry.places.now n → k < n → result ≡ is_bit_vec (sort_at entries.entry.records.now entries.entry.places.now n k) }
{
    matches!(entries.kind(k), SortKind::BitVec | SortKind::ParamBitVec)
}

// Whether all of these sorts are vectors.
pub fn all_vectors(entries: Entries<'_>, mut numbers: Numbers<'_>) -> bool
    requires { KnownAsk entries.records.now entries.places.now (numbers_left numbers) }
    ensures { VectorsHas entries.entry.records.now entries.entry.places.now (numbers_left numbers.entry) result }
{
    numbers.all(|k| is_vector(entries, k))
}

// The widths of the arguments added up; None where they are vectors but a width is unknown; Panics where one is no vector.
pub fn add_widths(entries: Entries<'_>, mut numbers: Numbers<'_>) -> Result<Option<usize>, Cause>
    requires { WidthAsks entries.records.now entries.places.now (numbers_left numbers) }
    ensures { WidthsHas entries.entry.records.now entries.entry.places.now (numbers_left numbers.entry) result }
{
    let mut sum = 0;
    while let Some(k) = numbers.next() {
        let sort = entries.entry(k);
        match sort.kind {
            SortKind::BitVec => sum += sort.number,
            SortKind::ParamBitVec => {
                let vectors = all_vectors(entries, numbers);
                return vectors.then_some(None).ok_or(Cause::Panics);
            }
            _ => return Err(Cause::Panics),
        }
    }
    Ok(Some(sum))
}

// BvConcat: the vector of all widths together; ParamBitVec where one is unknown; Panics where an argument is no vector.
pub fn concat(store: &mut Store<'_>, args: &Args<'_>, near: usize) -> Row
    requires { ArgumentsAsk store.old args.now }
    ensures same { Same store.old store.new }
    ensures answer { Answered store.old (concat_from 0 (arguments store.old args.now)) store.new result }
{
    let width = add_widths(store.entries(), args.numbers())?;
    vector(store, width, near)
}
