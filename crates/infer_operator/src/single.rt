// The operators that look at one argument, or at the sorts of all, over the numbers of their arguments' sorts.
ghost use Rattle.std.specs.Prelude.{◌≡◌, ◌<◌, ℕ};
ghost use Rattle.record.specs.Numbers.{numbers_left};
ghost use Rattle.record.specs.Sort.{real, same};
ghost use Rattle.record.specs.Decode.{Stored, sort_at};
ghost use Rattle.store.specs.Changes.{Same};
ghost use Rattle.infer_rules.specs.Inferred.{constant_width, some_real, sum_of, rare_of, singleton_of};
ghost use Rattle.row_answer.specs.Answer.{Answered};
ghost use Rattle.row_answer.specs.Heads.{HeadAsks};
ghost use Rattle.row_answer.specs.Words.{constants};
ghost use Rattle.infer_operator.specs.Asks.{ArgumentsAsk, ReadArgumentsAsk, KnownAsk, arguments};
ghost use Rattle.infer_operator.specs.Single.{argument_of, ArgumentHas, LastHas, RealHas, ElementHas};
ghost use Rattle.infer_operator.specs.Words.{WrittenAsked};

use super::vectors::vector;
use record::kinds::SortKind;
use record::numbers::Numbers;
use record::span::Span;
use row_answer::arguments::{Args, index_at};
use row_answer::lists::set_of;
use row_answer::{leaf, variable};
use row_rules::{Cause, Row};
use sheet::ReadSheet;
use store::Store;
use store::entries::Entries;

// The argument number i; Panics where there is none.
pub fn argument(args: &Args<'_>, i: usize) -> Row
    ensures value { result ≡ argument_of args.now i }
    ensures answer { ArgumentHas args.now.bytes.now args.now.count i result }
{
    args.numbers().nth(i).ok_or(Cause::Panics)
}

// The last argument, if it is not one of the first `least`; else Panics.
pub fn last_of(args: &Args<'_>, least: usize) -> Row
    ensures { LastHas args.now.bytes.now args.now.count least result }
{
    if args.count <= least {
        return Err(Cause::Panics);
    }
    Ok(args.number(args.count - 1))
}

// Whether a sort is Real.
fn is_real(entries: Entries<'_>, k: usize) -> bool
    requires { HeadAsks entries.records.now entries.places.now k }
    ensures { (n : ℕ) → Stored entries.entry.records.now entries.entry.places.now n → k < n → result ≡ same (sort_at entries.entry.records.now entries.entry.places.now n k) real }
{
    entries.kind(k) == SortKind::Real
}

// Whether one of these sorts is Real.
pub fn some_real(entries: Entries<'_>, mut numbers: Numbers<'_>) -> bool
    requires { KnownAsk entries.records.now entries.places.now (numbers_left numbers) }
    ensures { RealHas entries.entry.records.now entries.entry.places.now (numbers_left numbers.entry) result }
{
    numbers.any(|k| is_real(entries, k))
}

// Add, Sub, Mult: Real where an argument is Real, else Int; `near` may be its number.
#[tactic(auto, unfolding(record::specs::Record::map_of, record::specs::Record::maps))]
pub fn sum(store: &mut Store<'_>, args: &Args<'_>, near: usize) -> Row
    requires { ArgumentsAsk store.old args.now }
    ensures same { Same store.old store.new }
    ensures answer { Answered store.old (sum_of (some_real (arguments store.old args.now))) store.new result }
{
    if some_real(store.entries(), args.numbers()) {
        leaf(store, SortKind::Real, near)
    } else {
        leaf(store, SortKind::Int, near)
    }
}

// Select: the second part of the first argument, an Array; else Panics.
pub fn element(entries: Entries<'_>, args: &Args<'_>) -> Row
    requires { ReadArgumentsAsk entries.records.now entries.places.now args.now.bytes.now 3 args.now.count }
    ensures { ElementHas entries.entry.records.now entries.entry.places.now args.now.bytes.now args.now.count result }
{
    let k = argument(args, 0)?;
    let array = entries.entry(k);
    if array.kind != SortKind::Array {
        return Err(Cause::Panics);
    }
    Ok(array.parts.get(entries.records, 1))
}

// RareList: the first argument's sort, or the variable `?` without one.
pub fn rare_list(store: &mut Store<'_>, args: &Args<'_>) -> Row
    requires { ArgumentsAsk store.old args.now }
    ensures same { Same store.old store.new }
    ensures answer { Answered store.old (rare_of (arguments store.old args.now)) store.new result }
{
    match argument(args, 0) {
        Ok(k) => Ok(k),
        Err(_) => variable(store, 0),
    }
}

// SetSingleton: the Set of the first argument's sort, which `near` may be the number of; Panics without one.
pub fn singleton(store: &mut Store<'_>, args: &Args<'_>, near: usize) -> Row
    requires { ArgumentsAsk store.old args.now }
    ensures same { Same store.old store.new }
    ensures answer { Answered store.old (singleton_of (arguments store.old args.now)) store.new result }
{
    let k = argument(args, 0)?;
    set_of(store, k, near)
}

// BvConst: the vector of the width that the second argument writes; ParamBitVec where it is no integer constant; Panics
// without a second argument. The sheet names the arguments in `list`; `near` may be the answer.
pub fn constant_width(store: &mut Store<'_>, sheet: &ReadSheet<'_>, list: Span, near: usize) -> Row
    requires { WrittenAsked store.old sheet.now list }
    ensures same { Same store.old store.new }
    ensures answer { Answered store.old (constant_width (constants sheet.now list)) store.new result }
{
    if list.count < 2 {
        return Err(Cause::Panics);
    }
    vector(store, index_at(sheet, list, 1), near)
}
