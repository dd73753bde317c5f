// The operators of relations. The columns of an answer are put together in place of the arguments; `near` may be its number.
ghost use Rattle.std.specs.Prelude.{◌≡◌, ◌+◌};
ghost use Rattle.store.specs.Changes.{Same};
ghost use Rattle.infer_rules.specs.Inferred.{transpose_of, over_both, join_of, product_of};
ghost use Rattle.row_answer.specs.Answer.{Answered};
ghost use Rattle.row_answer.specs.Args.{SameArgs};
ghost use Rattle.row_answer.specs.Heads.{HeadAsks};
ghost use Rattle.infer_operator.specs.Asks.{ArgumentsAsk, ReadArgumentsAsk, arguments};
ghost use Rattle.infer_operator.specs.Relations.{ColumnsHas, BothHas, PutColumnsAsk, PutHas, BackwardsIs, columns_in};
ghost use Rattle.infer_operator.specs.Words.{SideAsked};

use super::single::argument;
use record::kinds::SortKind;
use record::span::Span;
use row_answer::arguments::Args;
use row_answer::lists::relation;
use row_rules::{Cause, Row};
use store::Store;
use store::entries::Entries;

// The columns of the sort k, where it is a Set of a Tuple; else None.
pub fn columns_of(entries: Entries<'_>, k: usize) -> Option<Span>
    requires { HeadAsks entries.records.now entries.places.now k }
    ensures { ColumnsHas entries.entry.records.now entries.entry.places.now k result }
{
    let set = entries.entry(k);
    if set.kind != SortKind::Set {
        return None;
    }
    let inner = entries.entry(set.parts.get(entries.records, 0));
    (inner.kind == SortKind::Tuple).then_some(inner.parts)
}

// Writes the columns behind the numbers that `args` has.
pub fn put_columns(records: &[u8], columns: Span, args: &mut Args<'_>)
    requires { PutColumnsAsk records.now columns.at columns.count args.old.bytes.now args.old.count }
    ensures same { SameArgs args.old args.new }
    ensures count { args.new.count ≡ args.old.count + columns.count }
    ensures put { PutHas records.now columns.at columns.count args.old.bytes.now args.old.count args.new.bytes.now }
{
    for k in columns.numbers(records) {
        args.push(k);
    }
}

// Writes the columns in place of what was in `args`, the last first.
pub fn put_backwards(records: &[u8], columns: Span, args: &mut Args<'_>)
    requires { PutColumnsAsk records.now columns.at columns.count args.old.bytes.now 0 }
    ensures same { SameArgs args.old args.new }
    ensures count { args.new.count ≡ columns.count }
    ensures put { BackwardsIs records.now columns.at columns.count args.new.bytes.now }
{
    args.clear();
    for i in (0..columns.count).rev() {
        args.push(columns.get(records, i));
    }
}

// RelTranspose: the relation with the columns of the first argument backwards; Panics where it is no relation, or missing.
pub fn transpose(store: &mut Store<'_>, args: &mut Args<'_>, near: usize) -> Row
    requires { ArgumentsAsk store.old args.old }
    ensures same { Same store.old store.new }
    ensures same_args { SameArgs args.old args.new }
    ensures answer { Answered store.old (transpose_of (arguments store.old args.old)) store.new result }
{
    let k = argument(args, 0)?;
    let entries = store.entries();
    let columns = columns_of(entries, k).ok_or(Cause::Panics)?;
    put_backwards(entries.records, columns, args);
    relation(store, args, near)
}

// The relation with the columns on the left and then those on the right.
pub fn side_by_side(
    store: &mut Store<'_>,
    args: &mut Args<'_>,
    left: Span,
    right: Span,
    near: usize,
) -> Row
    requires { SideAsked store.old args.old left right }
    ensures same { Same store.old store.new }
    ensures same_args { SameArgs args.old args.new }
    ensures answer { Answered store.old (product_of (columns_in store.old left) (columns_in store.old right)) store.new result }
{
    let records = store.entries().records;
    args.clear();
    put_columns(records, left, args);
    put_columns(records, right, args);
    relation(store, args, near)
}

// RelJoin of these columns: without the last on the left, if there is one, and the first on the right, Panics if there is none.
pub fn join_columns(
    store: &mut Store<'_>,
    args: &mut Args<'_>,
    left: Span,
    right: Span,
    near: usize,
) -> Row
    requires { SideAsked store.old args.old left right }
    ensures same { Same store.old store.new }
    ensures same_args { SameArgs args.old args.new }
    ensures answer { Answered store.old (join_of (columns_in store.old left) (columns_in store.old right)) store.new result }
{
    if right.count == 0 {
        return Err(Cause::Panics);
    }
    let before = Span {
        count: left.count.saturating_sub(1),
        ..left
    };
    side_by_side(store, args, before, right.skip(1), near)
}

// The columns of the first two arguments; None where one is missing or no relation.
pub fn both_columns(entries: Entries<'_>, args: &Args<'_>) -> Option<(Span, Span)>
    requires { ReadArgumentsAsk entries.records.now entries.places.now args.now.bytes.now 3 args.now.count }
    ensures { BothHas entries.entry.records.now entries.entry.places.now args.now.bytes.now args.now.count result }
{
    if args.count < 2 {
        return None;
    }
    let left = columns_of(entries, args.number(0))?;
    let right = columns_of(entries, args.number(1))?;
    Some((left, right))
}

// RelJoin of the first two arguments; Panics where one is missing or no relation.
pub fn join(store: &mut Store<'_>, args: &mut Args<'_>, near: usize) -> Row
    requires { ArgumentsAsk store.old args.old }
    ensures same { Same store.old store.new }
    ensures same_args { SameArgs args.old args.new }
    ensures answer { Answered store.old (over_both join_of (arguments store.old args.old)) store.new result }
{
    let (left, right) = both_columns(store.entries(), args).ok_or(Cause::Panics)?;
    join_columns(store, args, left, right, near)
}

// RelProduct of the first two arguments: their columns side by side; Panics where one is missing or no relation.
pub fn product(store: &mut Store<'_>, args: &mut Args<'_>, near: usize) -> Row
    requires { ArgumentsAsk store.old args.old }
    ensures same { Same store.old store.new }
    ensures same_args { SameArgs args.old args.new }
    ensures answer { Answered store.old (over_both product_of (arguments store.old args.old)) store.new result }
{
    let (left, right) = both_columns(store.entries(), args).ok_or(Cause::Panics)?;
    side_by_side(store, args, left, right, near)
}
