// The checked sort of an App whose head is a Function or a Par of one.
ghost use Rattle.store.specs.Changes.{Same};
ghost use Rattle.matching_tables.specs.Names.{SameNames};
ghost use Rattle.row_application.specs.Words.{FitAsked, FitFound, FittedAsked, FittedFound, CalledAsked, CalledCrowdedIn, called_in, AppAnswered};

use super::delivered::deliver;
use super::plain::checked_plain;
use super::settled::all_settled;
use super::unmade::unmade;
use matching::matches_all;
use matching_tables::names::Names;
use matching_tables::notes::Seen;
use record::span::Span;
use row_answer::arguments::Args;
use row_answer::heads::Callee;
use row_answer::values::all_values;
use row_rules::{Cause, Row};
use store::Store;
use store::entries::Sorts;

// With the head's names listed, the arguments matched with as many of the sorts that the store names in `list`, and what remains of
// these: Misfit where an argument does not fit, Unassigned where a parameter is left open.
pub fn fit_listed(
    sorts: &Sorts<'_>,
    names: &mut Names<'_>,
    list: Span,
    args: &Args<'_>,
) -> Result<(), Cause>
    requires { FitAsked sorts.now names.old list args.now }
    ensures names { SameNames names.old names.new }
    ensures fit { FitFound sorts.now names.old list args.now names.new result }
{
    let arguments = args.rest();
    let n = arguments.count;
    let patterns = Span { count: n, ..list }.numbers(sorts.records);
    let targets = arguments.numbers(args.bytes);
    if !matches_all(sorts, names, patterns, targets) {
        return Err(Cause::Misfit);
    }
    if !all_settled(sorts, names, &mut Seen::new(), list.skip(n)) {
        return Err(Cause::Unassigned);
    }
    Ok(())
}

// The same for a head whose names are listed meanwhile: none is listed before and after.
pub fn fit_arguments(
    sorts: &Sorts<'_>,
    names: &mut Names<'_>,
    callee: Callee,
    args: &Args<'_>,
) -> Result<(), Cause>
    requires { FittedAsked sorts.now names.old callee args.now }
    ensures names { SameNames names.old names.new }
    ensures fit { FittedFound sorts.now names.old callee args.now names.new result }
{
    names.start();
    names.list(sorts.records, callee.names);
    let call = fit_listed(sorts, names, callee.list, args);
    names.unlist(sorts.records, callee.names);
    call
}

// A head at its arguments: Count unless they are fewer than its sorts; as `checked_plain` without parameters; else Misfit where an
// argument is a Par or does not fit, Unassigned where a parameter left in what remains is unbound, or what remains with the parameters
// replaced. No name is listed or bound before and after. `crowded` says that the inferred sort of the same App has no room in the store.
pub fn called(
    store: &mut Store<'_>,
    names: &mut Names<'_>,
    callee: Callee,
    args: &Args<'_>,
    crowded: bool,
) -> Row
    requires asked { CalledAsked store.old names.old callee args.now }
    requires crowded { CalledCrowdedIn crowded store.old callee args.now }
    ensures same { Same store.old store.new }
    ensures names { SameNames names.old names.new }
    ensures answer { AppAnswered (called_in store.old callee args.now) store.old names.old store.new names.new result }
{
    let n = args.count - 1;
    if callee.list.count <= n {
        return Err(Cause::Count);
    }
    if callee.names.count == 0 {
        return checked_plain(store, callee.list, args);
    }
    if !all_values(store.entries(), args.bytes, args.rest()) {
        return Err(Cause::Misfit);
    }
    let sorts = store.sorts();
    let found = fit_arguments(&sorts, names, callee, args);
    let call = unmade(&sorts, names, callee.list.skip(n), crowded, found);
    deliver(store, names, callee, n, call)
}
