// The inferred sort of an App whose head is a Par of a Function.
ghost use Rattle.store.specs.Changes.{Same};
ghost use Rattle.matching_tables.specs.Names.{SameNames};
ghost use Rattle.row_application.specs.Words.{PatternsAsked, PatternsFound, ParametricAsked, substituted_in, AppAnswered};

use super::delivered::deliver;
use matching_tables::names::Names;
use matching_with::match_all_with;
use record::span::Span;
use row_answer::arguments::Args;
use row_answer::heads::Callee;
use row_rules::{Cause, Row};
use store::Store;
use store::entries::Sorts;

// The arguments matched by match_with with as many of the head's sorts, with its names listed meanwhile, or Panics: no name is listed
// before and after.
pub fn match_arguments(
    sorts: &Sorts<'_>,
    names: &mut Names<'_>,
    callee: Callee,
    args: &Args<'_>,
) -> Result<(), Cause>
    requires { PatternsAsked sorts.now names.old callee args.now }
    ensures names { SameNames names.old names.new }
    ensures call { PatternsFound sorts.now names.old callee args.now names.new result }
{
    let arguments = args.rest();
    let first = Span {
        count: arguments.count,
        ..callee.list
    };
    let patterns = first.numbers(sorts.records);
    let targets = arguments.numbers(args.bytes);
    names.start();
    names.list(sorts.records, callee.names);
    let fits = match_all_with(sorts, names, patterns, targets);
    names.unlist(sorts.records, callee.names);
    if fits { Ok(()) } else { Err(Cause::Panics) }
}

// What remains of the head's sorts at these arguments, with the map of match_with applied: the last one by itself, or the Function of
// them, found or added, Limit or Full; Panics where an argument does not match. No name is listed or bound before and after.
pub fn parametric(
    store: &mut Store<'_>,
    names: &mut Names<'_>,
    callee: Callee,
    args: &Args<'_>,
) -> Row
    requires { ParametricAsked store.old names.old callee args.now }
    ensures same { Same store.old store.new }
    ensures names { SameNames names.old names.new }
    ensures answer { AppAnswered (substituted_in store.old callee args.now) store.old names.old store.new names.new result }
{
    let call = match_arguments(&store.sorts(), names, callee, args);
    deliver(store, names, callee, args.count - 1, call)
}
