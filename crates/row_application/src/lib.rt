// The sort of an App, inferred and checked, over the store numbers of its head and its arguments: they stand in `args`, the head first.
#![tactic(auto)]

ghost use Rattle.store.specs.Changes.{Same};
ghost use Rattle.matching_tables.specs.Names.{SameNames};
ghost use Rattle.infer_rules.specs.Inferred.{inferred_app};
ghost use Rattle.check_rules.specs.Checked.{checked_app};
ghost use Rattle.row_answer.specs.Args.{SameArgs};
ghost use Rattle.row_application.specs.Words.{AppAsked, AppCrowdedIn, sorts_in, AppAnswered};

use called::called;
use matching_tables::names::Names;
use parametric::parametric;
use row_answer::arguments::Args;
use row_answer::heads::head_of;
use row_answer::lists::remaining;
use row_rules::{Cause, Row};
use store::Store;

pub mod called;
pub mod delivered;
pub mod parametric;
pub mod plain;
pub mod settled;
pub mod unmade;

// The checked sort of an App of these terms: Count without an argument, for any head; Misfit where the head is no Function or Par of
// one; else as `called`. `crowded` says that the inferred sort of the same App has no room in the store.
pub fn checked_app(
    store: &mut Store<'_>,
    names: &mut Names<'_>,
    args: &Args<'_>,
    crowded: bool,
) -> Row
    requires asked { AppAsked store.old names.old args.now }
    requires crowded { AppCrowdedIn crowded store.old args.now }
    ensures same { Same store.old store.new }
    ensures names { SameNames names.old names.new }
    ensures answer { AppAnswered (checked_app (sorts_in store.old args.now)) store.old names.old store.new names.new result }
{
    if args.count < 2 {
        return Err(Cause::Count);
    }
    let callee = head_of(store.entries(), args.number(0)).ok_or(Cause::Misfit)?;
    called(store, names, callee, args, crowded)
}

// The inferred sort of an App of these terms: what remains of the head's Function at the others; Panics without a head, where it is no
// Function or Par of one, and where there are more arguments than its list has sorts. A plain head's arguments are not compared. `args`
// is used up.
pub fn inferred_app(store: &mut Store<'_>, names: &mut Names<'_>, args: &mut Args<'_>) -> Row
    requires { AppAsked store.old names.old args.old }
    ensures same { Same store.old store.new }
    ensures names { SameNames names.old names.new }
    ensures args { SameArgs args.old args.new }
    ensures answer { AppAnswered (inferred_app (sorts_in store.old args.old)) store.old names.old store.new names.new result }
{
    if args.count == 0 {
        return Err(Cause::Panics);
    }
    let n = args.count - 1;
    let callee = head_of(store.entries(), args.number(0)).ok_or(Cause::Panics)?;
    if callee.list.count < n {
        return Err(Cause::Panics);
    }
    if callee.names.count == 0 {
        return remaining(store, args, callee.list.skip(n));
    }
    parametric(store, names, callee, args)
}
