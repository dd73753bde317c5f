// What remains of a head's Function at arguments that were matched with its list: the end of an App, checked or inferred.
ghost use Rattle.store.specs.Changes.{Same};
ghost use Rattle.matching_tables.specs.Names.{SameNames};
ghost use Rattle.row_answer.specs.Answer.{Answered};
ghost use Rattle.row_application.specs.Words.{DeliverAsked, Delivered, call_verdict};

use matching_tables::names::Names;
use row_answer::heads::Callee;
use row_instance::rest;
use row_rules::{Cause, Row};
use store::Store;

// What remains of the Function at n arguments with the images of the bound names in their places: the last sort by itself, or the
// Function of them, found or added, Limit or Full; the cause where the arguments fail.
pub fn what_remains(
    store: &mut Store<'_>,
    names: &Names<'_>,
    callee: Callee,
    n: usize,
    call: Result<(), Cause>,
) -> Row
    requires { DeliverAsked store.old names.now callee n call }
    ensures same { Same store.old store.new }
    ensures answer { Answered store.old (call_verdict store.old names.now callee n call) store.new result }
{
    call?;
    rest(store, names.images, callee.list.skip(n))
}

// The same, and then no name is bound.
pub fn deliver(
    store: &mut Store<'_>,
    names: &mut Names<'_>,
    callee: Callee,
    n: usize,
    call: Result<(), Cause>,
) -> Row
    requires { DeliverAsked store.old names.old callee n call }
    ensures same { Same store.old store.new }
    ensures names { SameNames names.old names.new }
    ensures answer { Delivered store.old names.old callee n call store.new names.new result }
{
    let made = what_remains(store, names, callee, n, call);
    names.clear();
    made
}
