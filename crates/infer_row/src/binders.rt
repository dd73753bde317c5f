// The inferred sort of a Binder.
ghost use Rattle.store.specs.Changes.{Same};
ghost use Rattle.infer_rules.specs.Inferred.{inferred_binder};
ghost use Rattle.row_answer.specs.Answer.{Answered};
ghost use Rattle.row_answer.specs.Args.{SameArgs};
ghost use Rattle.infer_operator.specs.Asks.{arguments};
ghost use Rattle.infer_row.specs.Terms.{BoundAsks, bindings};

use reader::TermRecord;
use record::kinds::{Binder, SortKind};
use row_answer::arguments::Args;
use row_answer::leaf;
use row_answer::lists::lambda;
use row_rules::{Cause, Row};
use sheet::ReadSheet;
use store::Store;

// A Binder, whose body is its argument: Bool for Forall, Exists and a number that is none's; for Choice the sort of its first
// binding, Panics without one; for Lambda the Function of its bindings' sorts and its body's, put together in `args`.
#[tactic(auto, unfolding(record::specs::Record::map_of, record::specs::Record::maps, infer_rules::specs::Inferred::inferred_binder))]
pub fn inferred_binder(
    store: &mut Store<'_>,
    sheet: &ReadSheet<'_>,
    term: TermRecord,
    args: &mut Args<'_>,
    near: usize,
) -> Row
    requires { BoundAsks store.old sheet.now term args.old }
    ensures same { Same store.old store.new }
    ensures same_args { SameArgs args.old args.new }
    ensures answer { Answered store.old (inferred_binder term.number (bindings store.old sheet.now term) (arguments store.old args.old)) store.new result }
{
    match Binder::try_from(term.number).unwrap_or(Binder::Forall) {
        Binder::Lambda => {
            let body = args.number(0);
            lambda(store, sheet, term.pairs, args, body, near)
        }
        Binder::Choice => {
            let mut pairs = term.pairs.pairs(sheet.bytes);
            let (_, sort) = pairs.next().ok_or(Cause::Panics)?;
            Ok(sheet.table[sort] as usize)
        }
        Binder::Forall | Binder::Exists => leaf(store, SortKind::Bool, near),
    }
}
