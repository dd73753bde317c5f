// The inferred sort of an operator at its arguments.
ghost use Rattle.infer_rules.specs.Family.{family_of};
ghost use Rattle.infer_rules.specs.Inferred.{operated_by};
ghost use Rattle.store.specs.Changes.{Same};
ghost use Rattle.row_answer.specs.Answer.{Answered};
ghost use Rattle.row_answer.specs.Args.{SameArgs};
ghost use Rattle.row_answer.specs.Words.{constants};
ghost use Rattle.infer_operator.specs.Asks.{arguments};
ghost use Rattle.infer_operator.specs.Operators.{no_constants, MadeAsks, LookedAsks, InferOperatorAsks};

use super::family::{Plain, family_of, plain_of};
use super::relations::{join, product, transpose};
use super::single::{argument, constant_width, element, last_of, rare_list, singleton, sum};
use super::vectors::{concat, first_vector};
use infer_rules::Family;
use record::kinds::SortKind;
use record::span::Span;
use row_answer::arguments::Args;
use row_answer::lists::listed;
use row_answer::{bit_vector, leaf};
use row_rules::Row;
use sheet::ReadSheet;
use store::Store;

// What the families that make sets, tuples and relations answer; `near` may be its number.
#[tactic(auto, unfolding(infer_rules::specs::Inferred::operated_by, record::specs::Record::map_of, record::specs::Record::maps, record::specs::Record::least_of, record::specs::Record::leasts, record::specs::Record::most_of, record::specs::Record::mosts, record::specs::Record::sorts_of, record::specs::Number::numbers_at))]
pub fn gathered(store: &mut Store<'_>, family: Family, args: &mut Args<'_>, near: usize) -> Row
    requires { MadeAsks store.old family args.old }
    ensures same { Same store.old store.new }
    ensures same_args { SameArgs args.old args.new }
    ensures answer { Answered store.old (operated_by family (arguments store.old args.old) no_constants) store.new result }
{
    match family {
        Family::Singleton => singleton(store, args, near),
        Family::Tuple => listed(store, SortKind::Tuple, args, near),
        Family::UnitTuple => {
            args.clear();
            listed(store, SortKind::Tuple, args, near)
        }
        Family::Transpose => transpose(store, args, near),
        Family::Join => join(store, args, near),
        _ => product(store, args, near),
    }
}

// What the families that look at vectors and at single arguments answer, and those of `gathered`; `near` may be its number.
#[tactic(auto, unfolding(infer_rules::specs::Inferred::operated_by))]
pub fn looked(store: &mut Store<'_>, family: Family, args: &mut Args<'_>, near: usize) -> Row
    requires { LookedAsks store.old family args.old }
    ensures same { Same store.old store.new }
    ensures same_args { SameArgs args.old args.new }
    ensures answer { Answered store.old (operated_by family (arguments store.old args.old) no_constants) store.new result }
{
    match family {
        Family::Vector => first_vector(store, args, near),
        Family::Concat => concat(store, args, near),
        Family::First => argument(args, 0),
        Family::Second => argument(args, 1),
        Family::Last => last_of(args, 0),
        Family::Sum => sum(store, args, near),
        Family::Element => element(store.entries(), args),
        Family::RareList => rare_list(store, args),
        _ => gathered(store, family, args, near),
    }
}

// The inferred sort of the operator at its arguments, which the sheet names in `list`: the number of that sort, which is made
// where it is not there yet and is not `near`, or the refusal that its family, a limit or the store's room gives.
#[tactic(auto, unfolding(infer_rules::specs::Inferred::operated_by))]
pub fn inferred_operator(
    store: &mut Store<'_>,
    sheet: &ReadSheet<'_>,
    list: Span,
    op: usize,
    args: &mut Args<'_>,
    near: usize,
) -> Row
    requires { InferOperatorAsks store.old sheet.now.bytes.now sheet.now.starts.now list args.old }
    ensures same { Same store.old store.new }
    ensures same_args { SameArgs args.old args.new }
    ensures answer { Answered store.old (operated_by (family_of op) (arguments store.old args.old) (constants sheet.now list)) store.new result }
{
    let family = family_of(op);
    match plain_of(family, args.count) {
        Plain::Kind(kind) => leaf(store, kind, near),
        Plain::Width(width) => bit_vector(store, width, near),
        Plain::Written => constant_width(store, sheet, list, near),
        Plain::Other => looked(store, family, args, near),
    }
}
