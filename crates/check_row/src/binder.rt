// The checked sort of a Binder: pairs of the sheet bind names to sorts, by way of the table of sheet numbers, over one body.
ghost use Rattle.std.specs.Prelude.{◌≡◌};
ghost use Rattle.record.specs.Kinds.{binder_number};
ghost use Rattle.record.specs.Sort.{end, ◌then◌};
ghost use Rattle.store.specs.Changes.{Same};
ghost use Rattle.store.specs.Words.{sort_in};
ghost use Rattle.substitution.specs.Premises.{proper_all};
ghost use Rattle.check_rules.specs.Checked.{bound_body, binder};
ghost use Rattle.row_answer.specs.Answer.{Answered};
ghost use Rattle.row_answer.specs.Args.{SameArgs};
ghost use Rattle.row_answer.specs.Words.{bound_in};
ghost use Rattle.check_row.specs.Words.{bound_among, first_in, BindingsAsked, BodyAsked, BinderAsked};

use super::indexed::kept;
use matching_each::premises::is_proper;
use record::kinds::{Binder, SortKind};
use record::span::Span;
use row_answer::arguments::Args;
use row_answer::lists::lambda;
use row_rules::{Cause, Row};
use sheet::ReadSheet;
use store::Store;
use store::entries::Sorts;

// Whether the sorts of the pairs are proper.
pub fn all_proper(sorts: &Sorts<'_>, sheet: &ReadSheet<'_>, pairs: Span) -> bool
    requires { BindingsAsked sorts.now sheet.now pairs }
    ensures { result ≡ proper_all (bound_among sorts.now sheet.now pairs) }
{
    pairs
        .pairs(sheet.bytes)
        .all(|(_, sort)| is_proper(sorts, sheet.table[sort] as usize))
}

// A Binder whose pairs are proper over the sort `body`. Forall and Exists give Bool, Choice the sort of its pair, Lambda the
// Function of its pairs' sorts and its body's. Count without a pair, and for Choice unless it has one; Misfit where the body is
// not Bool, for Lambda where it is a Par.
pub fn bound_body(
    store: &mut Store<'_>,
    sheet: &ReadSheet<'_>,
    pairs: Span,
    binder: Binder,
    args: &mut Args<'_>,
    body: usize,
    near: usize,
) -> Row
    requires { BodyAsked store.old sheet.now pairs args.old body }
    ensures same { Same store.old store.new }
    ensures same_args { SameArgs args.old args.new }
    ensures answer { Answered store.old (bound_body (binder_number binder) (bound_in store.old sheet.now pairs) (sort_in store.old body then end)) store.new result }
{
    if pairs.count == 0 {
        return Err(Cause::Count);
    }
    let kind = store.kind(body);
    match binder {
        Binder::Lambda => {
            if kind == SortKind::Par {
                return Err(Cause::Misfit);
            }
            lambda(store, sheet, pairs, args, body, near)
        }
        Binder::Choice => {
            if pairs.count != 1 {
                return Err(Cause::Count);
            }
            if kind != SortKind::Bool {
                return Err(Cause::Misfit);
            }
            let sort = pairs.get(sheet.bytes, 1);
            Ok(sheet.table[sort] as usize)
        }
        Binder::Forall | Binder::Exists => kept(body, kind, SortKind::Bool),
    }
}

// A Binder over the body whose sort is the one in `args`: Barred where a pair's sort is not proper; else as `bound_body`, a
// number that is no Binder's as Forall.
pub fn checked_binder(
    store: &mut Store<'_>,
    sheet: &ReadSheet<'_>,
    pairs: Span,
    number: usize,
    args: &mut Args<'_>,
    near: usize,
) -> Row
    requires { BinderAsked store.old sheet.now pairs args.old }
    ensures same { Same store.old store.new }
    ensures same_args { SameArgs args.old args.new }
    ensures answer { Answered store.old (binder number (bound_in store.old sheet.now pairs) (first_in store.old args.old)) store.new result }
{
    if !all_proper(&store.sorts(), sheet, pairs) {
        return Err(Cause::Barred);
    }
    let binder = Binder::try_from(number).unwrap_or(Binder::Forall);
    let body = args.number(0);
    bound_body(store, sheet, pairs, binder, args, body, near)
}
