// The rules of the operators on sets, tuples and relations: what sorts their arguments must have. The result is one of these, a kind
// without parts, or a new sort that is made as for the inferred row.
ghost use Rattle.std.specs.Prelude.{List, ℕ, ◌≡◌, ◌+◌, ◌*◌, ◌≤◌, ◌<◌, length};
ghost use Rattle.row_answer.specs.Heads.{HeadAsks};
ghost use Rattle.check_operator.specs.Rule.{Sets};
ghost use Rattle.check_operator.specs.SetRule.{Alike, Member, Insert, Closure, Transpose, Join, Product, set_counts};
ghost use Rattle.check_operator.specs.Numbered.{result_number, set_numbers};
ghost use Rattle.check_operator.specs.Contract.{RuleAsks, RuleFits};
ghost use Rattle.check_operator.specs.SetContract.{ElementHas, AlikeAsks, ListsAsk, TouchHas};

use super::op::{Fit, all_same, is_kind};
use infer_operator::relations::columns_of;
use infer_rules::Family;
use record::kinds::SortKind;
use record::span::Span;
use row_answer::arguments::Args;
use store::entries::Entries;

// What arguments an operator on sets, tuples and relations takes, and what sort it then has.
#[derive(Clone, Copy)]
pub enum SetRule {
    // So many equal sets, one or two; the result is of this kind, Bool or Int, or theirs.
    Alike(usize, Option<SortKind>),
    // An element and its set; the result is Bool.
    Member,
    // One or more elements, then their set, which is the result.
    Insert,
    // A set of pairs of one sort, which is the result.
    Closure,
    // One argument, one or more, none: the Set of it, the Tuple of them.
    Singleton,
    Tuple,
    TupleUnit,
    // A set of tuples: its columns backwards.
    Transpose,
    // Two sets of tuples, of which the last column of the one is the first of the other: the other columns side by side.
    Join,
    // Two sets of tuples: their columns side by side.
    Product,
}

// Whether a rule has this count of arguments.
pub fn counts_of_sets(rule: SetRule, n: usize) -> bool
    ensures { result ≡ set_counts (set_numbers rule) n }
{
    match rule {
        SetRule::Alike(many, _) => n == many,
        SetRule::Member | SetRule::Join | SetRule::Product => n == 2,
        SetRule::Closure | SetRule::Singleton | SetRule::Transpose => n == 1,
        SetRule::TupleUnit => n == 0,
        SetRule::Tuple => 0 < n,
        SetRule::Insert => 1 < n,
    }
}

// The sort of the elements of the sort k, where it is a Set; else None.
pub fn element_of(entries: Entries<'_>, k: usize) -> Option<usize>
    requires { HeadAsks entries.records.now entries.places.now k }
    ensures { ElementHas entries.entry.records.now entries.entry.places.now k result }
{
    let set = entries.entry(k);
    if set.kind != SortKind::Set {
        return None;
    }
    Some(set.parts.get(entries.records, 0))
}

// Whether the last number of the list on the left is the first on the right; no where one is empty.
pub fn touch(records: &[u8], left: Span, right: Span) -> bool
    requires { ListsAsk records.now left right }
    ensures { TouchHas records.now left right result }
{
    if left.count == 0 || right.count == 0 {
        return false;
    }
    left.get(records, left.count - 1) == right.get(records, 0)
}

// Equal sets; the result is of this kind, or theirs. None where the first is no Set, or another is not it.
pub fn fit_alike(entries: Entries<'_>, args: &Args<'_>, res: Option<SortKind>) -> Option<Fit>
    requires { AlikeAsks entries args.now (result_number res) }
    ensures { (m : ℕ) → RuleFits entries.entry args.now (Sets (Alike m (result_number res))) result }
{
    let k = args.number(0);
    if !is_kind(entries, k, SortKind::Set) || !all_same(args) {
        return None;
    }
    Some(match res {
        None => Fit::Known(k),
        Some(kind) => Fit::Plain(kind),
    })
}

// An element and its set.
pub fn fit_member(entries: Entries<'_>, args: &Args<'_>) -> Option<Fit>
    requires { RuleAsks entries args.now (Sets Member) }
    ensures { RuleFits entries.entry args.now (Sets Member) result }
{
    let element = element_of(entries, args.number(1))?;
    (args.number(0) == element).then_some(Fit::Plain(SortKind::Bool))
}

// Elements, then their set.
pub fn fit_insert(entries: Entries<'_>, args: &Args<'_>) -> Option<Fit>
    requires { RuleAsks entries args.now (Sets Insert) }
    ensures { RuleFits entries.entry args.now (Sets Insert) result }
{
    let before = args.count - 1;
    let set = args.number(before);
    let element = element_of(entries, set)?;
    let list = Span {
        count: before,
        ..args.span()
    };
    let fits = list.numbers(args.bytes).all(|k| k == element);
    fits.then_some(Fit::Known(set))
}

// A set of pairs of one sort.
pub fn fit_closure(entries: Entries<'_>, args: &Args<'_>) -> Option<Fit>
    requires { RuleAsks entries args.now (Sets Closure) }
    ensures { RuleFits entries.entry args.now (Sets Closure) result }
{
    let k = args.number(0);
    let columns = columns_of(entries, k)?;
    if columns.count != 2 {
        return None;
    }
    let first = columns.get(entries.records, 0);
    let second = columns.get(entries.records, 1);
    (first == second).then_some(Fit::Known(k))
}

// A set of tuples.
pub fn fit_transpose(entries: Entries<'_>, args: &Args<'_>) -> Option<Fit>
    requires { RuleAsks entries args.now (Sets Transpose) }
    ensures { RuleFits entries.entry args.now (Sets Transpose) result }
{
    columns_of(entries, args.number(0))?;
    Some(Fit::Gathered(Family::Transpose))
}

// Two sets of tuples that touch.
pub fn fit_join(entries: Entries<'_>, args: &Args<'_>) -> Option<Fit>
    requires { RuleAsks entries args.now (Sets Join) }
    ensures { RuleFits entries.entry args.now (Sets Join) result }
{
    let left = columns_of(entries, args.number(0))?;
    let right = columns_of(entries, args.number(1))?;
    touch(entries.records, left, right).then_some(Fit::Gathered(Family::Join))
}

// Two sets of tuples.
pub fn fit_product(entries: Entries<'_>, args: &Args<'_>) -> Option<Fit>
    requires { RuleAsks entries args.now (Sets Product) }
    ensures { RuleFits entries.entry args.now (Sets Product) result }
{
    columns_of(entries, args.number(0))?;
    columns_of(entries, args.number(1))?;
    Some(Fit::Gathered(Family::Product))
}

// The result of a rule at the arguments, whose count it has; None where it does not fit.
pub fn fit_sets(entries: Entries<'_>, rule: SetRule, args: &Args<'_>) -> Option<Fit>
    requires { RuleAsks entries args.now (Sets (set_numbers rule)) }
    ensures { RuleFits entries.entry args.now (Sets (set_numbers rule)) result }
{
    match rule {
        SetRule::Alike(_, result) => fit_alike(entries, args, result),
        SetRule::Member => fit_member(entries, args),
        SetRule::Insert => fit_insert(entries, args),
        SetRule::Closure => fit_closure(entries, args),
        SetRule::Singleton => Some(Fit::Gathered(Family::Singleton)),
        SetRule::Tuple => Some(Fit::Gathered(Family::Tuple)),
        SetRule::TupleUnit => Some(Fit::Gathered(Family::UnitTuple)),
        SetRule::Transpose => fit_transpose(entries, args),
        SetRule::Join => fit_join(entries, args),
        SetRule::Product => fit_product(entries, args),
    }
}
