// The checked sort of an operator at its arguments.
ghost use Rattle.std.specs.Prelude.{List, ℕ};
ghost use Rattle.record.specs.Kinds.{sort_number};
ghost use Rattle.store.specs.Changes.{Same};
ghost use Rattle.store.specs.Words.{store_in};
ghost use Rattle.check_rules.specs.Ranks.{smt_lib};
ghost use Rattle.check_rules.specs.Checked.{operated};
ghost use Rattle.row_answer.specs.Answer.{Answered};
ghost use Rattle.row_answer.specs.Heads.{HeadAsks};
ghost use Rattle.row_answer.specs.Words.{args_in};
ghost use Rattle.check_operator.specs.Rule.{All, Numbers, Equal, Choose, Vectors, Concat};
ghost use Rattle.check_operator.specs.Numbered.{result_number, fixed_numbers, rule_numbers};
ghost use Rattle.check_operator.specs.Contract.{ArgsAsk, KindIs, KindsHave, SameHas, FirstHas, RuleAsks, RuleFits, ValuesFor, ArrayAsks, ArrayHas, fit_verdict, DeliverFitAsked};
ghost use Rattle.infer_operator.specs.Asks.{ArgumentsAsk};
ghost use Rattle.row_answer.specs.Args.{SameArgs};

use super::rule::{Rule, counts, rule_of};
use super::sets::{SetRule, fit_sets};
use infer_operator::op::gathered;
use infer_rules::Family;
use record::kinds::SortKind;
use record::span::Span;
use row_answer::arguments::Args;
use row_answer::values::all_values;
use row_answer::{bit_vector, leaf};
use row_rules::{Cause, Row};
use store::Store;
use store::entries::Entries;

// The result of a rule that fits: a sort of the store, the sort of a kind without parts, a vector of a width, or what the
// inferred row's family makes of the arguments.
#[derive(Clone, Copy, Debug, PartialEq, Eq)]
pub enum Fit {
    Known(usize),
    Plain(SortKind),
    Width(usize),
    Gathered(Family),
}

// Whether the sort k is of this kind.
pub fn is_kind(entries: Entries<'_>, k: usize, kind: SortKind) -> bool
    requires { HeadAsks entries.records.now entries.places.now k }
    ensures { KindIs entries.entry.records.now entries.entry.places.now k (sort_number kind) result }
{
    entries.kind(k) == kind
}

// Whether the arguments are all of this kind.
pub fn all_kind(entries: Entries<'_>, args: &Args<'_>, kind: SortKind) -> bool
    requires { ArgsAsk entries.records.now entries.places.now args.now.bytes.now args.now.count }
    ensures { KindsHave entries.entry.records.now entries.entry.places.now args.now.bytes.now args.now.count (sort_number kind) result }
{
    args.numbers().all(|k| is_kind(entries, k, kind))
}

// Whether the arguments are all of the sort of the first one.
pub fn all_same(args: &Args<'_>) -> bool
    ensures { (b p : List ℕ) → SameHas b p args.now.bytes.now args.now.count result }
{
    args.numbers().all(|k| k == args.number(0))
}

// Two or more of one kind.
pub fn fit_all(entries: Entries<'_>, args: &Args<'_>, kind: SortKind, res: SortKind) -> Option<Fit>
    requires { RuleAsks entries args.now (All (sort_number kind) (sort_number res)) }
    ensures { RuleFits entries.entry args.now (All (sort_number kind) (sort_number res)) result }
{
    all_kind(entries, args, kind).then_some(Fit::Plain(res))
}

// At most three arguments of these kinds.
pub fn fit_fixed(
    entries: Entries<'_>,
    args: &Args<'_>,
    kinds: &[SortKind],
    res: SortKind,
) -> Option<Fit>
    requires { RuleAsks entries args.now (fixed_numbers kinds.now res) }
    ensures { RuleFits entries.entry args.now (fixed_numbers kinds.now res) result }
{
    let mut pairs = args.numbers().zip(kinds);
    let fits = pairs.all(|(k, kind)| is_kind(entries, k, *kind));
    fits.then_some(Fit::Plain(res))
}

// Each Int or Real, in one pass; the result is of this kind, or Real if one of them is Real, else Int. None where an argument is
// of another kind.
pub fn fit_numbers(entries: Entries<'_>, args: &Args<'_>, res: Option<SortKind>) -> Option<Fit>
    requires { RuleAsks entries args.now (Numbers 1 (result_number res)) }
    ensures { RuleFits entries.entry args.now (Numbers 1 (result_number res)) result }
{
    let mut sum = SortKind::Int;
    for k in args.numbers() {
        match entries.kind(k) {
            SortKind::Int => {}
            SortKind::Real => sum = SortKind::Real,
            _ => return None,
        }
    }
    Some(Fit::Plain(res.unwrap_or(sum)))
}

// All of one sort gives Bool.
pub fn fit_equal(entries: Entries<'_>, args: &Args<'_>) -> Option<Fit>
    requires { RuleAsks entries args.now Equal }
    ensures { RuleFits entries.entry args.now Equal result }
{
    all_same(args).then_some(Fit::Plain(SortKind::Bool))
}

// Bool A A gives A.
pub fn fit_choose(entries: Entries<'_>, args: &Args<'_>) -> Option<Fit>
    requires { RuleAsks entries args.now Choose }
    ensures { RuleFits entries.entry args.now Choose result }
{
    let test = args.number(0);
    let chosen = args.number(1);
    let other = args.number(2);
    let fits = is_kind(entries, test, SortKind::Bool) && other == chosen;
    fits.then_some(Fit::Known(chosen))
}

// (Array X Y) X gives Y; with three arguments, (Array X Y) X Y gives (Array X Y).
pub fn fit_array(entries: Entries<'_>, args: &Args<'_>) -> Option<Fit>
    requires { ArrayAsks entries.records.now entries.places.now args.now.bytes.now args.now.count }
    ensures { ArrayHas entries.entry.records.now entries.entry.places.now args.now.bytes.now args.now.count result }
{
    let array = args.number(0);
    if !is_kind(entries, array, SortKind::Array) {
        return None;
    }
    let parts = entries.entry(array).parts;
    let index = parts.get(entries.records, 0);
    let element = parts.get(entries.records, 1);
    if args.number(1) != index {
        return None;
    }
    if args.count == 2 {
        return Some(Fit::Known(element));
    }
    (args.number(2) == element).then_some(Fit::Known(array))
}

// Vectors of one width; the result is theirs, one bit, or of this kind.
pub fn fit_vectors(entries: Entries<'_>, args: &Args<'_>, res: Option<SortKind>) -> Option<Fit>
    requires { RuleAsks entries args.now (Vectors 1 1 (result_number res)) }
    ensures { RuleFits entries.entry args.now (Vectors 1 1 (result_number res)) result }
{
    let k = args.number(0);
    if !is_kind(entries, k, SortKind::BitVec) || !all_same(args) {
        return None;
    }
    Some(match res {
        None => Fit::Known(k),
        Some(SortKind::BitVec) => Fit::Width(1),
        Some(kind) => Fit::Plain(kind),
    })
}

// Two vectors; the result is as wide as both.
pub fn fit_concat(entries: Entries<'_>, args: &Args<'_>) -> Option<Fit>
    requires { RuleAsks entries args.now Concat }
    ensures { RuleFits entries.entry args.now Concat result }
{
    let a = args.number(0);
    let b = args.number(1);
    let fits = is_kind(entries, a, SortKind::BitVec) && is_kind(entries, b, SortKind::BitVec);
    fits.then_some(Fit::Width(entries.entry(a).number + entries.entry(b).number))
}

// The result of a rule at the arguments, whose count it has; None where it does not fit.
#[tactic(auto, using(crate::proofs::OperatedLaws::numbers_has, crate::proofs::OperatedLaws::vectors_has))]
pub fn fit_rule(entries: Entries<'_>, rule: Rule, args: &Args<'_>) -> Option<Fit>
    requires { RuleAsks entries args.now (rule_numbers rule) }
    ensures { RuleFits entries.entry args.now (rule_numbers rule) result }
{
    match rule {
        Rule::All(kind, result) => fit_all(entries, args, kind, result),
        Rule::Fixed(kinds, result) => fit_fixed(entries, args, kinds, result),
        Rule::Numbers(_, result) => fit_numbers(entries, args, result),
        Rule::Equal => fit_equal(entries, args),
        Rule::Choose => fit_choose(entries, args),
        Rule::Select | Rule::Store => fit_array(entries, args),
        Rule::Vectors(_, result) => fit_vectors(entries, args, result),
        Rule::Concat => fit_concat(entries, args),
        Rule::Sets(rule) => fit_sets(entries, rule, args),
    }
}

// Whether the first argument is no Par; true where there is none.
pub fn first_value(entries: Entries<'_>, args: &Args<'_>) -> bool
    requires { ArgsAsk entries.records.now entries.places.now args.now.bytes.now args.now.count }
    ensures { FirstHas entries.entry.records.now entries.entry.places.now args.now.bytes.now args.now.count result }
{
    let first = Span {
        count: args.count.min(1),
        ..args.span()
    };
    all_values(entries, args.bytes, first)
}

// Whether none of the arguments is a Par, as far as the fit does not find one out by itself: true for a rule that takes no Par at
// all; of the first argument for Equal, Member and Insert, where the others are to be equal to it or the set of it; else of all.
#[tactic(auto, using(crate::proofs::ValueLaws::taken_tested, crate::proofs::ValueLaws::vectors_take, crate::proofs::ValueLaws::equal_tested, crate::proofs::ValueLaws::member_tested, crate::proofs::ValueLaws::insert_tested))]
pub fn values_for(entries: Entries<'_>, rule: Rule, args: &Args<'_>) -> bool
    requires { ArgsAsk entries.records.now entries.places.now args.now.bytes.now args.now.count }
    ensures { ValuesFor entries.entry args.now (rule_numbers rule) result }
{
    match rule {
        Rule::All(_, _)
        | Rule::Fixed(_, _)
        | Rule::Numbers(_, _)
        | Rule::Vectors(_, _)
        | Rule::Concat
        | Rule::Sets(
            SetRule::Alike(_, _)
            | SetRule::Closure
            | SetRule::Transpose
            | SetRule::Join
            | SetRule::Product,
        ) => true,
        Rule::Equal | Rule::Sets(SetRule::Member | SetRule::Insert) => first_value(entries, args),
        _ => all_values(entries, args.bytes, args.span()),
    }
}

// The answer of a fit: its sort, which `near` may be the number of, made where it is not in the store.
pub fn delivered_fit(store: &mut Store<'_>, made: Fit, args: &mut Args<'_>, near: usize) -> Row
    requires { DeliverFitAsked store.old made args.old }
    ensures same { Same store.old store.new }
    ensures same_args { SameArgs args.old args.new }
    ensures answer { Answered store.old (fit_verdict (store_in store.old) (args_in store.old args.old) made) store.new result }
{
    match made {
        Fit::Known(k) => Ok(k),
        Fit::Plain(kind) => leaf(store, kind, near),
        Fit::Width(width) => bit_vector(store, width, near),
        Fit::Gathered(family) => gathered(store, family, args, near),
    }
}

// The checked sort of the operator: NoRank without a rule, Count where the rule has another count of arguments, Misfit where
// an argument is a Par or the rule does not fit. The arguments may be used up by what is made of them; `near` may be the answer, and is looked at first.
pub fn checked_operator(store: &mut Store<'_>, op: usize, args: &mut Args<'_>, near: usize) -> Row
    requires { ArgumentsAsk store.old args.old }
    ensures same { Same store.old store.new }
    ensures same_args { SameArgs args.old args.new }
    ensures answer { Answered store.old (operated smt_lib op (args_in store.old args.old)) store.new result }
{
    let rule = rule_of(op).ok_or(Cause::NoRank)?;
    if !counts(rule, args.count) {
        return Err(Cause::Count);
    }
    let entries = store.entries();
    if !values_for(entries, rule, args) {
        return Err(Cause::Misfit);
    }
    let made = fit_rule(entries, rule, args).ok_or(Cause::Misfit)?;
    delivered_fit(store, made, args, near)
}
