// The checked sort of a constant, a Var, a Let and an AsOp.
ghost use Rattle.std.specs.Prelude.{◌≡◌, ◌<◌};
ghost use Rattle.record.specs.Kinds.{term_number};
ghost use Rattle.store.specs.Changes.{Same};
ghost use Rattle.matching_tables.specs.Words.{sort_in};
ghost use Rattle.check_rules.specs.Checked.{carried, constant_array, qualified, whole_set};
ghost use Rattle.row_answer.specs.Answer.{Answered};
ghost use Rattle.check_operator.specs.Contract.{ArgsAsk};
ghost use Rattle.check_row.specs.Single.{Reads, constant_verdict, LetHas, QualifiedAsks, variable_verdict};
ghost use Rattle.check_row.specs.Words.{args_among};

use matching_each::premises::is_proper;
use record::kinds::{AsOp, SortKind, TermKind};
use row_answer::arguments::Args;
use row_answer::values::all_values;
use row_answer::{bit_vector, leaf};
use row_rules::{Cause, Row};
use store::Store;
use store::entries::{Entries, Sorts};

// A constant: the sort of an integer, real, string or RegLan constant, else that of a bit-vector constant, which is Barred with
// the width 0.
#[tactic(auto, unfolding(record::specs::Record::map_of, record::specs::Record::maps))]
pub fn checked_constant(store: &mut Store<'_>, kind: TermKind, number: usize, near: usize) -> Row
    ensures same { Same store.old store.new }
    ensures answer { Answered store.old (constant_verdict (term_number kind) number) store.new result }
{
    match kind {
        TermKind::Integer => leaf(store, SortKind::Int, near),
        TermKind::Real => leaf(store, SortKind::Real, near),
        TermKind::String => leaf(store, SortKind::String, near),
        TermKind::RegLan => leaf(store, SortKind::RegLan, near),
        _ if number == 0 => Err(Cause::Barred),
        _ => bit_vector(store, number, near),
    }
}

// Whether the sort k may be a Var's: no Type, ParamBitVec or BitVec 0 inside, and a Par only outermost, over a Function.
pub fn is_carried(sorts: &Sorts<'_>, k: usize) -> bool
    requires { k < sorts.now.count }
    ensures { result ≡ carried (sort_in sorts.now k) }
{
    if sorts.kind(k) != SortKind::Par {
        return is_proper(sorts, k);
    }
    let body = sorts.entry(k).parts.get(sorts.records, 0);
    sorts.kind(body) == SortKind::Function && is_proper(sorts, body)
}

// A Var of the sort k: that sort, or Barred.
pub fn checked_variable(sorts: &Sorts<'_>, k: usize) -> Row
    requires { k < sorts.now.count }
    ensures { Reads sorts.now (variable_verdict (sort_in sorts.now k)) result }
{
    if !is_carried(sorts, k) {
        return Err(Cause::Barred);
    }
    Ok(k)
}

// A Let of values and, last, its inner term: the inner one's sort; Count without a value; Misfit where one of them all is a Par.
pub fn checked_let(entries: Entries<'_>, args: &Args<'_>) -> Row
    requires { ArgsAsk entries.records.now entries.places.now args.now.bytes.now args.now.count }
    ensures { LetHas entries.entry.records.now entries.entry.places.now args.now.bytes.now args.now.count result }
{
    if args.count < 2 {
        return Err(Cause::Count);
    }
    if !all_values(entries, args.bytes, args.span()) {
        return Err(Cause::Misfit);
    }
    Ok(args.number(args.count - 1))
}

// An (as const) with the sort k: k, where it is an Array and the one argument is of its element sort; Count where there is not
// one argument, else Misfit.
fn as_const(sorts: &Sorts<'_>, k: usize, args: &Args<'_>) -> Row
    requires { QualifiedAsks sorts.now k args.now }
    ensures { Reads sorts.now (constant_array (sort_in sorts.now k) (args_among sorts.now args.now)) result }
{
    if args.count != 1 {
        return Err(Cause::Count);
    }
    if sorts.kind(k) != SortKind::Array {
        return Err(Cause::Misfit);
    }
    let element = sorts.entry(k).parts.get(sorts.records, 1);
    if args.number(0) != element {
        return Err(Cause::Misfit);
    }
    Ok(k)
}

// A SetEmpty or SetUniverse with the sort k: k, where it is a Set; Count where there is an argument, else Misfit.
fn as_set(sorts: &Sorts<'_>, k: usize, args: &Args<'_>) -> Row
    requires { QualifiedAsks sorts.now k args.now }
    ensures { Reads sorts.now (whole_set (sort_in sorts.now k) (args_among sorts.now args.now)) result }
{
    if args.count != 0 {
        return Err(Cause::Count);
    }
    if sorts.kind(k) != SortKind::Set {
        return Err(Cause::Misfit);
    }
    Ok(k)
}

// An AsOp with the sort k: NoRank for a number that no AsOp has, Barred where k is not proper, else k where its own rule takes k
// and the arguments, or the cause that this rule gives, Count or Misfit.
pub fn checked_as(sorts: &Sorts<'_>, number: usize, k: usize, args: &Args<'_>) -> Row
    requires { QualifiedAsks sorts.now k args.now }
    ensures { Reads sorts.now (qualified number (sort_in sorts.now k) (args_among sorts.now args.now)) result }
{
    let Ok(operator) = AsOp::try_from(number) else {
        return Err(Cause::NoRank);
    };
    if !is_proper(sorts, k) {
        return Err(Cause::Barred);
    }
    match operator {
        AsOp::Const => as_const(sorts, k, args),
        AsOp::SetEmpty | AsOp::SetUniverse => as_set(sorts, k, args),
    }
}
