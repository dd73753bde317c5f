// The checked sort of an indexed operator: its index terms are named on the sheet.
ghost use Rattle.std.specs.Prelude.{◌≡◌, ◌<◌, ◌||◌, not, eqb};
ghost use Rattle.record.specs.Kinds.{sort_number, param_number};
ghost use Rattle.store.specs.Changes.{Same};
ghost use Rattle.store.specs.Words.{sort_in};
ghost use Rattle.check_rules.specs.Checked.{indexed₁, indexed₂, indexing};
ghost use Rattle.row_answer.specs.Answer.{Answered};
ghost use Rattle.row_answer.specs.Arguments.{ConstantsAsk};
ghost use Rattle.row_answer.specs.Words.{args_in, constants};
ghost use Rattle.check_row.specs.Indexed.{IndicesAre, kept_as, widened_verdict, indexed_with};
ghost use Rattle.check_row.specs.Words.{OneIndexAsked, CheckIndexedAsked, IndexingAsked};

use record::kinds::{ParamOp, SortKind};
use record::span::Span;
use row_answer::arguments::{Args, index_at};
use row_answer::bit_vector;
use row_rules::{Cause, Row};
use sheet::ReadSheet;
use store::Store;

// The indices of an indexed operator.
#[derive(Clone, Copy, Debug, PartialEq, Eq)]
pub enum Indices {
    One(usize),
    Two(usize, usize),
}

// The index terms where they are one or two integer constants; else None.
pub fn indices_of(sheet: &ReadSheet<'_>, second: Span) -> Option<Indices>
    requires { ConstantsAsk sheet.now.bytes.now sheet.now.starts.now second.at second.count }
    ensures { IndicesAre sheet.now.bytes.now sheet.now.starts.now second.at second.count result }
{
    match second.count {
        1 => Some(Indices::One(index_at(sheet, second, 0)?)),
        2 => {
            let first = index_at(sheet, second, 0)?;
            let last = index_at(sheet, second, 1)?;
            Some(Indices::Two(first, last))
        }
        _ => None,
    }
}

// The argument a itself where its kind is the one wanted, else Misfit.
pub fn kept(a: usize, kind: SortKind, wanted: SortKind) -> Row
    ensures { result ≡ kept_as a (sort_number kind) (sort_number wanted) }
{
    if kind != wanted {
        return Err(Cause::Misfit);
    }
    Ok(a)
}

// The vector of this width where the argument's kind is the one wanted, else Misfit.
pub fn widened(
    store: &mut Store<'_>,
    kind: SortKind,
    wanted: SortKind,
    width: usize,
    near: usize,
) -> Row
    ensures same { Same store.old store.new }
    ensures answer { Answered store.old (widened_verdict (sort_number kind) (sort_number wanted) width) store.new result }
{
    if kind != wanted {
        return Err(Cause::Misfit);
    }
    bit_vector(store, width, near)
}

// One index i at the argument a; Count for an operator with two, and where i is 0 for Repeat and IntToBv; Misfit where the
// argument is of another kind.
pub fn with_one(store: &mut Store<'_>, op: ParamOp, i: usize, a: usize, near: usize) -> Row
    requires { OneIndexAsked store.old i a }
    ensures same { Same store.old store.new }
    ensures answer { Answered store.old (indexed₁ (param_number op) i (sort_in store.old a)) store.new result }
{
    let e = store.entry(a);
    match op {
        ParamOp::ZeroExtend | ParamOp::SignExtend => {
            widened(store, e.kind, SortKind::BitVec, e.number + i, near)
        }
        ParamOp::RotateLeft | ParamOp::RotateRight => kept(a, e.kind, SortKind::BitVec),
        ParamOp::RePower => kept(a, e.kind, SortKind::RegLan),
        ParamOp::Repeat if i != 0 => widened(store, e.kind, SortKind::BitVec, i * e.number, near),
        ParamOp::IntToBv if i != 0 => widened(store, e.kind, SortKind::Int, i, near),
        _ => Err(Cause::Count),
    }
}

// Extract i, j at the argument a: Count unless j <= i and, of a vector, i under its width; Misfit where it is no vector.
pub fn checked_extract(store: &mut Store<'_>, i: usize, j: usize, a: usize, near: usize) -> Row
    requires { a < store.old.count }
    ensures same { Same store.old store.new }
    ensures answer { Answered store.old (indexed₂ 0 i j (sort_in store.old a)) store.new result }
{
    let e = store.entry(a);
    if i < j {
        return Err(Cause::Count);
    }
    if e.kind != SortKind::BitVec {
        return Err(Cause::Misfit);
    }
    if e.number <= i {
        return Err(Cause::Count);
    }
    bit_vector(store, i - j + 1, near)
}

// Two indices i, j at the argument a, for Extract and ReLoop; Count for another operator.
pub fn with_two(
    store: &mut Store<'_>,
    op: ParamOp,
    i: usize,
    j: usize,
    a: usize,
    near: usize,
) -> Row
    requires { a < store.old.count }
    ensures same { Same store.old store.new }
    ensures answer { Answered store.old (indexed₂ (param_number op) i j (sort_in store.old a)) store.new result }
{
    match op {
        ParamOp::Extract => checked_extract(store, i, j, a, near),
        ParamOp::ReLoop => kept(a, store.entry(a).kind, SortKind::RegLan),
        _ => Err(Cause::Count),
    }
}

// The indices at the argument a: two for Extract and ReLoop, one for the others; Count where they are not so.
pub fn indexed_by(
    store: &mut Store<'_>,
    op: ParamOp,
    indices: Indices,
    a: usize,
    near: usize,
) -> Row
    requires { CheckIndexedAsked store.old indices a }
    ensures same { Same store.old store.new }
    ensures answer { Answered store.old (indexed_with (param_number op) indices (sort_in store.old a)) store.new result }
{
    match indices {
        Indices::One(i) => with_one(store, op, i, a, near),
        Indices::Two(i, j) => with_two(store, op, i, j, a, near),
    }
}

// Whether the operator has ranks: not BitOf, IntOf and BvConst.
fn has_ranks(op: ParamOp) -> bool
    ensures { result ≡ not (eqb (param_number op) 1 || eqb (param_number op) 2 || eqb (param_number op) 8) }
{
    !matches!(op, ParamOp::BitOf | ParamOp::IntOf | ParamOp::BvConst)
}

// The checked sort of the indexed operator, whose index terms the sheet names in `second`: NoRank for BitOf, IntOf and BvConst;
// Count unless it has one argument, and for a number that is no operator's.
pub fn checked_indexed(
    store: &mut Store<'_>,
    sheet: &ReadSheet<'_>,
    second: Span,
    op: usize,
    args: &Args<'_>,
    near: usize,
) -> Row
    requires { IndexingAsked store.old sheet.now second args.now }
    ensures same { Same store.old store.new }
    ensures answer { Answered store.old (indexing op (constants sheet.now second) (args_in store.old args.now)) store.new result }
{
    let op = ParamOp::try_from(op).map_err(|_| Cause::Count)?;
    if !has_ranks(op) {
        return Err(Cause::NoRank);
    }
    if args.count != 1 {
        return Err(Cause::Count);
    }
    let indices = indices_of(sheet, second).ok_or(Cause::Count)?;
    indexed_by(store, op, indices, args.number(0), near)
}
