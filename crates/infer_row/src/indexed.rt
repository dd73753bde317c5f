// The inferred sort of an indexed operator, whose index terms the sheet names in `second`.
ghost use Rattle.std.specs.Prelude.{◌≡◌, ◌≤◌, ◌∷◌, ℕ};
ghost use Rattle.std.proofs.Math.Option.{some};
ghost use Rattle.record.specs.Kinds.{param_number};
ghost use Rattle.store.specs.Changes.{Same};
ghost use Rattle.infer_rules.specs.Inferred.{extracted, resized_of, indexed};
ghost use Rattle.row_answer.specs.Answer.{Answered};
ghost use Rattle.infer_operator.specs.Asks.{ArgumentsAsk, arguments};
ghost use Rattle.infer_row.specs.Indexed.{indices, others, ExtractAsks, InferIndexedAsks, FirstAsks, GivenAsks};

use infer_operator::single::argument;
use record::kinds::{ParamOp, SortKind};
use record::span::Span;
use row_answer::arguments::{Args, index_at};
use row_answer::{bit_vector, leaf};
use row_rules::{Cause, Row};
use sheet::ReadSheet;
use store::Store;

// BvExtract's width from its second index and the first, i; ParamBitVec where it is no integer; Panics where it is missing or
// over i.
#[tactic(auto, unfolding(record::specs::Record::map_of, record::specs::Record::maps))]
pub fn inferred_extract(
    store: &mut Store<'_>,
    sheet: &ReadSheet<'_>,
    second: Span,
    i: usize,
    near: usize,
) -> Row
    requires { ExtractAsks sheet.now second i }
    ensures same { Same store.old store.new }
    ensures answer { Answered store.old (extracted (some i ∷ others sheet.now second)) store.new result }
{
    if second.count < 2 {
        return Err(Cause::Panics);
    }
    match index_at(sheet, second, 1) {
        Some(j) if i < j => Err(Cause::Panics),
        Some(j) => bit_vector(store, i - j + 1, near),
        None => leaf(store, SortKind::ParamBitVec, near),
    }
}

// The vector whose width is what `resize` makes of the first argument's width; ParamBitVec where that is unknown; Panics where it
// is no vector, or missing.
#[tactic(auto, unfolding(record::specs::Record::map_of, record::specs::Record::maps))]
pub fn resized<F: FnOnce(usize) -> usize>(
    store: &mut Store<'_>,
    args: &Args<'_>,
    near: usize,
    resize: F,
) -> Row
    requires asked { ArgumentsAsk store.old args.now }
    requires callable { (w : ℕ) → w ≤ 65535 → F.pre resize w }
    ensures same { Same store.old store.new }
    ensures answer { (f : ℕ → ℕ) → ((w r : ℕ) → F.post resize w r → r ≡ f w) → Answered store.old (resized_of f (arguments store.old args.now)) store.new result }
{
    let k = argument(args, 0)?;
    let vector = store.entry(k);
    match vector.kind {
        SortKind::BitVec => bit_vector(store, resize(vector.number), near),
        SortKind::ParamBitVec => leaf(store, SortKind::ParamBitVec, near),
        _ => Err(Cause::Panics),
    }
}

// The operators that look at their first index, i: BvExtract, ZeroExtend, SignExtend, Repeat and IntToBv.
#[tactic(auto, unfolding(infer_rules::specs::Inferred::indexed))]
pub fn by_index(
    store: &mut Store<'_>,
    sheet: &ReadSheet<'_>,
    second: Span,
    op: ParamOp,
    args: &Args<'_>,
    i: usize,
    near: usize,
) -> Row
    requires { GivenAsks store.old sheet.now second op args.now i }
    ensures same { Same store.old store.new }
    ensures answer { Answered store.old (indexed (param_number op) (some i ∷ others sheet.now second) (arguments store.old args.now)) store.new result }
{
    match op {
        ParamOp::Extract => inferred_extract(store, sheet, second, i, near),
        ParamOp::ZeroExtend | ParamOp::SignExtend => resized(store, args, near, |w| i + w),
        ParamOp::Repeat => resized(store, args, near, |w| i * w),
        _ => bit_vector(store, i, near),
    }
}

// The same operators: Panics without an index, ParamBitVec where the first is no integer constant.
#[tactic(auto, unfolding(record::specs::Record::map_of, record::specs::Record::maps))]
pub fn first_index(
    store: &mut Store<'_>,
    sheet: &ReadSheet<'_>,
    second: Span,
    op: ParamOp,
    args: &Args<'_>,
    near: usize,
) -> Row
    requires { FirstAsks store.old sheet.now second op args.now }
    ensures same { Same store.old store.new }
    ensures answer { Answered store.old (indexed (param_number op) (indices sheet.now second) (arguments store.old args.now)) store.new result }
{
    if second.count == 0 {
        return Err(Cause::Panics);
    }
    match index_at(sheet, second, 0) {
        Some(i) => by_index(store, sheet, second, op, args, i, near),
        None => leaf(store, SortKind::ParamBitVec, near),
    }
}

// The inferred sort of the indexed operator with this number; Panics for BvConst, and for a number that is none's.
#[tactic(auto, unfolding(record::specs::Record::map_of, record::specs::Record::maps, infer_rules::specs::Inferred::indexed))]
pub fn inferred_indexed(
    store: &mut Store<'_>,
    sheet: &ReadSheet<'_>,
    second: Span,
    op: usize,
    args: &Args<'_>,
    near: usize,
) -> Row
    requires { InferIndexedAsks store.old sheet.now second args.now }
    ensures same { Same store.old store.new }
    ensures answer { Answered store.old (indexed op (indices sheet.now second) (arguments store.old args.now)) store.new result }
{
    let op = ParamOp::try_from(op).map_err(|_| Cause::Panics)?;
    match op {
        ParamOp::Extract
        | ParamOp::ZeroExtend
        | ParamOp::SignExtend
        | ParamOp::Repeat
        | ParamOp::IntToBv => first_index(store, sheet, second, op, args, near),
        ParamOp::BitOf => leaf(store, SortKind::Bool, near),
        ParamOp::IntOf => leaf(store, SortKind::Int, near),
        ParamOp::RotateLeft | ParamOp::RotateRight => argument(args, 0),
        ParamOp::RePower | ParamOp::ReLoop => leaf(store, SortKind::RegLan, near),
        ParamOp::BvConst => Err(Cause::Panics),
    }
}
