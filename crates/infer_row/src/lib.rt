// The inferred sort of one record of any kind, over the sorts of its arguments. Each function returns the row; the store has the
// sorts that were made for it.
#![tactic(auto)]

pub mod binders;
pub mod indexed;

ghost use Rattle.store.specs.Changes.{Same};
ghost use Rattle.matching_tables.specs.Names.{SameNames};
ghost use Rattle.row_answer.specs.Args.{SameArgs};
ghost use Rattle.infer_row.specs.Terms.{PlainTermAsks, PlainTermIs, InferComposedAsks, ComposedIs, InferAsks, InferIs};

use binders::inferred_binder;
use indexed::inferred_indexed;
use infer_operator::op::inferred_operator;
use infer_operator::single::last_of;
use matching_tables::names::Names;
use reader::TermRecord;
use record::kinds::{SortKind, TermKind};
use row_answer::arguments::Args;
use row_answer::{bit_vector, leaf};
use row_application::inferred_app;
use row_rules::Row;
use sheet::ReadSheet;
use store::Store;

// A term whose sort needs no argument: a constant, Limit where the width of a bit vector is over 65,535; a Var and an AsOp have
// a sort of their own, which the sheet's table names in the store.
#[tactic(auto, unfolding(record::specs::Record::map_of, record::specs::Record::maps, infer_rules::specs::Inferred::inferred))]
pub fn inferred_plain(
    store: &mut Store<'_>,
    sheet: &ReadSheet<'_>,
    term: TermRecord,
    near: usize,
) -> Row
    requires { PlainTermAsks store.old sheet.now term }
    ensures same { Same store.old store.new }
    ensures answer { PlainTermIs store.old sheet.now term store.new result }
{
    match term.kind {
        TermKind::Integer => leaf(store, SortKind::Int, near),
        TermKind::Real => leaf(store, SortKind::Real, near),
        TermKind::String => leaf(store, SortKind::String, near),
        TermKind::RegLan => leaf(store, SortKind::RegLan, near),
        TermKind::BitVector => bit_vector(store, term.number, near),
        _ => Ok(sheet.table[term.sort] as usize),
    }
}

// A term by its arguments: an Op, a Binder or a ParamOp; a Let, the last one; a Match, the last body, Panics without one.
#[tactic(auto, unfolding(infer_rules::specs::Inferred::inferred))]
pub fn inferred_composed(
    store: &mut Store<'_>,
    sheet: &ReadSheet<'_>,
    term: TermRecord,
    args: &mut Args<'_>,
    near: usize,
) -> Row
    requires { InferComposedAsks store.old sheet.now term args.old }
    ensures same { Same store.old store.new }
    ensures same_args { SameArgs args.old args.new }
    ensures answer { ComposedIs store.old sheet.now term args.old store.new result }
{
    match term.kind {
        TermKind::Op => inferred_operator(store, sheet, term.list, term.number, args, near),
        TermKind::Binder => inferred_binder(store, sheet, term, args, near),
        TermKind::Let => last_of(args, 0),
        TermKind::Match => last_of(args, 1),
        _ => inferred_indexed(store, sheet, term.second, term.number, args, near),
    }
}

// The inferred sort of a record over the sorts of its arguments: for an App what remains of the head's sort; else as
// `inferred_composed` and `inferred_plain`, whose answer `near` may be. `args` is used up; the tables of names come back as they were.
pub fn infer(
    store: &mut Store<'_>,
    names: &mut Names<'_>,
    sheet: &ReadSheet<'_>,
    term: TermRecord,
    args: &mut Args<'_>,
    near: usize,
) -> Row
    requires { InferAsks store.old names.old sheet.now term args.old }
    ensures same { Same store.old store.new }
    ensures same_names { SameNames names.old names.new }
    ensures same_args { SameArgs args.old args.new }
    ensures answer { InferIs store.old names.old sheet.now term args.old store.new names.new result }
{
    match term.kind {
        TermKind::App => inferred_app(store, names, args),
        TermKind::Op | TermKind::Binder | TermKind::Let | TermKind::Match | TermKind::ParamOp =>
            inferred_composed(store, sheet, term, args, near),
        _ => inferred_plain(store, sheet, term, near),
    }
}
