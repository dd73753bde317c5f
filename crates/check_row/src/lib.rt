// The checked sort of one record of any kind, with its causes in the order 24, 28, 25, 26, 27, 22, 23.
#![tactic(auto)]

pub mod binder;
pub mod indexed;
pub mod single;

ghost use Rattle.store.specs.Changes.{Same};
ghost use Rattle.matching_tables.specs.Names.{SameNames};
ghost use Rattle.row_answer.specs.Args.{SameArgs};
ghost use Rattle.check_row.specs.Kinds.{CheckAsks, CheckIs};

use binder::checked_binder;
use check_operator::op::checked_operator;
use indexed::checked_indexed;
use matching_tables::names::Names;
use reader::TermRecord;
use record::kinds::TermKind;
use row_answer::arguments::Args;
use row_application::checked_app;
use row_rules::{Cause, Row};
use sheet::ReadSheet;
use single::{checked_as, checked_constant, checked_let, checked_variable};
use store::Store;

// The checked sort of a record whose arguments' sorts are in `args`, NoRank for a Match. `args` is used up; `near` may be
// the answer, and is looked at first where a sort is made; the tables of names come back as they were.
pub fn check(
    store: &mut Store<'_>,
    names: &mut Names<'_>,
    sheet: &ReadSheet<'_>,
    term: TermRecord,
    args: &mut Args<'_>,
    near: usize,
) -> Row
    requires { CheckAsks store.old names.old sheet.now term args.old }
    ensures same { Same store.old store.new }
    ensures same_names { SameNames names.old names.new }
    ensures same_args { SameArgs args.old args.new }
    ensures answer { CheckIs store.old names.old sheet.now term args.old store.new names.new result }
{
    match term.kind {
        TermKind::Integer
        | TermKind::Real
        | TermKind::String
        | TermKind::RegLan
        | TermKind::BitVector => checked_constant(store, term.kind, term.number, near),
        TermKind::Var => checked_variable(&store.sorts(), sheet.table[term.sort] as usize),
        TermKind::App => checked_app(store, names, args, false),
        TermKind::Op => checked_operator(store, term.number, args, near),
        TermKind::Binder => checked_binder(store, sheet, term.pairs, term.number, args, near),
        TermKind::Let => checked_let(store.entries(), args),
        TermKind::Match => Err(Cause::NoRank),
        TermKind::ParamOp => checked_indexed(store, sheet, term.second, term.number, args, near),
        TermKind::AsOp => {
            let k = sheet.table[term.sort] as usize;
            checked_as(&store.sorts(), term.number, k, args)
        }
    }
}
