// Both rows of a term record. An App whose head is a Par is looked up first among those that were judged before: its verdict goes
// by the sorts of its head and its arguments alone, and what then had no room in the store has none now, since the store only grows.
// So its row, a sort or a refusal, is what an App of the same sorts was found to be. The table of those Apps is that of crate row_slots.
#![tactic(auto)]

ghost use Rattle.std.specs.Prelude.{◌≡◌, ℕ};
ghost use Rattle.row_answer.specs.Arguments.{column_number};
ghost use Rattle.row_answer.specs.Args.{SameArgs};
ghost use Rattle.row_slots.specs.Slots.{SamePast};
ghost use Rattle.store.specs.Changes.{Same};
ghost use Rattle.matching_tables.specs.Names.{SameNames};
ghost use Rattle.row_memo.specs.Words.{JudgeAsked, Judged, RowAsked, RowIs};

use check_row::check;
use infer_row::infer;
use matching_tables::names::Names;
use reader::TermRecord;
use record::kinds::TermKind;
use row_answer::arguments::{Args, Column};
use row_application::checked_app;
use row_parts::parts_judged;
use row_rules::Row;
use row_slots::{Look, Past, row_again};
use sheet::ReadSheet;
use store::Store;

// A column of the rows, and who judges a term anew for it.
pub trait Judge {
    // 0 the inferred one, 1 the checked one.
    ghost column: { ℕ };

    fn column() -> Column
        ensures { column_number result ≡ column };

    // The row of a record whose parts are gathered in `args`. `look` is what the look-up in `past` gave of it; `near` may
    // be the row, or any number.
    fn judge(
        store: &mut Store<'_>,
        names: &mut Names<'_>,
        sheet: &ReadSheet<'_>,
        term: TermRecord,
        args: &mut Args<'_>,
        past: &Past<'_>,
        look: Look,
        near: usize,
    ) -> Row
        requires { JudgeAsked store.old names.old sheet.now term args.old past.now look }
        ensures same { Same store.old store.new }
        ensures names { SameNames names.old names.new }
        ensures args { SameArgs args.old args.new }
        ensures row { Judged column store.old names.old sheet.now term args.old store.new names.new result };
}

// The inferred rows, which `infer` gives.
#[derive(Drop)]
pub struct Inferred;

impl Judge for Inferred {
    ghost column = { 0 };

    fn column() -> Column {
        Column::Inferred
    }

    fn judge(
        store: &mut Store<'_>,
        names: &mut Names<'_>,
        sheet: &ReadSheet<'_>,
        term: TermRecord,
        args: &mut Args<'_>,
        _past: &Past<'_>,
        _look: Look,
        near: usize,
    ) -> Row {
        infer(store, names, sheet, term, args, near)
    }
}

// The checked rows, which `checked_app` gives of an App and `check` of any other record. Where the inferred sort of the App is noted to
// have no room, its own is not made where it is the same.
#[derive(Drop)]
pub struct Checked;

impl Judge for Checked {
    ghost column = { 1 };

    fn column() -> Column {
        Column::Checked
    }

    fn judge(
        store: &mut Store<'_>,
        names: &mut Names<'_>,
        sheet: &ReadSheet<'_>,
        term: TermRecord,
        args: &mut Args<'_>,
        past: &Past<'_>,
        look: Look,
        near: usize,
    ) -> Row {
        if term.kind == TermKind::App {
            let crowded = past.lacks_room(look, args);
            return checked_app(store, names, args, crowded);
        }
        check(store, names, sheet, term, args, near)
    }
}

// The record's row in a column: Below where a term that it names has a refused one; what `past` has noted of it; or what is judged, and
// then `past` has it. `args` is used up; no name is listed or bound before and after.
pub fn row<J: Judge>(
    store: &mut Store<'_>,
    names: &mut Names<'_>,
    sheet: &ReadSheet<'_>,
    rows: &[u32],
    term: TermRecord,
    args: &mut Args<'_>,
    past: &mut Past<'_>,
    near: usize,
) -> Row
    requires { RowAsked J.column store.old names.old sheet.now rows.now term args.old past.old }
    ensures same { Same store.old store.new }
    ensures names { SameNames names.old names.new }
    ensures args { SameArgs args.old args.new }
    ensures past { SamePast past.old past.new }
    ensures row { RowIs J.column store.old names.old sheet.now rows.now term store.new names.new result past.new }
{
    let column = J::column();
    parts_judged(sheet.bytes, rows, column, term, args)?;
    let look = past.looked_up(store.entries(), term, args, column);
    if let Look::Noted(code) = look {
        return row_again(code);
    }
    let made = J::judge(store, names, sheet, term, args, past, look, near);
    past.row_noted(term.list.count, look, made);
    made
}
