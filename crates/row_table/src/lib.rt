// The rows: each term in order gets its inferred row, then its checked row, both over one store.
#![tactic(auto)]

pub mod guesses;

ghost use Rattle.std.specs.Prelude.{◌≡◌, ◌≤◌, length};
ghost use Rattle.store.specs.Changes.{Same};
ghost use Rattle.row_answer.specs.Args.{SameArgs};
ghost use Rattle.matching_tables.specs.Names.{SameNames};
ghost use Rattle.row_table.specs.Words.{BothAsked, BothWritten, TurnAsked, TurnWritten, RowsAsked, RowsWritten};
ghost use Rattle.row_memo.specs.Words.{PastTrue};
ghost use Rattle.row_slots.specs.Slots.{SamePast};

use guesses::{GUESSES, guess_at};
use matching_tables::names::Names;
use reader::{Cursor, TermRecord};
use record::limits::{LONGEST_RECORD, NAMES, REFUSED};
use row_answer::arguments::Args;
use row_answer::{ANEW, code};
use row_memo::{Checked, Inferred, row};
use row_slots::{Past, TABLE};
use sheet::ReadSheet;
use store::Store;

// Writes both rows of the term `t`, which has this record, at 2 t: the inferred one, for which the guess is looked at first, then the
// checked one over the store after it, which is mostly the same number, and is looked for there first.
// `args` is used up; `past` notes what Apps were found to be, and `guesses` what was found last; all three as of each below.
pub fn rows_of(
    store: &mut Store<'_>,
    names: &mut Names<'_>,
    sheet: &ReadSheet<'_>,
    rows: &mut [u32],
    term: TermRecord,
    t: usize,
    args: &mut Args<'_>,
    past: &mut Past<'_>,
    guesses: &mut [u16],
)
    requires asked { BothAsked store.old names.old sheet.now rows.old term t }
    requires room { 259 ≤ length args.old.bytes.now }
    requires past { PastTrue store.old past.old }
    requires guesses { length guesses.old ≡ 512 }
    ensures same { Same store.old store.new }
    ensures names { SameNames names.old names.new }
    ensures rows { BothWritten store.old names.old sheet.now rows.old term t store.new names.new rows.new }
    ensures args { SameArgs args.old args.new }
    ensures past { PastTrue store.new past.new }
    ensures same_past { SamePast past.old past.new }
    ensures guesses { length guesses.new ≡ length guesses.old }
{
    let place = guess_at(sheet.bytes, rows, term);
    let guess = usize::from(guesses[place]);
    let inferred = row::<Inferred>(store, names, sheet, rows, term, args, past, guess);
    let near = inferred.unwrap_or(ANEW);
    let checked = row::<Checked>(store, names, sheet, rows, term, args, past, near);
    guesses[place] = (near % REFUSED) as u16;
    rows[2 * t] = code(inferred);
    rows[2 * t + 1] = code(checked);
}

// Both rows of the term `t` of the sheet, whose record is read again at its place.
pub fn term_rows(
    store: &mut Store<'_>,
    names: &mut Names<'_>,
    sheet: &ReadSheet<'_>,
    rows: &mut [u32],
    t: usize,
    args: &mut Args<'_>,
    past: &mut Past<'_>,
    guesses: &mut [u16],
)
    requires asked { TurnAsked store.old names.old sheet.now rows.old t }
    requires room { 259 ≤ length args.old.bytes.now }
    requires past { PastTrue store.old past.old }
    requires guesses { length guesses.old ≡ 512 }
    ensures same { Same store.old store.new }
    ensures names { SameNames names.old names.new }
    ensures rows { TurnWritten store.old names.old sheet.now rows.old t store.new names.new rows.new }
    ensures args { SameArgs args.old args.new }
    ensures past { PastTrue store.new past.new }
    ensures same_past { SamePast past.old past.new }
    ensures guesses { length guesses.new ≡ length guesses.old }
{
    let cursor = Cursor {
        at: sheet.starts[t] as usize,
    };
    let term = cursor.term_again(sheet.bytes);
    rows_of(store, names, sheet, rows, term, t, args, past, guesses);
}

// Writes both rows of each of the first `terms` terms of the sheet into `rows`.
pub fn rows_past(
    store: &mut Store<'_>,
    names: &mut Names<'_>,
    sheet: &ReadSheet<'_>,
    terms: usize,
    rows: &mut [u32],
    args: &mut Args<'_>,
    past: &mut Past<'_>,
    guesses: &mut [u16],
)
    requires asked { RowsAsked store.old names.old sheet.now terms rows.old }
    requires room { 259 ≤ length args.old.bytes.now }
    requires past { PastTrue store.old past.old }
    requires guesses { length guesses.old ≡ 512 }
    ensures same { Same store.old store.new }
    ensures names { SameNames names.old names.new }
    ensures rows { RowsWritten store.old names.old sheet.now terms rows.old store.new names.new rows.new }
    ensures args { SameArgs args.old args.new }
    ensures past { PastTrue store.new past.new }
    ensures same_past { SamePast past.old past.new }
    ensures guesses { length guesses.new ≡ length guesses.old }
{
    for t in 0..terms {
        term_rows(store, names, sheet, rows, t, args, past, guesses);
    }
}

// The same over a table of its own for what Apps were found to be: it is long only where the tables of names are, since else no head
// is known to be a Par.
pub fn rows_all(
    store: &mut Store<'_>,
    names: &mut Names<'_>,
    sheet: &ReadSheet<'_>,
    terms: usize,
    rows: &mut [u32],
)
    requires { RowsAsked store.old names.old sheet.now terms rows.old }
    ensures same { Same store.old store.new }
    ensures names { SameNames names.old names.new }
    ensures rows { RowsWritten store.old names.old sheet.now terms rows.old store.new names.new rows.new }
{
    let mut buffer = [0u8; LONGEST_RECORD];
    let mut args = Args {
        bytes: &mut buffer,
        count: 0,
    };
    let mut guesses = [0u16; GUESSES];
    if names.params.len() < NAMES {
        let mut bytes = [0u8; 1];
        let mut past = Past { bytes: &mut bytes };
        rows_past(
            store,
            names,
            sheet,
            terms,
            rows,
            &mut args,
            &mut past,
            &mut guesses,
        );
    } else {
        let mut bytes = [0u8; TABLE];
        let mut past = Past { bytes: &mut bytes };
        rows_past(
            store,
            names,
            sheet,
            terms,
            rows,
            &mut args,
            &mut past,
            &mut guesses,
        );
    }
}
