// Sheets whose judgement may look up a name: those with a Par among their sorts, or with questions. Only these are judged over
// tables of all names.
ghost use Rattle.record.specs.Decode.{Stored};
ghost use Rattle.store.specs.Changes.{Same};
ghost use Rattle.verdicts.specs.Named.{ParIn, UsesNames};
ghost use Rattle.verdicts.specs.Words.{AcceptedAsked, JudgedIn};

use matching_tables::names::Names;
use questions::all::answer_all;
use record::kinds::SortKind;
use record::limits::{MOST_BOUND, NAMES};
use row_table::rows_all;
use sheet::{ReadSheet, SheetCounts};
use store::Store;
use store::entries::Entries;

// Whether one of the store's `count` sorts is a Par.
pub fn has_par(entries: Entries<'_>, count: usize) -> bool
    requires { Stored entries.records.now entries.places.now count }
    ensures { ParIn entries.entry.records.now entries.entry.places.now count result }
{
    (0..count).any(|k| entries.kind(k) == SortKind::Par)
}

// Whether there are questions, or one of the store's `count` sorts is a Par.
pub fn uses_names(entries: Entries<'_>, count: usize, questions: usize) -> bool
    requires { Stored entries.records.now entries.places.now count }
    ensures { UsesNames entries.entry.records.now entries.entry.places.now count questions result }
{
    questions != 0 || has_par(entries, count)
}

// As `judge_accepted`, over tables of all names.
pub fn judge_named(
    store: &mut Store<'_>,
    sheet: &ReadSheet<'_>,
    counts: SheetCounts,
    asked: &[u16],
    rows: &mut [u32],
    answers: &mut [u32],
)
    requires { AcceptedAsked store.old sheet.now counts asked.now rows.old answers.old }
    ensures same { Same store.old store.new }
    ensures judged { JudgedIn store.old sheet.now rows.old answers.old store.new rows.new answers.new }
{
    let mut params = [0u16; NAMES];
    let mut images = [0u16; NAMES];
    let mut bound = [0u16; MOST_BOUND];
    let mut names = Names {
        params: &mut params,
        images: &mut images,
        bound: &mut bound,
        many: 0,
    };
    rows_all(store, &mut names, sheet, counts.terms, rows);
    answer_all(
        store,
        &mut names,
        sheet,
        &asked[..counts.questions],
        answers,
    );
}
