// THE ENTRY POINT: a sheet judged into four lent buffers, by the definition `judged`. Here stand the judgement of a sheet over buffers
// that the caller lends, and the same for callers in other languages; named.rt has the judgement over tables of all names.
#![tactic(auto)]

pub mod named;

ghost use Rattle.store.specs.Changes.{Same};
ghost use Rattle.verdicts.specs.Judge.{lengths_of, JudgeIs, NumberIs, ClearedAsks};
ghost use Rattle.verdicts.specs.Words.{AcceptedAsked, JudgedIn};

use matching_tables::names::Names;
use named::{judge_named, uses_names};
use reader::Refusal;
use record::limits::{LONGEST_RECORD, MOST_QUESTIONS, MOST_SORT_RECORDS, MOST_TERMS};
use row_table::rows_all;
use sheet::tables::SheetTables;
use sheet::{ReadSheet, SheetCounts, read_sheet};
use store::Store;
use store::slots::INDEX_LENGTH;

// The rows of all terms of a sheet that was read, then the answers to its questions, over its store: at exit the four buffers
// are those of the judgement, which accepts the sheet. Where no name can be looked up, there are no questions either, and the
// rows are written over tables of one entry.
pub fn judge_accepted(
    store: &mut Store<'_>,
    sheet: &ReadSheet<'_>,
    counts: SheetCounts,
    asked: &[u16],
    rows: &mut [u32],
    answers: &mut [u32],
)
    requires { AcceptedAsked store.old sheet.now counts asked.now rows.old answers.old }
    ensures same { Same store.old store.new }
    ensures judged { JudgedIn store.old sheet.now rows.old answers.old store.new rows.new answers.new }
{
    let count = store.count;
    if uses_names(store.entries(), count, counts.questions) {
        return judge_named(store, sheet, counts, asked, rows, answers);
    }
    let mut names = Names {
        params: &mut [0u16; 1],
        images: &mut [0u16; 1],
        bound: &mut [0u16; 1],
        many: 0,
    };
    rows_all(store, &mut names, sheet, counts.terms, rows);
}

// Judges a sheet over rows and answers that are all zeros; `records` and `places` may hold anything. The outcome and the four
// buffers at exit are those of the judgement.
pub fn judge_cleared(
    sheet: &[u8],
    records: &mut [u8],
    places: &mut [u32],
    rows: &mut [u32],
    answers: &mut [u32],
) -> Result<(), Refusal>
    requires { ClearedAsks rows.old answers.old }
    ensures { JudgeIs sheet.now (lengths_of records.old places.old rows.old answers.old) records.new places.new rows.new answers.new result }
{
    let mut index = [0u16; INDEX_LENGTH];
    let mut table = [0u16; MOST_SORT_RECORDS];
    let mut starts = [0u16; MOST_TERMS];
    let mut asked = [0u16; MOST_QUESTIONS];
    let mut tables = SheetTables {
        table: &mut table,
        terms: &mut starts,
        questions: &mut asked,
        scratch: &mut [0u8; LONGEST_RECORD],
    };
    let read = read_sheet(
        sheet,
        records,
        places,
        rows.len(),
        answers.len(),
        &mut index,
        &mut tables,
    );
    match read {
        Ok(counts) => {
            let mut store = Store {
                records,
                places,
                index: &mut index,
                count: counts.count,
                used: counts.used,
            };
            let sheet = ReadSheet {
                bytes: sheet,
                sorts: counts.sorts,
                table: &table,
                starts: &starts,
            };
            judge_accepted(&mut store, &sheet, counts, &asked, rows, answers);
            Ok(())
        }
        Err(refusal) => {
            records.fill(0);
            places.fill(0);
            Err(refusal)
        }
    }
}

// JUDGES A SHEET into the four lent buffers, whatever their lengths and what they held. Accepted: the store's records and
// places, the rows of the terms and the answers to the questions, each with zeros behind. Refused: all four all zeros.
pub fn judge(
    sheet: &[u8],
    records: &mut [u8],
    places: &mut [u32],
    rows: &mut [u32],
    answers: &mut [u32],
) -> Result<(), Refusal>
    ensures { JudgeIs sheet.now (lengths_of records.old places.old rows.old answers.old) records.new places.new rows.new answers.new result }
{
    rows.fill(0);
    answers.fill(0);
    judge_cleared(sheet, records, places, rows, answers)
}

// The same for C and Rust, where each slice is a pointer and a length: 0 for an accepted sheet, else the number of the refusal.
#[unsafe(no_mangle)]
pub extern "C" fn napsilo_judge(
    sheet: &[u8],
    records: &mut [u8],
    places: &mut [u32],
    rows: &mut [u32],
    answers: &mut [u32],
) -> u32
    ensures { NumberIs sheet.now (lengths_of records.old places.old rows.old answers.old) records.new places.new rows.new answers.new result }
{
    judge(sheet, records, places, rows, answers).map_or_else(u32::from, |()| 0)
}
