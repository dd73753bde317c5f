// The kinds of a sheet's questions: the answers to the kind Compatible are printed as yes and no.
ghost use Rattle.std.specs.Prelude.{◌≤◌, length};
ghost use Rattle.printout.specs.Kinds.{PutKindsAsk, KindsPut, KindsAre};

use record::limits::{
    LONGEST_RECORD, LONGEST_SHEET, MOST_QUESTIONS, MOST_SORT_RECORDS, MOST_SORTS, MOST_TERMS, ROWS,
};
use sheet::read_sheet;
use sheet::tables::SheetTables;
use store::slots::INDEX_LENGTH;

// How many terms and questions a sheet has.
#[derive(Clone, Copy, Debug, PartialEq, Eq)]
pub struct Totals {
    pub terms: usize,
    pub questions: usize,
}

// Writes the kinds of the first `many` questions, whose records stand at the places `asked`, into `kinds`.
fn put_kinds(sheet: &[u8], asked: &[u16], many: usize, kinds: &mut [u8])
    requires { PutKindsAsk sheet.now asked.now many kinds.old }
    ensures { KindsPut sheet.now asked.now many kinds.old kinds.new }
{
    for (q, at) in asked[..many].iter().enumerate() {
        kinds[q] = sheet[usize::from(*at) + 1];
    }
}

// Writes the kinds of the questions of a sheet into `kinds`, which has room for 1,024; how many terms and questions it has, none
// where it is refused. The sheet is read once more, into buffers of the program's lengths.
#[inline(never)]
pub fn question_kinds(sheet: &[u8], kinds: &mut [u8]) -> Totals
    requires { 1024 ≤ length kinds.old }
    ensures { KindsAre sheet.now kinds.old kinds.new result }
{
    let mut records = [0u8; LONGEST_SHEET];
    let mut places = [0u32; MOST_SORTS];
    let mut index = [0u16; INDEX_LENGTH];
    let mut asked = [0u16; MOST_QUESTIONS];
    let mut tables = SheetTables {
        table: &mut [0u16; MOST_SORT_RECORDS],
        terms: &mut [0u16; MOST_TERMS],
        questions: &mut asked,
        scratch: &mut [0u8; LONGEST_RECORD],
    };
    let read = read_sheet(
        sheet,
        &mut records,
        &mut places,
        ROWS,
        MOST_QUESTIONS,
        &mut index,
        &mut tables,
    );
    match read {
        Ok(counts) => {
            put_kinds(sheet, &asked, counts.questions, kinds);
            Totals {
                terms: counts.terms,
                questions: counts.questions,
            }
        }
        Err(_) => Totals {
            terms: 0,
            questions: 0,
        },
    }
}
