// The pages of a sheet as text in a lent buffer: the sheet is judged over buffers of the program's lengths, and whole lines are written
// from a line's number on, as many as fit.
#![tactic(auto)]

ghost use Rattle.std.specs.Prelude.{◌*◌};
ghost use Rattle.verdicts.specs.Judge.{Accepted};
ghost use Rattle.page_text.specs.PageText.{PageTextIs, KnownAsk, KnownIs};
ghost use Rattle.page_text.specs.Words.{PagesAsked, PageSizesAsked, PageSized};

use page_lines::paged::{PagedRows, Windows};
use page_lines::pages::show_pages;
use page_lines::rows::WINDOW_ROOM;
use page_window::sort_sizes;
use printout::kinds::question_kinds;
use printout::lines::row_of;
use printout::whole::Piece;
use printout_text::judged::JudgedSheet;
use printout_text::refused_line;
use record::limits::{LONGEST_SHEET, MOST_QUESTIONS, MOST_SORTS, ROWS};
use verdicts::judge;

// One more than the greatest number of a sort that the rows of so many terms name; 0 where they name none.
fn known_sorts(rows: &[u32], terms: usize) -> usize
    requires { KnownAsk rows.now terms }
    ensures { KnownIs rows.now (2 * terms) result }
{
    let mut most = 0;
    for code in &rows[..2 * terms] {
        if let Ok(k) = row_of(*code) {
            most = most.max(k + 1);
        }
    }
    most
}

// How many terms an accepted sheet has that was judged; the sizes of the texts of the sorts that their rows name are written into `sizes`.
pub fn page_sizes(sheet: &JudgedSheet<'_>, sizes: &mut [u32]) -> usize
    requires { PageSizesAsked sheet.now sizes.old }
    ensures { PageSized sheet.now sizes.new result }
{
    let mut kinds = [0u8; MOST_QUESTIONS];
    let terms = question_kinds(sheet.bytes, &mut kinds).terms;
    let many = known_sorts(sheet.rows, terms);
    sort_sizes(sheet.entries, many, sizes);
    terms
}

// Writes the lines of the pages from the number `from` on of a sheet that was accepted and judged, as many as fit; where they have no such
// line nothing is written, and the next line is `from`.
fn accepted_pages(sheet: &JudgedSheet<'_>, from: usize, out: &mut [u8]) -> Piece
    requires { PagesAsked sheet.now Accepted }
    ensures { PageTextIs sheet.now.bytes.now from out.old out.new result }
{
    let mut sizes = [0u32; MOST_SORTS];
    let terms = page_sizes(sheet, &mut sizes);
    let mut stack = [0u32; MOST_SORTS];
    let mut one = [0u8; WINDOW_ROOM];
    let mut two = [0u8; WINDOW_ROOM];
    let page = PagedRows::new(sheet.entries, &sizes, sheet.rows, terms);
    let mut windows = Windows {
        stack: &mut stack,
        one: &mut one,
        two: &mut two,
    };
    show_pages(&page, from, &mut windows, out)
}

// THE PAGES OF A SHEET: judges it over buffers of its own, of the program's lengths, and writes the whole lines of its pages from the
// number `from` on into `out`, from its start on, as many as fit; what lies behind them is as it was. The number of the next line, and
// the place behind what was written. A refused sheet has the one line `!n`; where there is no line `from`, nothing is written, and the
// next line is `from`.
pub fn pages(sheet: &[u8], from: usize, out: &mut [u8]) -> Piece
    ensures { PageTextIs sheet.now from out.old out.new result }
{
    let mut records = [0u8; LONGEST_SHEET];
    let mut places = [0u32; MOST_SORTS];
    let mut rows = [0u32; ROWS];
    let mut answers = [0u32; MOST_QUESTIONS];
    match judge(sheet, &mut records, &mut places, &mut rows, &mut answers) {
        Ok(()) => {
            let judged = JudgedSheet::new(sheet, &records, &places, &rows, &answers);
            accepted_pages(&judged, from, out)
        }
        Err(e) => refused_line(e, from, out),
    }
}
