// The pages of a judged sheet printed to an output: their lines are gathered in a buffer of its own, and written piece by piece.
#![tactic(auto)]

ghost use Rattle.judge_rules.specs.Judged.{judged};
ghost use Rattle.verdicts.specs.Judge.{Accepted};
ghost use Rattle.printout.specs.Printed.{program_lengths};
ghost use Rattle.page.specs.Page.{paged};
ghost use Rattle.page_text.specs.Words.{PagesAsked};
ghost use Rattle.written.specs.Written.{on_pages, PagedIs, TextAdded};
ghost use Rattle.page_write.specs.Words.{PageLinesAsked};

use page_lines::line::LINE;
use page_lines::paged::{PagedRows, Windows};
use page_lines::pages::show_pages;
use page_lines::rows::WINDOW_ROOM;
use page_text::page_sizes;
use printout::whole::Piece;
use printout_text::judged::JudgedSheet;
use reader::Refusal;
use record::limits::MOST_SORTS;
use std::io::Write;
use written::{Lines, Printer, Written, print_refusal, write_lines};

// The bytes of 2,048 lines.
const OUT_ROOM: usize = 2048 * LINE;

// The lines of an accepted sheet's pages from the number `next` on. Only the contracts read the sheet's bytes. Who has the text of some of
// them hands it over by `hand_lines`, which asks nothing of the other fields.
#[derive(Drop)]
pub struct PageLines<'a, 'w> {
    pub bytes: &'a [u8],
    pub page: PagedRows<'a>,
    pub windows: Windows<'w>,
    pub next: usize,
}

impl Lines for PageLines<'_, '_> {
    ghost layout = { on_pages };

    ghost sheet = { λ l. l.bytes.now };

    ghost next = { λ l. l.next };

    ghost can_show = { λ l. PageLinesAsked l.bytes.now l.page };

    fn show(&mut self, out: &mut [u8]) -> Piece {
        let piece = show_pages(&self.page, self.next, &mut self.windows, out);
        self.next = piece.next;
        piece
    }
}

// Writes the pages of an accepted sheet by way of buffers of its own. All lines are written, and their bytes stand behind what the output
// held; or a write failed, and then fewer.
fn print_accepted<W: Write>(output: &mut W, sheet: &JudgedSheet<'_>) -> Written
    requires { PagesAsked sheet.now Accepted }
    ensures lines { PagedIs (judged sheet.now.bytes.now program_lengths) result }
    ensures bytes { TextAdded (W.contents output.old) (W.contents output.new) (paged (judged sheet.now.bytes.now program_lengths)) result }
{
    let mut sizes = [0u32; MOST_SORTS];
    let mut stack = [0u32; MOST_SORTS];
    let mut one = [0u8; WINDOW_ROOM];
    let mut two = [0u8; WINDOW_ROOM];
    let mut out = [0u8; OUT_ROOM];
    let terms = page_sizes(sheet, &mut sizes);
    let page = PagedRows::new(sheet.entries, &sizes, sheet.rows, terms);
    let windows = Windows {
        stack: &mut stack,
        one: &mut one,
        two: &mut two,
    };
    let mut lines = PageLines {
        bytes: sheet.bytes,
        page,
        windows,
        next: 0,
    };
    write_lines(output, &mut lines, &mut out)
}

// The printer of pages.
#[derive(Clone, Copy, Debug, PartialEq, Eq)]
pub struct Pages;

impl Printer for Pages {
    ghost layout = { on_pages };

    // Writes the pages of a sheet that was judged with this outcome. All their lines are written, the one of a refused sheet too, and
    // their bytes stand behind what the output held; or a write failed, and then fewer.
    fn print_judged<W: Write>(
        &self,
        output: &mut W,
        sheet: &JudgedSheet<'_>,
        outcome: Result<(), Refusal>,
    ) -> Written
        requires { PagesAsked sheet.now outcome }
        ensures lines { PagedIs (judged sheet.now.bytes.now program_lengths) result }
        ensures bytes { TextAdded (W.contents output.old) (W.contents output.new) (paged (judged sheet.now.bytes.now program_lengths)) result }
    {
        match outcome {
            Ok(()) => print_accepted(output, sheet),
            Err(e) => print_refusal(output, e),
        }
    }
}
