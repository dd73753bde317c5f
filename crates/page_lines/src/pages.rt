// The pages of a judged sheet: the lines of its rows, then the lines of blanks that fill the last page, as many as fit a lent buffer.
ghost use Rattle.std.specs.Prelude.{◌≡◌};
ghost use Rattle.page_lines.specs.Pages.{padding_of, BlanksIs};
ghost use Rattle.page_lines.specs.Words.{PageAsked, PageShown};

use super::heights::find_row;
use super::line::{LINE, put_blank_lines};
use super::paged::{PagedRows, Windows};
use super::rows::put_rows;
use printout::whole::Piece;
use printout_sort::buffer::TextBuffer;

// How many lines a page has.
const PAGE: usize = 60;

// How many lines of blanks fill the last page after so many lines.
fn padding_of(lines: usize) -> usize
    ensures { result ≡ padding_of lines }
{
    (PAGE - lines % PAGE) % PAGE
}

// How many lines of blanks come next, after so many lines and the first `done` lines of blanks: those left that fit `room` bytes.
fn blanks_next(lines: usize, done: usize, room: usize) -> usize
    ensures { BlanksIs lines done room result }
{
    padding_of(lines).saturating_sub(done).min(room / LINE)
}

// Writes the lines of the pages from the number `from` on, as many as fit the buffer, from its start on; the number of the next line, and
// the place behind what was written. Where the pages have no line `from`, nothing is written, and the next line is `from`.
pub fn show_pages(
    page: &PagedRows<'_>,
    from: usize,
    windows: &mut Windows<'_>,
    out: &mut [u8],
) -> Piece
    requires { PageAsked page.now }
    ensures { PageShown page.now from out.old out.new result }
{
    let mut text = TextBuffer { bytes: out, end: 0 };
    let start = find_row(page, from);
    let reached = put_rows(page, start, windows, &mut text);
    let next = from + text.end / LINE;
    if reached.row < page.terms {
        return Piece {
            next,
            end: text.end,
        };
    }
    let n = blanks_next(next - reached.line, reached.line, text.room());
    put_blank_lines(n, &mut text);
    Piece {
        next: next + n,
        end: text.end,
    }
}
