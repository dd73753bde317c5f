// The lines of rows: each row's two texts stand in windows while some of its lines are written, so that no buffer holds a whole text.
ghost use Rattle.std.specs.Prelude.{◌≡◌, ◌≤◌, ◌<◌, ◌+◌, ◌*◌, length};
ghost use Rattle.printout_sort.specs.Buffer.{Same, Puts};
ghost use Rattle.printout.specs.Whole.{lines_from};
ghost use Rattle.page_window.specs.Window.{WindowIs};
ghost use Rattle.page_lines.specs.Rows.{window_line, seen, StretchIs, GoneOn};
ghost use Rattle.page_lines.specs.Words.{row_text_in, row_line_in, RowWindowAsked, RowLinesAsked, RowsAsked, RowsPut};

use super::heights::{Spot, row_height};
use super::line::{COLUMN, LINE, put_line};
use super::paged::{PagedRows, Windows};
use page_window::{Window, sort_window};
use printout::lines::{put_refusal, row_of};
use printout_sort::buffer::TextBuffer;

// How many lines of a row are written from one pair of windows at most.
const STRETCH: usize = 1024;

// How many bytes the buffer of a window has (`window_room`): the pieces of those lines, and what a window needs besides.
pub const WINDOW_ROOM: usize = 37776;

// Writes the text of a row from the byte `skip` on into `out`: `want` bytes at least, or up to its end; a refusal's text whole.
fn row_window(
    page: &PagedRows<'_>,
    code: u32,
    skip: usize,
    want: usize,
    stack: &mut [u32],
    out: &mut [u8],
) -> Window
    requires { RowWindowAsked page.now code want stack.old out.old }
    ensures { WindowIs (row_text_in page.now code) skip want out.new result }
{
    match row_of(code) {
        Ok(k) => sort_window(page.entries, page.sizes, k, skip, want, stack, out),
        Err(number) => {
            let mut text = TextBuffer { bytes: out, end: 0 };
            put_refusal(number, &mut text);
            Window {
                lead: skip,
                end: text.end,
            }
        }
    }
}

// Writes `n` lines of the row of `from`, from that line on; their pieces are the next ones of two texts.
fn window_lines(from: Spot, n: usize, first: &[u8], second: &[u8], out: &mut TextBuffer<'_>)
    requires few { from.row < 100000 }
    requires low { from.line + n ≤ 4294967296 }
    requires fits { out.old.end + 81 * n ≤ length out.old.bytes.now }
    ensures same { Same out.old out.new }
    ensures put { Puts out.old (lines_from (window_line from.row from.line first.now second.now) 0 n) out.new }
{
    let mut one = first;
    let mut two = second;
    for done in 0..n {
        let line = from.line + done;
        put_line(Spot { line, ..from }, one, two, out);
        one = &one[COLUMN.min(one.len())..];
        two = &two[COLUMN.min(two.len())..];
    }
}

// What stands in a window of these bytes; nothing where it ends before its lead.
fn seen(bytes: &[u8], window: Window) -> &[u8]
    requires { window.end ≤ length bytes.now }
    ensures { result.now ≡ seen bytes.now window }
{
    bytes.get(window.lead..window.end).unwrap_or(&[])
}

// Writes `n` lines of the row of `from`, from that line on.
fn row_lines(
    page: &PagedRows<'_>,
    from: Spot,
    n: usize,
    windows: &mut Windows<'_>,
    out: &mut TextBuffer<'_>,
)
    requires { RowLinesAsked page.now from n out.old }
    ensures same { Same out.old out.new }
    ensures put { Puts out.old (lines_from (row_line_in page.now from.row) from.line n) out.new }
{
    let skip = COLUMN * from.line;
    let want = COLUMN * n;
    let stack = &mut *windows.stack;
    let one = &mut *windows.one;
    let two = &mut *windows.two;
    let first = row_window(page, page.rows[2 * from.row], skip, want, stack, one);
    let second = row_window(page, page.rows[2 * from.row + 1], skip, want, stack, two);
    let left = seen(one, first);
    let right = seen(two, second);
    window_lines(from, n, left, right, out);
}

// How many lines of a row are written next, of those that are left of it: as many as fit `room` bytes and a pair of windows.
fn stretch(left: usize, room: usize) -> usize
    ensures { StretchIs left room result }
{
    left.min(room / LINE).min(STRETCH)
}

// The line `n` lines on from `at`, in a row of `high` lines: a line of the row, or the first of the next row.
fn gone_on(at: Spot, n: usize, high: usize) -> Spot
    requires few { at.row < 4096 }
    requires within { at.line + n ≤ high }
    ensures { GoneOn at.row (at.line + n) high result }
{
    let line = at.line + n;
    if line < high {
        return Spot { line, ..at };
    }
    Spot {
        row: at.row + 1,
        line: 0,
    }
}

// Writes the lines of the rows from a line on into an empty buffer, as many as fit; the line behind them.
pub fn put_rows(
    page: &PagedRows<'_>,
    from: Spot,
    windows: &mut Windows<'_>,
    out: &mut TextBuffer<'_>,
) -> Spot
    requires empty { out.old.end ≡ 0 }
    requires asks { RowsAsked page.now from }
    ensures same { Same out.old out.new }
    ensures reached { RowsPut page.now from out.old out.new result }
{
    let mut at = from;
    while at.row < page.terms {
        let high = row_height(page, at.row);
        let n = stretch(high - at.line, out.room());
        if n == 0 {
            break;
        }
        row_lines(page, at, n, windows, out);
        at = gone_on(at, n, high);
    }
    at
}
