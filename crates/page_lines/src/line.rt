// A line of a page: the number column, two columns of text, and the newline. Each `put_..` function writes where there is room.
ghost use Rattle.std.specs.Prelude.{◌++◌, ◌+◌, ◌*◌, ◌≤◌, ◌<◌, length, take};
ghost use Rattle.printout_sort.specs.Text.{ascii};
ghost use Rattle.printout_sort.specs.Buffer.{Puts, Same};
ghost use Rattle.printout.specs.Whole.{lines_from};
ghost use Rattle.page.specs.Page.{blanks, filled, line_of};
ghost use Rattle.page.specs.Numbered.{number_on, blank_line};
ghost use Rattle.page_lines.specs.Line.{LineRoom};

use super::heights::Spot;
use printout_sort::buffer::{TextBuffer, digits};

// A blank.
const BLANK: u8 = b' ';

// How wide the number column is.
const NUMBER: usize = 6;

// How wide a column of text is.
pub const COLUMN: usize = 36;

// How wide a line is, without its newline.
const WIDTH: usize = 80;

// How long a line is, with its newline.
pub const LINE: usize = 81;

// Writes `n` blanks.
pub fn put_blanks(n: usize, out: &mut TextBuffer<'_>)
    requires { out.old.end + n ≤ length out.old.bytes.now }
    ensures same { Same out.old out.new }
    ensures put { Puts out.old (blanks n) out.new }
{
    let end = out.end + n;
    out.bytes[out.end..end].fill(BLANK);
    out.end = end;
}

// Writes the number column of the line `at`: its row's number right-justified on the row's first line, blanks below.
pub fn put_number(at: Spot, out: &mut TextBuffer<'_>)
    requires { (at.row < 100000) × (out.old.end + 6 ≤ length out.old.bytes.now) }
    ensures same { Same out.old out.new }
    ensures put { Puts out.old (number_on at.row at.line) out.new }
{
    if at.line == 0 {
        put_blanks(NUMBER - digits(at.row), out);
        out.put_decimal(at.row);
    } else {
        put_blanks(NUMBER, out);
    }
}

// Writes a column: the bytes of `src`, at most a column of them, and blanks that fill it.
pub fn put_column(src: &[u8], out: &mut TextBuffer<'_>)
    requires { out.old.end + 36 ≤ length out.old.bytes.now }
    ensures same { Same out.old out.new }
    ensures put { Puts out.old (filled 36 (take 36 src.now)) out.new }
{
    let piece = &src[..COLUMN.min(src.len())];
    out.put(piece);
    put_blanks(COLUMN - piece.len(), out);
}

// Writes the line `at`: its number column, a blank, the column of `one`, a blank, the column of `two`, a newline.
pub fn put_line(at: Spot, one: &[u8], two: &[u8], out: &mut TextBuffer<'_>)
    requires { LineRoom at.row out.old.bytes.now out.old.end }
    ensures same { Same out.old out.new }
    ensures put { Puts out.old (line_of (number_on at.row at.line) (take 36 one.now) (take 36 two.now) ++ ascii "\n") out.new }
{
    put_number(at, out);
    out.put_byte(BLANK);
    put_column(one, out);
    out.put_byte(BLANK);
    put_column(two, out);
    out.put_byte(b'\n');
}

// Writes a line of blanks, with its newline.
fn put_blank_line(out: &mut TextBuffer<'_>)
    requires { out.old.end + 81 ≤ length out.old.bytes.now }
    ensures same { Same out.old out.new }
    ensures put { Puts out.old blank_line out.new }
{
    put_blanks(WIDTH, out);
    out.put_byte(b'\n');
}

// Writes `n` lines of blanks, each with its newline.
pub fn put_blank_lines(n: usize, out: &mut TextBuffer<'_>)
    requires { out.old.end + 81 * n ≤ length out.old.bytes.now }
    ensures same { Same out.old out.new }
    ensures put { Puts out.old (lines_from (λ k. blank_line) 0 n) out.new }
{
    for _i in 0..n {
        put_blank_line(out);
    }
}
