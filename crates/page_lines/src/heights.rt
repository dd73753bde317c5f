// How high the rows are, by the sizes of their texts, and in which row a line of the pages stands.
ghost use Rattle.std.specs.Prelude.{◌≡◌, ◌≤◌, ◌+◌, ◌*◌, ◌-◌, ◌/◌, length};
ghost use Rattle.printout.specs.LineAsks.{RowKnown};
ghost use Rattle.page_lines.specs.Heights.{length_by};
ghost use Rattle.page_lines.specs.Words.{height_of, HeightAsked, HeightsAsked, SpotFound};

use super::line::COLUMN;
use super::paged::PagedRows;
use printout::lines::row_of;
use printout_sort::buffer::digits;

// A line of a row: the row's number, and the line's number in the row. Behind the last row: how many rows there are, and how many
// lines behind the last one's end.
#[derive(Clone, Copy, Debug, PartialEq, Eq)]
pub struct Spot {
    pub row: usize,
    pub line: usize,
}

// The length of the text of a row, by the table of text sizes.
fn row_length(sizes: &[u32], code: u32) -> usize
    requires { RowKnown (length sizes.now) code }
    ensures { result ≡ length_by sizes.now code }
{
    match row_of(code) {
        Ok(k) => sizes[k] as usize,
        Err(number) => 1 + digits(number),
    }
}

// How many lines a text of this many bytes needs below its first.
fn lines_below(bytes: usize) -> usize
    ensures { result ≡ (bytes - 1) / 36 }
{
    bytes.saturating_sub(1) / COLUMN
}

// How many lines the row of the term `t` has: those that the longer of its two texts needs.
#[tactic(auto, unfolding(crate::specs::Heights::height_in))]
pub fn row_height(page: &PagedRows<'_>, t: usize) -> usize
    requires pair { 2 * t + 2 ≤ length page.now.rows.now }
    requires row { HeightAsked page.now t }
    ensures { result ≡ height_of page.now t }
{
    let first = row_length(page.sizes, page.rows[2 * t]);
    let second = row_length(page.sizes, page.rows[2 * t + 1]);
    lines_below(first).max(lines_below(second)) + 1
}

// Where the line with the number `from` stands among the rows.
pub fn find_row(page: &PagedRows<'_>, from: usize) -> Spot
    requires { HeightsAsked page.now }
    ensures { SpotFound page.now from result }
{
    let mut line = from;
    for row in 0..page.terms {
        let high = row_height(page, row);
        if line < high {
            return Spot { row, line };
        }
        line -= high;
    }
    Spot {
        row: page.terms,
        line,
    }
}
