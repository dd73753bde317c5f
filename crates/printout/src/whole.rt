// The printout of a whole judged sheet, in pieces of whole lines that fit a lent buffer.
ghost use Rattle.std.specs.Prelude.{◌≡◌, OnErr};
ghost use Rattle.printout_sort.specs.Buffer.{Same};
ghost use Rattle.printout.specs.Words.{LineAsked, LineShown, PieceAsked, PieceShown};

use super::NoRoom;
use super::kinds::Totals;
use super::lines::{question_line, term_line};
use printout_sort::buffer::TextBuffer;
use store::entries::Entries;

// What is printed of a judged sheet: its sorts, its terms' rows, its questions' kinds and answers, and how many terms and questions it has.
#[derive(Clone, Copy)]
pub struct Printable<'a> {
    pub entries: Entries<'a>,
    pub rows: &'a [u32],
    pub kinds: &'a [u8],
    pub answers: &'a [u32],
    pub totals: Totals,
}

// How far the printout has come: the number of the next line, and the place behind what was written.
#[derive(Clone, Copy, Debug, PartialEq, Eq)]
pub struct Piece {
    pub next: usize,
    pub end: usize,
}

// Writes the line with the number k, the terms' lines first, then the questions'; or NoRoom, where it does not fit, and the buffer is as it
// was.
fn line(sheet: &Printable<'_>, k: usize, out: &mut TextBuffer<'_>) -> Result<(), NoRoom>
    requires { LineAsked sheet.now k }
    ensures same { Same out.old out.new }
    ensures end { OnErr result (out.new.end ≡ out.old.end) }
    ensures line { LineShown sheet.now k out.old out.new result }
{
    let terms = sheet.totals.terms;
    if k < terms {
        let inferred = sheet.rows[2 * k];
        let checked = sheet.rows[2 * k + 1];
        return term_line(sheet.entries, k, inferred, checked, out);
    }
    let q = k - terms;
    let kind = usize::from(sheet.kinds[q]);
    question_line(sheet.entries, q, kind, sheet.answers[q], out)
}

// Writes the lines from the number `from` on into an empty buffer, as many as fit; the number of the next line.
fn put_lines(sheet: &Printable<'_>, from: usize, out: &mut TextBuffer<'_>) -> usize
    requires empty { out.old.end ≡ 0 }
    requires asks { PieceAsked sheet.now from }
    ensures same { Same out.old out.new }
    ensures lines { PieceShown sheet.now from out.old.bytes.now out.new.bytes.now (record { next = result; end = out.new.end }) }
{
    let total = sheet.totals.terms + sheet.totals.questions;
    for k in from..total {
        if let Err(NoRoom) = line(sheet, k, out) {
            return k;
        }
    }
    total
}

// Writes the lines from the number `from` on, as many as fit the buffer, from its start on; the number of the next line, and the
// place behind what was written.
pub fn show_lines(sheet: &Printable<'_>, from: usize, out: &mut [u8]) -> Piece
    requires { PieceAsked sheet.now from }
    ensures { PieceShown sheet.now from out.old out.new result }
{
    let mut text = TextBuffer { bytes: out, end: 0 };
    let next = put_lines(sheet, from, &mut text);
    Piece {
        next,
        end: text.end,
    }
}
