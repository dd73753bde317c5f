// A judged sheet printed to an output: whole lines are gathered in a buffer that holds the longest one, and written
// piece by piece.
#![tactic(auto)]

ghost use Rattle.judge_rules.specs.Judged.{judged};
ghost use Rattle.verdicts.specs.Judge.{Accepted};
ghost use Rattle.printout.specs.Printed.{printed, program_lengths};
ghost use Rattle.printout_text.specs.Words.{PrintAsked};
ghost use Rattle.written.specs.Written.{in_lines, PrintedIs, TextAdded};
ghost use Rattle.printout_write.specs.Words.{SheetLeft, LinesAsked, ShowAsked};

use printout::kinds::{Totals, question_kinds};
use printout::whole::{Piece, Printable, show_lines};
use printout_text::judged::JudgedSheet;
use reader::Refusal;
use record::limits::MOST_QUESTIONS;
use std::io::Write;
use written::{Lines, Printer, Written, print_refusal, write_lines};

// The bytes that any line of a printout fits (`line_room`).
const LINE_ROOM: usize = 1937856;

// A buffer of zeros that holds the longest line.
fn line_buffer() -> [u8; LINE_ROOM] {
    [0; LINE_ROOM]
}

// The lines of an accepted sheet from the number `next` on. Only the contracts read the sheet's bytes. Who has the text of some of them
// hands it over by `hand_lines`, which asks nothing of the other fields.
#[derive(Clone, Copy)]
pub struct SheetLines<'a> {
    pub bytes: &'a [u8],
    pub printable: Printable<'a>,
    pub next: usize,
}

impl Lines for SheetLines<'_> {
    ghost layout = { in_lines };

    ghost sheet = { λ l. l.bytes.now };

    ghost next = { λ l. l.next };

    ghost can_show = { λ l. ShowAsked l.bytes.now l.printable l.next };

    fn show(&mut self, out: &mut [u8]) -> Piece {
        let piece = show_lines(&self.printable, self.next, out);
        self.next = piece.next;
        piece
    }
}

// Writes the lines of an accepted sheet with the kinds of its questions, by way of a buffer that holds the longest line. All lines are
// written, and their bytes stand behind what the output held; or a write failed, and then fewer.
fn print_lines<W: Write>(
    output: &mut W,
    sheet: &JudgedSheet<'_>,
    kinds: &[u8],
    totals: Totals,
    out: &mut [u8],
) -> Written
    requires { LinesAsked sheet.now kinds.now totals out.old }
    ensures lines { PrintedIs (judged sheet.now.bytes.now program_lengths) result }
    ensures bytes { TextAdded (W.contents output.old) (W.contents output.new) (printed (judged sheet.now.bytes.now program_lengths)) result }
{
    let printable = Printable {
        entries: sheet.entries,
        rows: sheet.rows,
        kinds,
        answers: sheet.answers,
        totals,
    };
    let mut lines = SheetLines {
        bytes: sheet.bytes,
        printable,
        next: 0,
    };
    write_lines(output, &mut lines, out)
}

// Writes the lines of an accepted sheet with the kinds of its questions, by way of a buffer of its own, which is so large that it is kept
// out of every other frame. All lines are written, and their bytes stand behind what the output held; or a write failed, and then fewer.
#[inline(never)]
fn print_all<W: Write>(
    output: &mut W,
    sheet: &JudgedSheet<'_>,
    kinds: &[u8],
    totals: Totals,
) -> Written
    requires { SheetLeft sheet.now kinds.now totals }
    ensures lines { PrintedIs (judged sheet.now.bytes.now program_lengths) result }
    ensures bytes { TextAdded (W.contents output.old) (W.contents output.new) (printed (judged sheet.now.bytes.now program_lengths)) result }
{
    let mut out = line_buffer();
    print_lines(output, sheet, kinds, totals, &mut out)
}

// Writes the lines of an accepted sheet. All lines are written, and their bytes stand behind what the output held; or a write failed,
// and then fewer.
fn print_accepted<W: Write>(output: &mut W, sheet: &JudgedSheet<'_>) -> Written
    requires { PrintAsked sheet.now Accepted }
    ensures lines { PrintedIs (judged sheet.now.bytes.now program_lengths) result }
    ensures bytes { TextAdded (W.contents output.old) (W.contents output.new) (printed (judged sheet.now.bytes.now program_lengths)) result }
{
    let mut kinds = [0u8; MOST_QUESTIONS];
    let totals = question_kinds(sheet.bytes, &mut kinds);
    print_all(output, sheet, &kinds, totals)
}

// The printer of printouts.
#[derive(Clone, Copy, Debug, PartialEq, Eq)]
pub struct Printout;

impl Printer for Printout {
    ghost layout = { in_lines };

    // Writes the printout of a sheet that was judged with this outcome. All its lines are written, the one of a refused sheet too, and
    // their bytes stand behind what the output held; or a write failed, and then fewer.
    fn print_judged<W: Write>(
        &self,
        output: &mut W,
        sheet: &JudgedSheet<'_>,
        outcome: Result<(), Refusal>,
    ) -> Written
        requires { PrintAsked sheet.now outcome }
        ensures lines { PrintedIs (judged sheet.now.bytes.now program_lengths) result }
        ensures bytes { TextAdded (W.contents output.old) (W.contents output.new) (printed (judged sheet.now.bytes.now program_lengths)) result }
    {
        match outcome {
            Ok(()) => print_accepted(output, sheet),
            Err(e) => print_refusal(output, e),
        }
    }
}
