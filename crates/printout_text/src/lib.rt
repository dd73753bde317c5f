// The printout of a sheet as text in a lent buffer: the sheet is judged over buffers of the program's lengths, and whole lines are
// written from a line's number on, as many as fit.
#![tactic(auto)]

ghost use Rattle.verdicts.specs.Judge.{Accepted};
ghost use Rattle.printout_text.specs.Text.{RefusedLines, TextIs};
ghost use Rattle.printout_text.specs.Words.{PrintAsked};

pub mod judged;

use judged::JudgedSheet;
use printout::NoRoom;
use printout::kinds::question_kinds;
use printout::lines::refusal_line;
use printout::whole::{Piece, Printable, show_lines};
use printout_sort::buffer::TextBuffer;
use reader::Refusal;
use record::limits::{LONGEST_SHEET, MOST_QUESTIONS, MOST_SORTS, ROWS};
use verdicts::judge;

// Writes the line of a sheet that is refused for this reason, where it is asked for, from the number 0 on, and fits. The next line
// is then 1; else it is `from`, nothing is written, and the buffer is as it was.
pub fn refused_line(e: Refusal, from: usize, out: &mut [u8]) -> Piece
    ensures { RefusedLines e from out.old out.new result }
{
    if 0 < from {
        return Piece { next: from, end: 0 };
    }
    let number = u32::from(e) as usize;
    let mut text = TextBuffer { bytes: out, end: 0 };
    match refusal_line(number, &mut text) {
        Ok(()) => Piece {
            next: 1,
            end: text.end,
        },
        Err(NoRoom) => Piece { next: 0, end: 0 },
    }
}

// Writes the lines from the number `from` on of a sheet that was accepted and judged, as many as fit; where it has no such line nothing
// is written, and the next line is `from`.
fn accepted_lines(sheet: &JudgedSheet<'_>, from: usize, out: &mut [u8]) -> Piece
    requires { PrintAsked sheet.now Accepted }
    ensures { TextIs sheet.now.bytes.now from out.old out.new result }
{
    let mut kinds = [0u8; MOST_QUESTIONS];
    let totals = question_kinds(sheet.bytes, &mut kinds);
    if totals.terms + totals.questions < from {
        return Piece { next: from, end: 0 };
    }
    let printable = Printable {
        entries: sheet.entries,
        rows: sheet.rows,
        kinds: &kinds,
        answers: sheet.answers,
        totals,
    };
    show_lines(&printable, from, out)
}

// THE TEXT OF A SHEET: judges it over buffers of its own, of the program's lengths, and writes the whole lines of its printout from
// the number `from` on into `out`, from its start on, as many as fit; what lies behind them is as it was. The number of the next
// line, and the place behind what was written. A refused sheet has the one line `!n`; where the printout has no line `from`, nothing
// is written, and the next line is `from`.
pub fn text(sheet: &[u8], from: usize, out: &mut [u8]) -> Piece
    ensures { TextIs sheet.now from out.old out.new result }
{
    let mut records = [0u8; LONGEST_SHEET];
    let mut places = [0u32; MOST_SORTS];
    let mut rows = [0u32; ROWS];
    let mut answers = [0u32; MOST_QUESTIONS];
    match judge(sheet, &mut records, &mut places, &mut rows, &mut answers) {
        Ok(()) => {
            let judged = JudgedSheet::new(sheet, &records, &places, &rows, &answers);
            accepted_lines(&judged, from, out)
        }
        Err(e) => refused_line(e, from, out),
    }
}
