// How much of a printout or of the pages was written to an output, and what writes either. The one call of `write_all` of it stands
// here, in `hand`, and so does all that makes a `Written`: its fields are private, so that elsewhere a line counts as written only
// where its bytes were handed over.
#![tactic(auto)]

ghost use Rattle.std.specs.Prelude.{◌≡◌, ◌≤◌, ℕ, List, length};
ghost use Rattle.reader.specs.Reader.{refusal_number};
ghost use Rattle.judge_rules.specs.Judged.{judged};
ghost use Rattle.printout.specs.Lines.{refusal_line};
ghost use Rattle.printout.specs.Printed.{program_lengths};
ghost use Rattle.printout_text.specs.Text.{LinesBy};
ghost use Rattle.printout_text.specs.Words.{PrintAsked};
ghost use Rattle.written.specs.Written.{Layout, count_in, line_in, room_in, text_in, HandAsks, NextLines, WentOn, TextAdded, WrittenAll, WrittenIn, none_written};

use printout::whole::Piece;
use printout_text::judged::JudgedSheet;
use printout_text::refused_line;
use reader::Refusal;
use std::io::Write;

// How many lines of a printout, from the first on, were handed to writes that took them whole; and whether a write of the lines
// behind them failed.
#[derive(Clone, Copy, Debug, PartialEq, Eq)]
pub struct Written {
    lines: usize,
    failed: bool,
}

impl Written {
    // Whether a write failed.
    pub fn has_failed(self) -> bool
        ensures { result ≡ self.failed }
    {
        self.failed
    }
}

// No line written, and no write failed.
pub fn nothing_written() -> Written
    ensures { result ≡ none_written }
{
    Written {
        lines: 0,
        failed: false,
    }
}

// Lines of a judged sheet's printout, or of its pages, that are still to be shown.
pub trait Lines {
    // Whether the lines are those of the printout or of the pages, and the bytes of the sheet.
    ghost layout: { Layout };

    ghost sheet: { Self → List ℕ };

    // The number of the next line, and what showing it asks.
    ghost next: { Self → ℕ };

    ghost can_show: { Self → Type 0 };

    // Writes the next lines into `out`, from its start on, as many as fit: the number of the line behind them, which is then the next
    // one, and the place behind what was written.
    fn show(&mut self, out: &mut [u8]) -> Piece
        requires { can_show self.old }
        ensures lines { LinesBy (count_in layout (judged (sheet self.old) program_lengths)) (line_in layout (judged (sheet self.old) program_lengths)) (room_in layout) (next self.old) out.old out.new result }
        ensures next { next self.new ≡ result.next }
        ensures same { sheet self.new ≡ sheet self.old }
        ensures can { can_show self.new };
}

// What prints a judged sheet: its printout, or its pages.
pub trait Printer {
    // Which of them.
    ghost layout: { Layout };

    // Writes what it prints of a sheet that was judged with this outcome. All lines are written, the one of a refused sheet too, and
    // their bytes stand behind what the output held; or a write failed, and then fewer. No clause says that nothing is handed over after
    // that write.
    fn print_judged<W: Write>(
        &self,
        output: &mut W,
        sheet: &JudgedSheet<'_>,
        outcome: Result<(), Refusal>,
    ) -> Written
        requires left { PrintAsked sheet.now outcome }
        requires short { length sheet.now.entries.records.now ≤ 65536 }
        ensures lines { WrittenIn layout (judged sheet.now.bytes.now program_lengths) result }
        ensures bytes { TextAdded (W.contents output.old) (W.contents output.new) (text_in layout (judged sheet.now.bytes.now program_lengths)) result };
}

// Hands this text, that of the lines from the first unwritten one up to the line `next`, to the output. Where the write took
// all, these lines are written too, and the output holds the text behind what it held; else it failed, and the lines written are
// those of before.
fn hand<W: Write>(output: &mut W, done: Written, next: usize, text: &[u8]) -> Written
    requires { HandAsks done next text.now }
    ensures lines { WentOn done next result }
    ensures bytes { TextAdded (W.contents output.old) (W.contents output.new) text.now result }
{
    if output.write_all(text).is_ok() {
        Written {
            lines: next,
            failed: false,
        }
    } else {
        Written {
            lines: done.lines,
            failed: true,
        }
    }
}

// Hands one piece of the printout, or of the pages, to the output: the text of these lines from the first unwritten one, wherever that is,
// up to the line `next`. Where the write took all, they are written too; else it failed, and the lines written are those of before. Only
// the contract reads the lines.
pub fn hand_lines<W: Write, L: Lines>(
    output: &mut W,
    lines: &L,
    done: Written,
    next: usize,
    text: &[u8],
) -> Written
    requires { NextLines (count_in L.layout (judged (L.sheet lines.now) program_lengths)) (line_in L.layout (judged (L.sheet lines.now) program_lengths)) done next text.now }
    ensures lines { WentOn done next result }
    ensures bytes { TextAdded (W.contents output.old) (W.contents output.new) text.now result }
{
    hand(output, done, next, text)
}

// Hands the line of a sheet that is refused for this reason to the output: it is written, or the write failed, and none is.
fn hand_refusal<W: Write>(output: &mut W, e: Refusal, text: &[u8]) -> Written
    requires { text.now ≡ refusal_line (refusal_number e) }
    ensures lines { WentOn none_written 1 result }
    ensures bytes { TextAdded (W.contents output.old) (W.contents output.new) (refusal_line (refusal_number e)) result }
{
    hand(output, nothing_written(), 1, text)
}

// Writes all these lines, of which none was shown yet, piece by piece, by way of a buffer that holds any of them. All are written, and
// their bytes stand behind what the output held; or a write failed, and then fewer. The code hands nothing over after that write; no
// clause says so.
pub fn write_lines<W: Write, L: Lines>(output: &mut W, lines: &mut L, out: &mut [u8]) -> Written
    requires can { L.can_show lines.old }
    requires first { L.next lines.old ≡ 0 }
    requires room { room_in L.layout ≤ length out.old }
    ensures lines { WrittenIn L.layout (judged (L.sheet lines.old) program_lengths) result }
    ensures bytes { TextAdded (W.contents output.old) (W.contents output.new) (text_in L.layout (judged (L.sheet lines.old) program_lengths)) result }
{
    let mut done = nothing_written();
    loop {
        let piece = lines.show(out);
        if piece.next == done.lines {
            return done;
        }
        done = hand_lines(output, lines, done, piece.next, &out[..piece.end]);
        if done.failed {
            return done;
        }
    }
}

// Writes the line of a sheet that is refused for this reason, the only one of its printout and of its pages. That line is written, and
// stands behind what the output held; or the write failed, and none is.
pub fn print_refusal<W: Write>(output: &mut W, e: Refusal) -> Written
    ensures lines { WrittenAll 1 result }
    ensures bytes { TextAdded (W.contents output.old) (W.contents output.new) (refusal_line (refusal_number e)) result }
{
    let mut line = [0u8; 16];
    let piece = refused_line(e, 0, &mut line);
    hand_refusal(output, e, &line[..piece.end])
}
