// The body of the programs: a sheet is read, judged and printed. Which program prints what is its printer.
#![tactic(auto)]

ghost use Rattle.std.specs.Io.KnownBytes.{Keeps};
ghost use Rattle.std.specs.Prelude.{IfOk, IfErr, IfSome};
ghost use Rattle.judge_rules.specs.Judged.{judged};
ghost use Rattle.printout.specs.Printed.{program_lengths};
ghost use Rattle.written.specs.Written.{text_in, TextAdded, WrittenIn};
ghost use Rattle.program.specs.Input.{SheetRead, PrintedOf};

pub mod replay;

use failure::Watched;
use printout_text::judged::JudgedSheet;
use program_input::read_input;
use reader::Refusal;
use record::limits::{LONGEST_SHEET, MOST_QUESTIONS, MOST_SORTS, ROWS};
use std::io;
use std::io::{Read, Write};
use verdicts::judge;
use written::{Printer, Written, print_refusal};

// What a program calls its input and its output, in a line on standard error.
#[derive(Clone, Copy)]
pub struct Streams<'a> {
    pub input: &'a str,
    pub output: &'a str,
}

// Judges a sheet over the program's buffers, every byte of which is `fill` before, and prints what it gives. All lines of its printout, or
// of its pages, are written, and their bytes stand behind what the output held; or a write failed, and then fewer.
pub fn print_sheet<W: Write, P: Printer>(
    output: &mut W,
    printer: &P,
    sheet: &[u8],
    fill: u8,
) -> Written
    ensures lines { WrittenIn P.layout (judged sheet.now program_lengths) result }
    ensures bytes { TextAdded (W.contents output.old) (W.contents output.new) (text_in P.layout (judged sheet.now program_lengths)) result }
{
    let word = u32::from_ne_bytes([fill; 4]);
    let mut records = [fill; LONGEST_SHEET];
    let mut places = [word; MOST_SORTS];
    let mut rows = [word; ROWS];
    let mut answers = [word; MOST_QUESTIONS];
    let outcome = judge(sheet, &mut records, &mut places, &mut rows, &mut answers);
    let judged = JudgedSheet::new(sheet, &records, &places, &rows, &answers);
    printer.print_judged(output, &judged, outcome)
}

// Reads a sheet to its end into the buffer: its length; none where it is longer than any sheet; or the failure of a read.
fn read_sheet<R: Read>(input: &mut R, sheet: &mut [u8; LONGEST_SHEET]) -> io::Result<Option<usize>>
    ensures { SheetRead (R.remaining input.old) sheet.new result }
{
    let length = read_input(input, sheet)?;
    if length < LONGEST_SHEET {
        return Ok(Some(length));
    }
    match read_input(input, &mut [0u8; 1])? {
        0 => Ok(Some(length)),
        _ => Ok(None),
    }
}

// Reads a sheet to its end and prints what it gives; one that is longer than any sheet is refused. How much was written; or the failure of
// a read, and then the output holds what it held. What is printed is the printout, or the pages, of all bytes that the input had.
pub fn print_input<R: Read, W: Write, P: Printer>(
    input: &mut R,
    output: &mut W,
    printer: &P,
) -> io::Result<Written>
    ensures printed { IfOk result (λ w. IfSome (R.remaining input.old) (λ s. PrintedOf P.layout s (W.contents output.old) (W.contents output.new) w)) }
    ensures kept { IfErr result (λ e. Keeps (W.contents output.old) (W.contents output.new)) }
{
    let mut sheet = [0u8; LONGEST_SHEET];
    match read_sheet(input, &mut sheet)? {
        Some(length) => Ok(print_sheet(output, printer, &sheet[..length], 0)),
        None => Ok(print_refusal(output, Refusal::Length)),
    }
}

// Reads a sheet and prints what it gives, as `print_input` promises. A read or a write that failed is told on standard error, in the words
// of the failure that the stream kept; nothing is printed of a sheet that was not read to its end. The streams are not given back, so
// that no clause of its own can speak of them.
pub fn run<R: Read + Drop, W: Write + Drop, P: Printer>(
    rt: &impl Eprint,
    streams: Streams<'_>,
    input: R,
    output: W,
    printer: &P,
) {
    let mut input = Watched::new(input);
    let mut output = Watched::new(output);
    match print_input(&mut input, &mut output, printer) {
        Ok(written) => {
            if written.has_failed() {
                failure::tell(rt, streams.output, output.failure());
            }
        }
        Err(_) => failure::tell(rt, streams.input, input.failure()),
    }
}
