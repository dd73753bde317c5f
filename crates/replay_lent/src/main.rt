// A test program: judges the recorded sheets of data/sheets.bin over lent buffers of the recorded lengths, dirty before, and prints
// the outcome's number and the four buffers at exit over their whole length. In the file each sheet stands behind five numbers of
// two bytes: the four lengths and its own.
#![tactic(auto)]

use record::limits::{LONGEST_SHEET, MOST_QUESTIONS, MOST_SORTS, ROWS};
use record::u16_at;
use std::io::{ErrorKind, Read, Write};
use std::{fs, io};
use verdicts::napsilo_judge;

// The most sheets of the file.
const SHEETS: usize = 100000;

// What stands in the buffers before a sheet is judged.
const DIRT: u8 = 170;

const DIRTY_NUMBER: u32 = 2863311530;

// The lengths of the lent buffers.
#[derive(Clone, Copy)]
struct Lengths {
    records: usize,
    places: usize,
    rows: usize,
    answers: usize,
}

// Writes a line: the name of the buffer of records, and its bytes in hexadecimal behind a blank, where there are any.
fn print_bytes<W: Write>(output: &mut W, buffer: &[u8]) {
    let _ = output.write_all(b"records");
    if !buffer.is_empty() {
        let _ = output.write_all(b" ");
    }
    for b in buffer {
        let _ = write!(output, "{b:02x}");
    }
    let _ = output.write_all(b"\n");
}

// Writes a line: the name of a buffer of numbers, and each of its numbers behind a blank.
fn print_numbers<W: Write>(output: &mut W, name: &str, buffer: &[u32]) {
    let _ = write!(output, "{name}");
    for v in buffer {
        let _ = write!(output, " {v}");
    }
    let _ = output.write_all(b"\n");
}

// Judges a sheet over these buffers and prints what it gives.
fn judge_over<W: Write>(
    output: &mut W,
    sheet: &[u8],
    records: &mut [u8],
    places: &mut [u32],
    rows: &mut [u32],
    answers: &mut [u32],
) {
    let number = napsilo_judge(sheet, records, places, rows, answers);
    let _ = writeln!(output, "outcome {number}");
    print_bytes(output, records);
    print_numbers(output, "places", places);
    print_numbers(output, "rows", rows);
    print_numbers(output, "answers", answers);
}

// Judges a sheet over buffers of these lengths and prints what it gives; nothing where one is above the program's.
fn run<W: Write>(output: &mut W, sheet: &[u8], lent: Lengths) {
    let mut records = [DIRT; LONGEST_SHEET];
    let mut places = [DIRTY_NUMBER; MOST_SORTS];
    let mut rows = [DIRTY_NUMBER; ROWS];
    let mut answers = [DIRTY_NUMBER; MOST_QUESTIONS];
    let Some(records) = records.get_mut(..lent.records) else {
        return;
    };
    let Some(places) = places.get_mut(..lent.places) else {
        return;
    };
    let Some(rows) = rows.get_mut(..lent.rows) else {
        return;
    };
    let Some(answers) = answers.get_mut(..lent.answers) else {
        return;
    };
    judge_over(output, sheet, records, places, rows, answers);
}

// Judges the next sheet of the file, the one with the number k, over buffers of its recorded lengths; or the failure of a read, at the end
// of the file too.
fn judge_next<F: Read, W: Write>(file: &mut F, output: &mut W, k: usize) -> io::Result<()> {
    let mut head = [0u8; 10];
    file.read_exact(&mut head)?;
    let lent = Lengths {
        records: u16_at(&head, 0),
        places: u16_at(&head, 2),
        rows: u16_at(&head, 4),
        answers: u16_at(&head, 6),
    };
    let mut buffer = [0u8; LONGEST_SHEET];
    let sheet = buffer
        .get_mut(..u16_at(&head, 8))
        .ok_or(ErrorKind::InvalidData)?;
    file.read_exact(sheet)?;
    let _ = writeln!(output, "# {k}");
    run(output, sheet, lent);
    Ok(())
}

// Judges at most 100,000 sheets of the file, up to the first that cannot be read.
fn judge_all<F: Read, W: Write>(file: &mut F, output: &mut W) {
    for k in 0..SHEETS {
        if judge_next(file, output, k).is_err() {
            return;
        }
    }
}

// Judges the sheets of the file beside the program; a file that cannot be opened is told on standard error.
fn main(rt: HostRuntime) {
    match fs::open(&rt, "sheets.bin") {
        Ok(mut file) => judge_all(&mut file, &mut rt.stdout()),
        Err(e) => failure::tell(&rt, "sheets.bin", Some(e)),
    }
}
