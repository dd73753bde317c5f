// The body of the test programs that judge the recorded sheets of a file one after the other and print what each gives behind its number.
// In the file each sheet stands behind its length in four bytes.
use super::print_sheet;
use std::io::{ErrorKind, Read, Write};
use std::rt::Files;
use std::{fs, io};
use written::Printer;

// The most sheets of a file.
const SHEETS: usize = 100000;

// The longest recorded sheet: some are longer than any that is accepted.
const LONGEST: usize = 65540;

// What stands in the buffers before a sheet is judged.
const DIRT: u8 = 170;

// Judges the next sheet of the file, the one with the number k, and prints what it gives; or the failure of a read, at the end of the file
// too, or of a length that is too large.
fn replay_next<F: Read, W: Write, P: Printer>(
    file: &mut F,
    output: &mut W,
    printer: &P,
    k: usize,
) -> io::Result<()> {
    let mut head = [0u8; 4];
    file.read_exact(&mut head)?;
    let length = u32::from_le_bytes(head) as usize;
    let mut buffer = [0u8; LONGEST];
    let sheet = buffer.get_mut(..length).ok_or(ErrorKind::InvalidData)?;
    file.read_exact(sheet)?;
    let _ = writeln!(output, "# {k}");
    let _ = print_sheet(output, printer, sheet, DIRT);
    Ok(())
}

// Judges at most 100,000 sheets of the file, up to the first that cannot be read.
fn replay_all<F: Read, W: Write, P: Printer>(file: &mut F, output: &mut W, printer: &P) {
    for k in 0..SHEETS {
        if replay_next(file, output, printer, k).is_err() {
            return;
        }
    }
}

// Judges the sheets of the file `sheets.bin`; a file that cannot be opened is told on standard error. What stands in a file no clause can
// say, and a write that fails is passed over: so the promise is that of `print_sheet`, for each sheet.
pub fn replay<R: Files + Eprint, W: Write, P: Printer>(rt: &R, output: &mut W, printer: &P) {
    match fs::open(rt, "sheets.bin") {
        Ok(mut file) => replay_all(&mut file, output, printer),
        Err(e) => failure::tell(rt, "sheets.bin", Some(e)),
    }
}
