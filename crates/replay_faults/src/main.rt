// A test program: reads a file to its end, a directory, which no read takes, and a descriptor that is not open, into a buffer of eight
// bytes, and prints what each gave.
#![tactic(auto)]

use program_input::read_input;
use std::io::{Read, Write};
use std::rt::Files;
use std::{fs, io};

// The files beside the program, of three bytes, of none and of twelve, and what no read takes: what each is called, and its path.
const FILES: [(&str, &str); 4] = [
    ("three bytes", "three"),
    ("no bytes", "none"),
    ("twelve bytes", "twelve"),
    ("a directory", "."),
];

// A descriptor that is not open. std hands out none, so this reader stands for one: each of its reads fails as the system's does there,
// with its error number 9 for a bad descriptor.
#[derive(Drop)]
struct NoDescriptor;

impl Read for NoDescriptor {
    fn read(&mut self, _buf: &mut [u8]) -> io::Result<usize> {
        Err(io::Error::from_raw_os_error(9))
    }
}

// Writes a line: the name of what was read, and how many bytes that gave, or that a read failed.
fn show<R: Read, W: Write>(output: &mut W, name: &str, reader: &mut R) {
    let mut bytes = [0u8; 8];
    let _ = match read_input(reader, &mut bytes) {
        Ok(n) => writeln!(output, "{name}: {n} bytes"),
        Err(_) => writeln!(output, "{name}: failed"),
    };
}

// The same of the file with this path. One that cannot be opened has no descriptor, and its read fails too.
fn show_file<R: Files, W: Write>(rt: &R, output: &mut W, name: &str, path: &str) {
    match fs::open(rt, path) {
        Ok(mut file) => show(output, name, &mut file),
        Err(_) => show(output, name, &mut NoDescriptor),
    }
}

// Shows each file, and what has no descriptor.
fn main(rt: HostRuntime) {
    let mut output = rt.stdout();
    for (name, path) in FILES {
        show_file(&rt, &mut output, name, path);
    }
    show(&mut output, "no descriptor", &mut NoDescriptor);
}
