// The program: a sheet from standard input, judged, and its rows on pages on standard output. No logic of its own.
#![tactic(auto)]

use page_write::Pages;
use program::{Streams, run};

// What the program calls its input and its output.
const STREAMS: Streams<'static> = Streams {
    input: "napsilo_page: standard input",
    output: "napsilo_page: standard output",
};

// Reads the sheet and prints what it gives. A read or a write that failed is told on standard error; nothing is printed of a sheet
// that was not read to its end.
fn main(rt: HostRuntime) {
    run(&rt, STREAMS, rt.stdin(), rt.stdout(), &Pages);
}
