// A test program: judges the recorded sheets of data/sheets.bin one after the other over the program's buffers and prints each
// behind its number. In the file each sheet stands behind its length in four bytes.
#![tactic(auto)]

use printout_write::Printout;
use program::replay::replay;

// Judges the sheets of the file beside the program; a file that cannot be opened is told on standard error.
fn main(rt: HostRuntime) {
    replay(&rt, &mut rt.stdout(), &Printout);
}
