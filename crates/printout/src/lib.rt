// The printout: the text of a row and of an answer, and the lines of a sheet, written into a lent buffer. The definitions
// stand in specs/, those of the text of a sort in crate printout_sort. What does not fit is refused, and the buffer is as it was.
#![tactic(auto)]

pub mod kinds;
pub mod lines;
pub mod whole;

// A line does not fit the buffer.
#[derive(Clone, Copy, Debug, PartialEq, Eq)]
pub struct NoRoom;
