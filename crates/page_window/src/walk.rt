// The walk over a sort: it writes a piece at a time, and forgets what stands before the bytes that are wanted.
ghost use Rattle.std.specs.Prelude.{◌+◌, ◌≤◌, ◌<◌, length};
ghost use Rattle.printout_sort.specs.Forms.{form_number};
ghost use Rattle.printout_sort.specs.Pieces.{close_text};
ghost use Rattle.page_window.specs.Frames.{OpenAsks};
ghost use Rattle.page_window.specs.Walk.{Settled, Going, EnterAsks, EnterIs, StepAsks, StepIs, StartIs, CloseIs};

use super::frames::{Frame, open_sort};
use printout_sort::buffer::TextBuffer;
use printout_sort::form::Form;
use printout_sort::text::put_close;
use store::entries::Entries;

// Where a walk stands: how many frames are on the stack, how many bytes at the start of what is written and of what is still to print are
// not wanted, and where what is written ends.
#[derive(Clone, Copy, Debug, PartialEq, Eq)]
pub struct Walk {
    pub depth: usize,
    pub lead: usize,
    pub end: usize,
}

// The walk through the text of the sort `k` from its byte `skip` on, before any step: what the text has before its parts is written, and
// its frame is on the stack.
pub fn start(entries: Entries<'_>, k: usize, skip: usize, stack: &mut [u32], out: &mut [u8]) -> Walk
    requires { (0 < length stack.old) × OpenAsks entries.records.now entries.places.now k out.old 0 }
    ensures { StartIs entries.entry.records.now entries.entry.places.now k skip stack.old out.old stack.new out.new result }
{
    let mut text = TextBuffer { bytes: out, end: 0 };
    stack[0] = open_sort(entries, k, &mut text).slot;
    Walk::settled(1, skip, text.end)
}

impl Walk {
    // The walk at `depth`; where nothing of what is written is wanted, it is forgotten.
    pub fn settled(depth: usize, lead: usize, end: usize) -> Walk
        ensures { Settled depth lead end result }
    {
        if end <= lead {
            return Walk {
                depth,
                lead: lead - end,
                end: 0,
            };
        }
        Walk { depth, lead, end }
    }

    // Whether there is something to print, and less than `want` bytes of what is wanted stand there.
    pub fn is_going(self, want: usize) -> bool
        ensures { Going self want result }
    {
        self.depth != 0 && (self.end <= self.lead || self.end - self.lead < want)
    }

    // The walk over the sort `k`, which is entered: a blank and what its text has before its parts are written, and its frame is on the
    // stack.
    fn entered(self, entries: Entries<'_>, k: usize, stack: &mut [u32], out: &mut [u8]) -> Walk
        requires { EnterAsks entries.records.now entries.places.now k stack.old out.old self }
        ensures { EnterIs entries.entry.records.now entries.entry.places.now k stack.old out.old self stack.new out.new result }
    {
        let mut text = TextBuffer {
            bytes: out,
            end: self.end,
        };
        text.put_byte(b' ');
        stack[self.depth] = open_sort(entries, k, &mut text).slot;
        Walk::settled(self.depth + 1, self.lead, text.end)
    }

    // The walk behind the bracket of a form, which is written: its frame is off the stack.
    fn closed(self, form: Form, out: &mut [u8]) -> Walk
        requires { (0 < self.depth) × (self.end + length (close_text (form_number form)) ≤ length out.old) }
        ensures { CloseIs (form_number form) self out.old out.new result }
    {
        let mut text = TextBuffer {
            bytes: out,
            end: self.end,
        };
        put_close(form, &mut text);
        Walk::settled(self.depth - 1, self.lead, text.end)
    }

    // The walk one step on: the bracket of the top frame where it has no parts left; else its next part, which is passed over whole where it
    // ends before what is wanted, and entered otherwise.
    pub fn step(
        self,
        entries: Entries<'_>,
        sizes: &[u32],
        stack: &mut [u32],
        out: &mut [u8],
    ) -> Walk
        requires { StepAsks entries.records.now entries.places.now sizes.now stack.old out.old self }
        ensures { StepIs entries.entry.records.now entries.entry.places.now sizes.now stack.old out.old self stack.new out.new result }
    {
        let top = self.depth - 1;
        let frame = Frame { slot: stack[top] };
        if frame.left() == 0 {
            return self.closed(frame.form(), out);
        }
        let k = entries.number(frame.place());
        stack[top] = frame.next().slot;
        let size = sizes[k] as usize;
        if self.end == 0 && size < self.lead {
            return Walk {
                depth: self.depth,
                lead: self.lead - 1 - size,
                end: 0,
            };
        }
        self.entered(entries, k, stack, out)
    }
}
