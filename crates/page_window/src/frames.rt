// Frames of the stack: what is still to print of a sort whose word was written, in one number.
#![tactic(auto, unfolding(crate::specs::Frames::frame_of, crate::specs::Frames::place_of, crate::specs::Frames::left_of, crate::specs::Frames::form_in))]

ghost use Rattle.std.specs.Prelude.{◌≡◌, ◌≤◌, ◌<◌, ◌+◌, ◌^◌};
ghost use Rattle.printout_sort.specs.Buffer.{Same};
ghost use Rattle.printout_sort.specs.Forms.{form_number};
ghost use Rattle.store.specs.Entry.{EntryHas};
ghost use Rattle.page_window.specs.Frames.{frame_of, place_of, left_of, form_in, next_part, OpenAsks, OpenIs};

use printout_sort::buffer::TextBuffer;
use printout_sort::form::{Form, form_of};
use printout_sort::text::put_inner;
use record::SortRecord;
use record::kinds::SortKind;
use store::entries::Entries;

// A frame is a place, a count and a form, in these units.
const PLACE_UNIT: usize = 4096;

const LEFT_UNIT: usize = 32;

// How much a frame grows when its first part is done: two places on, one part less.
const NEXT: u32 = (2 * PLACE_UNIT - LEFT_UNIT) as u32;

// The number of the form behind those of the kinds.
const BARE_ATOM: usize = 16;

// One more than the counts that a frame has room for.
const LEFTS: usize = 128;

// The number of a form.
fn number_of(form: Form) -> usize
    ensures { result ≡ form_number form }
{
    match form {
        Form::Of(kind) => kind as usize,
        Form::BareAtom => BARE_ATOM,
    }
}

// A frame, as the number that stands on the stack.
#[derive(Clone, Copy)]
pub struct Frame {
    pub slot: u32,
}

impl Frame {
    // The frame of a sort of the form `form` with `left` parts to print, whose numbers stand from `place` on.
    fn new(place: usize, left: usize, form: Form) -> Frame
        requires { (place ≤ 65536) × (left ≤ 64) }
        ensures { result.slot ≡ frame_of place left (form_number form) }
    {
        let slot = (place * PLACE_UNIT + left * LEFT_UNIT + number_of(form)) as u32;
        Frame { slot }
    }

    // Where the numbers of the parts to print stand.
    pub fn place(self) -> usize
        ensures { result ≡ place_of self.slot }
    {
        self.slot as usize / PLACE_UNIT
    }

    // How many parts are to print.
    pub fn left(self) -> usize
        ensures { result ≡ left_of self.slot }
    {
        self.slot as usize / LEFT_UNIT % LEFTS
    }

    // The number of the form whose bracket closes the sort; in any frame, also one that has the number of no form.
    pub fn form_in(self) -> usize
        ensures { result ≡ form_in self.slot }
    {
        self.slot as usize % LEFT_UNIT
    }

    // The form whose bracket closes the sort.
    pub fn form(self) -> Form
        requires { form_in self.slot < 17 }
        ensures { form_number result ≡ form_in self.slot }
    {
        SortKind::try_from(self.form_in()).map_or(Form::BareAtom, Form::Of)
    }

    // The frame when its first part is done.
    pub fn next(self) -> Frame
        requires { self.slot + next_part < 2 ^ 32 }
        ensures { result.slot ≡ self.slot + next_part }
    {
        let slot = self.slot + NEXT;
        Frame { slot }
    }
}

// As `open_sort`, of the sort `k`, whose entry is `a`. Only the contract reads the places and `k`.
fn open_entry(
    records: &[u8],
    places: &[u32],
    k: usize,
    a: SortRecord,
    out: &mut TextBuffer<'_>,
) -> Frame
    requires asks { OpenAsks records.now places.now k out.old.bytes.now out.old.end }
    requires entry { EntryHas records.now places.now k a }
    ensures same { Same out.old out.new }
    ensures open { OpenIs records.now places.now k out.old.bytes.now out.old.end out.new.bytes.now (record { frame = result.slot; end = out.new.end }) }
{
    let form = form_of(a.kind, a.parts.count);
    out.put(form.word());
    put_inner(records, form, a, out);
    Frame::new(a.parts.at, a.parts.count, form)
}

// Writes what the text of the sort `k` has before its parts; its frame.
pub fn open_sort(entries: Entries<'_>, k: usize, out: &mut TextBuffer<'_>) -> Frame
    requires { OpenAsks entries.records.now entries.places.now k out.old.bytes.now out.old.end }
    ensures same { Same out.old out.new }
    ensures open { OpenIs entries.entry.records.now entries.entry.places.now k out.old.bytes.now out.old.end out.new.bytes.now (record { frame = result.slot; end = out.new.end }) }
{
    let a = entries.entry(k);
    open_entry(entries.records, entries.places, k, a, out)
}
