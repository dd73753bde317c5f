// A judged sheet as the printouts read it.
#![tactic(auto)]

ghost use Rattle.std.specs.Prelude.{◌≡◌};
ghost use Rattle.printout_text.specs.Text.{InRange};

use store::entries::Entries;

// A judged sheet: its bytes and the buffers that judging it leaves.
#[derive(Clone, Copy)]
pub struct JudgedSheet<'a> {
    pub bytes: &'a [u8],
    pub entries: Entries<'a>,
    pub rows: &'a [u32],
    pub answers: &'a [u32],
    pub ghost ranges: { InRange entries.records.now rows.now answers.now },
}

impl<'a> JudgedSheet<'a> {
    // The judged sheet of these buffers.
    pub fn new(
        bytes: &'a [u8],
        records: &'a [u8],
        places: &'a [u32],
        rows: &'a [u32],
        answers: &'a [u32],
    ) -> JudgedSheet<'a>
        ensures bytes { result.bytes.now ≡ bytes.now }
        ensures records { result.entries.records.now ≡ records.now }
        ensures places { result.entries.places.now ≡ places.now }
        ensures rows { result.rows.now ≡ rows.now }
        ensures answers { result.answers.now ≡ answers.now }
    {
        let entries = Entries { records, places };
        JudgedSheet {
            bytes,
            entries,
            rows,
            answers,
        }
    }
}
