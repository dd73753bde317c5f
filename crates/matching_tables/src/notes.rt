// What a walk has found already, so that it goes down no sort for it twice. `Seen` has 64 slots, by a sort's number modulo 64:
// 0, or one more than the number of a sort of which the answer was yes. `Met` has 32 slots, by a pattern's number modulo 32:
// 0, or 65,536 times one more than the pattern's number and the number of a target that it fits.
ghost use Rattle.std.specs.Prelude.{◌≡◌, ◌<◌, replicate};
ghost use Rattle.matching_tables.specs.Notes.{NotedIs, NoteIs, MetAsks, MetIs, PairIs};

// How many slots they have.
pub const NOTES: usize = 64;

pub const PAIR_NOTES: usize = 32;

// How many numbers a target may have: a pair is noted as one more than its pattern's number, times this, and its target's number.
const TARGETS: usize = 65536;

// Sorts by their numbers.
#[derive(Drop)]
pub struct Seen {
    pub slots: [u16; NOTES],
}

impl Seen {
    // No sort is noted.
    pub fn new() -> Seen
        ensures { result.slots ≡ replicate 64 0 }
    {
        Seen { slots: [0; NOTES] }
    }

    // Whether the sort `k` is noted.
    pub fn is_noted(&self, k: usize) -> bool
        requires { k < 65535 }
        ensures { NotedIs self.now.slots k result }
    {
        self.slots[k % NOTES] as usize == k + 1
    }

    // Notes the sort `k`, in the place of the one noted there before.
    pub fn note(&mut self, k: usize)
        requires { k < 65535 }
        ensures { NoteIs self.old.slots k self.new.slots }
    {
        self.slots[k % NOTES] = (k + 1) as u16;
    }
}

// Pairs of a pattern and a target.
#[derive(Drop)]
pub struct Met {
    pub slots: [u32; PAIR_NOTES],
}

impl Met {
    // No pair is noted.
    pub fn new() -> Met
        ensures { result.slots ≡ replicate 32 0 }
    {
        Met {
            slots: [0; PAIR_NOTES],
        }
    }

    // Whether the pattern `p` and the target `t` are noted.
    pub fn is_met(&self, p: usize, t: usize) -> bool
        requires { MetAsks p t }
        ensures { MetIs self.now.slots p t result }
    {
        self.slots[p % PAIR_NOTES] as usize == (p + 1) * TARGETS + t
    }

    // Notes the pattern `p` and the target `t`, in the place of the pair noted there before.
    pub fn note(&mut self, p: usize, t: usize)
        requires { MetAsks p t }
        ensures { PairIs self.old.slots p t self.new.slots }
    {
        self.slots[p % PAIR_NOTES] = ((p + 1) * TARGETS + t) as u32;
    }

    // Notes no pair any more.
    pub fn forget(&mut self)
        ensures { self.new.slots ≡ replicate 32 0 }
    {
        self.slots = [0; PAIR_NOTES];
    }
}
