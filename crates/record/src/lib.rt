// Numbers in bytes, and the fields of a sort record. kinds.rt has the names of the kinds, operators.rt those of the operators,
// span.rt and numbers.rt the lists of a record, limits.rt the limits, tables.rt the bit map of each kind of sort.
#![tactic(auto)]

pub mod kinds;
pub mod limits;
pub mod numbers;
pub mod operators;
pub mod span;
pub mod tables;

ghost use Rattle.std.specs.Prelude.{◌≡◌, ◌+◌, ◌≤◌, ◌<◌, length};
ghost use Rattle.record.specs.Number.{u16_at, u32_at};

use kinds::SortKind;
use span::Span;

// The fields of a sort record: its list of sorts and its list of names come last.
#[derive(Clone, Copy, Debug, PartialEq, Eq)]
pub struct SortRecord {
    pub kind: SortKind,
    pub name: usize,
    pub number: usize,
    pub parts: Span,
    pub names: Span,
}

// The u16 at `at`, low byte first.
#[tactic(auto, unfolding(crate::specs::Number::u16_at))]
pub fn u16_at(s: &[u8], at: usize) -> usize
    requires { at + 2 ≤ length s.now }
    ensures value { result ≡ u16_at s.now at }
    ensures upper_bound { result < 65536 }
{
    usize::from(u16::from_le_bytes([s[at], s[at + 1]]))
}

// The u32 at `at`, low byte first.
#[tactic(auto, unfolding(crate::specs::Number::u32_at, crate::specs::Number::u16_at))]
pub fn u32_at(s: &[u8], at: usize) -> usize
    requires { at + 4 ≤ length s.now }
    ensures value { result ≡ u32_at s.now at }
    ensures upper_bound { result < 4294967296 }
{
    u32::from_le_bytes([s[at], s[at + 1], s[at + 2], s[at + 3]]) as usize
}
