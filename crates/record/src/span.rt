// A list in a record: where its numbers start, and how many there are.
ghost use Rattle.std.specs.Prelude.{◌≡◌, ◌+◌, ◌-◌, ◌*◌, ◌^◌, ◌<◌, ◌≤◌, length};
ghost use Rattle.record.specs.Number.{u16_at, numbers_at, pairs_at};
ghost use Rattle.record.specs.Numbers.{numbers_left, pairs_left};

use super::numbers::{Numbers, Pairs};
use super::u16_at;

// Numbers of two bytes each, or pairs of them: `count` of them from the place `at` on.
#[derive(Clone, Copy, Debug, PartialEq, Eq)]
pub struct Span {
    pub at: usize,
    pub count: usize,
}

impl Span {
    // The number at the place i of the list.
    pub fn get(self, bytes: &[u8], i: usize) -> usize
        requires { self.at + 2 * i + 2 ≤ length bytes.now }
        ensures value { result ≡ u16_at bytes.now (self.at + 2 * i) }
        ensures upper_bound { result < 65536 }
    {
        u16_at(bytes, self.at + 2 * i)
    }

    // The list behind its first n numbers.
    pub fn skip(self, n: usize) -> Span
        requires few { n ≤ self.count }
        requires within { self.at + 2 * self.count < 2 ^ 64 }
        ensures at { result.at ≡ self.at + 2 * n }
        ensures count { result.count ≡ self.count - n }
    {
        Span {
            at: self.at + 2 * n,
            count: self.count - n,
        }
    }

    // The numbers of the list, from the first to the last.
    pub fn numbers(self, bytes: &[u8]) -> Numbers<'_>
        requires { self.at + 2 * self.count ≤ length bytes.now }
        ensures { numbers_left result ≡ numbers_at bytes.now self.at self.count }
    {
        Numbers {
            bytes: &bytes[self.at..self.at + 2 * self.count],
        }
    }

    // The pairs of the list, from the first to the last.
    pub fn pairs(self, bytes: &[u8]) -> Pairs<'_>
        requires { self.at + 4 * self.count ≤ length bytes.now }
        ensures { pairs_left result ≡ pairs_at bytes.now self.at self.count }
    {
        Pairs {
            bytes: &bytes[self.at..self.at + 4 * self.count],
        }
    }
}
