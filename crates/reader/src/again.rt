// A term record that was read before and found good, read again: each field is taken from its place, by the bits of the map, without
// the tests of kinds, limits and references.
ghost use Rattle.std.specs.Prelude.{◌≡◌, ◌+◌, ◌≤◌, ◌<◌, length, get_or};
ghost use Rattle.record.specs.Number.{u16_at, u32_at};
ghost use Rattle.record.specs.Kinds.{term_number};
ghost use Rattle.record.specs.Record.{bit};
ghost use Rattle.record.specs.Store.{given};
ghost use Rattle.reader.specs.Again.{ReadBefore, ReadAgain};

use super::{Cursor, TermRecord};
use record::kinds::TermKind;
use record::span::Span;
use record::tables::{LIST_BIT, NAME_BIT, NAMES_BIT, NUMBER_BIT, PAIRS_BIT, SORT_BIT, has_bit};
use record::{u16_at, u32_at};

// The kind of term whose number stands at a place.
fn kind_again(s: &[u8], at: usize) -> TermKind
    requires within { at < length s.now }
    requires known { get_or s.now at 0 < 13 }
    ensures { term_number result ≡ get_or s.now at 0 }
{
    TermKind::try_from(s[at] as usize).unwrap()
}

impl Cursor {
    // The two bytes here and the place behind them, where the bit of this weight stands in the map; else 0 and this place.
    #[inline(always)]
    fn u16_again(self, s: &[u8], map: usize, weight: usize) -> (usize, Cursor)
        requires weighed { 0 < weight }
        requires within { self.at + given (bit weight map) 2 ≤ length s.now }
        ensures value { result.0 ≡ given (bit weight map) (u16_at s.now self.at) }
        ensures next { result.1.at ≡ self.at + given (bit weight map) 2 }
    {
        if has_bit(map, weight) {
            (u16_at(s, self.at), Cursor { at: self.at + 2 })
        } else {
            (0, self)
        }
    }

    // The four bytes of the number and the place behind them, where its bit stands in the map; else 0 and this place.
    #[inline(always)]
    fn number_again(self, s: &[u8], map: usize) -> (usize, Cursor)
        requires { self.at + given (bit 4 map) 4 ≤ length s.now }
        ensures value { result.0 ≡ given (bit 4 map) (u32_at s.now self.at) }
        ensures next { result.1.at ≡ self.at + given (bit 4 map) 4 }
    {
        if has_bit(map, NUMBER_BIT) {
            (u32_at(s, self.at), Cursor { at: self.at + 4 })
        } else {
            (0, self)
        }
    }

    // The list or the pairs whose count stands here, where the bit of this weight stands in the map; else none, at this place.
    #[inline(always)]
    fn span_again(self, s: &[u8], map: usize, weight: usize) -> Span
        requires weighed { 0 < weight }
        requires within { self.at + given (bit weight map) 1 ≤ length s.now }
        ensures at { result.at ≡ self.at + given (bit weight map) 1 }
        ensures count { result.count ≡ given (bit weight map) (get_or s.now self.at 0) }
        ensures upper_bound { result.count < 256 }
    {
        let at = self.at;
        if has_bit(map, weight) {
            Span {
                at: at + 1,
                count: s[at] as usize,
            }
        } else {
            Span { at, count: 0 }
        }
    }

    // The term record here, which was read before and found good.
    pub fn term_again(self, s: &[u8]) -> TermRecord
        requires { ReadBefore s.now self.at }
        ensures { ReadAgain s.now self.at result }
    {
        let map = s[self.at] as usize;
        let kind = kind_again(s, self.at + 1);
        let start = Cursor { at: self.at + 2 };
        let (name, next) = start.u16_again(s, map, NAME_BIT);
        let (number, next) = next.number_again(s, map);
        let (sort, next) = next.u16_again(s, map, SORT_BIT);
        let list = next.span_again(s, map, LIST_BIT);
        let next = Cursor {
            at: list.at + 2 * list.count,
        };
        let pairs = next.span_again(s, map, PAIRS_BIT);
        let next = Cursor {
            at: pairs.at + 4 * pairs.count,
        };
        let second = next.span_again(s, map, NAMES_BIT);
        TermRecord {
            kind,
            name,
            number,
            sort,
            list,
            pairs,
            second,
        }
    }
}
