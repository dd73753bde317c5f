// The single fields of a record, and the numbers they are made of. A method returns what it read with the next cursor, or
// the refusal; a field whose bit does not stand in the map is 0 or empty and takes no bytes.
// The lists of terms alone are inlined: else each result goes through memory, and judging a sheet takes a fifth longer.
ghost use Rattle.std.specs.Prelude.{◌≡◌, ◌<◌, IfOk};
ghost use Rattle.reader.specs.Reader.{skipped, read_byte, read_u16, read_u32, read_head, read_name, read_number, read_own, read_list, read_references, read_names, read_second, read_pairs, read_size};
ghost use Rattle.record.specs.Kinds.{term_number};

use super::scans::{all_below, is_distinct, pairs_below};
use super::tables::{Limits, second_limits};
use super::{Cursor, Head, Read, Refusal};
use record::kinds::TermKind;
use record::limits::LONGEST_LIST;
use record::span::Span;
use record::tables::{
    KIND_BIT, LIST_BIT, NAME_BIT, NAMES_BIT, NUMBER_BIT, PAIRS_BIT, SIZE_BIT, SORT_BIT, has_bit,
};
use record::{u16_at, u32_at};

impl Cursor {
    // The place n bytes further on, or PastEnd where they are not all there.
    fn skip(self, s: &[u8], n: usize) -> Result<Cursor, Refusal>
        ensures { result ≡ skipped s.now n self.at }
    {
        match s.len().checked_sub(self.at) {
            Some(left) if n <= left => Ok(Cursor { at: self.at + n }),
            _ => Err(Refusal::PastEnd),
        }
    }

    // The list that is not there: none at this place.
    fn no_list(self) -> (Span, Cursor)
        ensures at { result.0.at ≡ self.at }
        ensures count { result.0.count ≡ 0 }
        ensures next { result.1 ≡ self }
    {
        let at = self.at;
        (Span { at, count: 0 }, self)
    }

    // One byte, or PastEnd.
    #[tactic(auto, unfolding(crate::specs::Reader::read_byte))]
    pub fn byte(self, s: &[u8]) -> Read<usize>
        ensures value { result ≡ read_byte s.now self.at }
        ensures upper_bound { IfOk result (λ r. r.0 < 256) }
    {
        let next = self.skip(s, 1)?;
        Ok((s[self.at] as usize, next))
    }

    // Two bytes, or PastEnd.
    #[tactic(auto, unfolding(crate::specs::Reader::read_u16))]
    pub fn u16(self, s: &[u8]) -> Read<usize>
        ensures { result ≡ read_u16 s.now self.at }
    {
        let next = self.skip(s, 2)?;
        Ok((u16_at(s, self.at), next))
    }

    // Four bytes, or PastEnd.
    #[tactic(auto, unfolding(crate::specs::Reader::read_u32))]
    pub fn u32(self, s: &[u8]) -> Read<usize>
        ensures { result ≡ read_u32 s.now self.at }
    {
        let next = self.skip(s, 4)?;
        Ok((u32_at(s, self.at), next))
    }

    // The bit map and the kind: PastEnd without the map byte, Map without the bit of the kind, PastEnd without the kind byte.
    #[tactic(auto, unfolding(crate::specs::Reader::read_head))]
    pub fn head(self, s: &[u8]) -> Read<Head>
        ensures { result ≡ read_head s.now self.at }
    {
        let (map, next) = self.byte(s)?;
        if !has_bit(map, KIND_BIT) {
            return Err(Refusal::Map);
        }
        let (kind, next) = next.byte(s)?;
        Ok((Head { map, kind }, next))
    }

    // The name, or PastEnd; 0 and this place where its bit does not stand in the map.
    #[tactic(auto, unfolding(crate::specs::Reader::read_name))]
    pub fn name(self, s: &[u8], map: usize) -> Read<usize>
        ensures { result ≡ read_name s.now map self.at }
    {
        if has_bit(map, NAME_BIT) {
            return self.u16(s);
        }
        Ok((0, self))
    }

    // The number: PastEnd, or Value where it is over `most`; 0 and this place where its bit does not stand in the map.
    #[tactic(auto, unfolding(crate::specs::Reader::read_number))]
    pub fn number(self, s: &[u8], map: usize, most: usize) -> Read<usize>
        ensures { result ≡ read_number s.now map most self.at }
    {
        if !has_bit(map, NUMBER_BIT) {
            return Ok((0, self));
        }
        let (v, next) = self.u32(s)?;
        if most < v {
            return Err(Refusal::Value);
        }
        Ok((v, next))
    }

    // The record's own sort: PastEnd, or Reference where it is none of the `sorts` sorts; 0 and this place where its bit
    // does not stand in the map.
    #[tactic(auto, unfolding(crate::specs::Reader::read_own))]
    pub fn own(self, s: &[u8], map: usize, sorts: usize) -> Read<usize>
        ensures { result ≡ read_own s.now map sorts self.at }
    {
        if !has_bit(map, SORT_BIT) {
            return Ok((0, self));
        }
        let (v, next) = self.u16(s)?;
        if sorts <= v {
            return Err(Refusal::Reference);
        }
        Ok((v, next))
    }

    // A list: PastEnd where not all its bytes are there, then Value where its length is not within the limits.
    #[tactic(auto, unfolding(crate::specs::Reader::read_list))]
    pub fn list(self, s: &[u8], limits: Limits) -> Read<Span>
        ensures { result ≡ read_list s.now limits.least limits.most self.at }
    {
        let (count, first) = self.byte(s)?;
        let next = first.skip(s, 2 * count)?;
        if !limits.allows(count) {
            return Err(Refusal::Value);
        }
        let at = first.at;
        Ok((Span { at, count }, next))
    }

    // The list of references: as `list`, then Reference where one is not below `limit`; empty where its bit does not
    // stand in the map.
    #[tactic(auto, unfolding(crate::specs::Reader::read_references))]
    pub fn references(self, s: &[u8], map: usize, limits: Limits, limit: usize) -> Read<Span>
        ensures { result ≡ read_references s.now map limits.least limits.most limit self.at }
    {
        if !has_bit(map, LIST_BIT) {
            return Ok(self.no_list());
        }
        let (list, next) = self.list(s, limits)?;
        if !all_below(list.numbers(s), limit) {
            return Err(Refusal::Reference);
        }
        Ok((list, next))
    }

    // The second list of a sort or a question: as `list`, then Value where a name stands twice; empty where its bit does
    // not stand in the map.
    #[tactic(auto, unfolding(crate::specs::Reader::read_names))]
    pub fn names(self, s: &[u8], map: usize, limits: Limits) -> Read<Span>
        ensures { result ≡ read_names s.now map limits.least limits.most self.at }
    {
        if !has_bit(map, NAMES_BIT) {
            return Ok(self.no_list());
        }
        let (list, next) = self.list(s, limits)?;
        if !is_distinct(list.numbers(s)) {
            return Err(Refusal::Value);
        }
        Ok((list, next))
    }

    // The second list of a term of this kind with a list of `count`: the names of a Let, which may be any, or the index
    // terms of a ParamOp, Reference where one is not below `limit`; empty where its bit does not stand in the map.
    #[tactic(auto, unfolding(crate::specs::Reader::read_second))]
    #[inline(always)]
    pub fn second(
        self,
        s: &[u8],
        map: usize,
        kind: TermKind,
        count: usize,
        limit: usize,
    ) -> Read<Span>
        ensures { result ≡ read_second s.now map (term_number kind) count limit self.at }
    {
        if !has_bit(map, NAMES_BIT) {
            return Ok(self.no_list());
        }
        let (list, next) = self.list(s, second_limits(kind, count))?;
        if kind != TermKind::Let && !all_below(list.numbers(s), limit) {
            return Err(Refusal::Reference);
        }
        Ok((list, next))
    }

    // The pairs: PastEnd where not all their bytes are there, Value over 64, Reference where a sort is none of the `sorts`
    // sorts; empty where their bit does not stand in the map.
    #[tactic(auto, using(crate::specs::Scans::pair_sorts_are), unfolding(crate::specs::Reader::read_pairs))]
    #[inline(always)]
    pub fn pairs(self, s: &[u8], map: usize, sorts: usize) -> Read<Span>
        ensures { result ≡ read_pairs s.now map sorts self.at }
    {
        if !has_bit(map, PAIRS_BIT) {
            return Ok(self.no_list());
        }
        let (count, first) = self.byte(s)?;
        let next = first.skip(s, 4 * count)?;
        if LONGEST_LIST < count {
            return Err(Refusal::Value);
        }
        let at = first.at;
        let pairs = Span { at, count };
        if !pairs_below(pairs.pairs(s), sorts) {
            return Err(Refusal::Reference);
        }
        Ok((pairs, next))
    }

    // The tree size that a sort record says, or PastEnd where not both its bytes are there; none where its bit does not
    // stand in the map.
    #[tactic(auto, unfolding(crate::specs::Reader::read_size))]
    pub fn size(self, s: &[u8], map: usize) -> Read<Option<usize>>
        ensures { result ≡ read_size s.now map self.at }
    {
        if !has_bit(map, SIZE_BIT) {
            return Ok((None, self));
        }
        let (size, next) = self.u16(s)?;
        Ok((Some(size), next))
    }
}
