// Whole records: the bit map and the kind, then the fields one after the other. A method returns the record with the next
// cursor, or the first refusal.
ghost use Rattle.std.specs.Prelude.{◌≡◌, ◌≤◌, length};
ghost use Rattle.reader.specs.Reader.{read_sort_fields, read_sort, read_term_fields, read_term, read_question_fields, read_question};

use super::scans::are_rightly_given;
use super::tables::{
    Limits, names_limits, question_limits, question_map_of, sort_limits, term_limits, term_map_of,
    term_number_of,
};
use super::{Cursor, QuestionRecord, Read, Refusal, SheetSort, TermRecord};
use record::SortRecord;
use record::kinds::{QuestionKind, SortKind, TermKind};
use record::limits::LARGEST_WIDTH;
use record::tables::{SIZE_BIT, map_of};

impl Cursor {
    // The fields behind the kind of a sort record that may name the sorts below `index`, or the first refusal.
    #[tactic(auto, unfolding(crate::specs::Reader::read_sort_fields))]
    fn sort_fields(self, s: &[u8], map: usize, kind: SortKind, index: usize) -> Read<SheetSort>
        ensures { result ≡ read_sort_fields s.now map kind index self.at }
    {
        let (name, next) = self.name(s, map)?;
        let (number, next) = next.number(s, map, LARGEST_WIDTH)?;
        let (parts, next) = next.references(s, map, sort_limits(kind), index)?;
        let (names, next) = next.names(s, map, Limits::SOME)?;
        let (size, next) = next.size(s, map)?;
        let fields = SortRecord {
            kind,
            name,
            number,
            parts,
            names,
        };
        Ok((SheetSort { fields, size }, next))
    }

    // The sort record with the number `index`, which may name the sorts below it: Map where the kind is unknown or the bit
    // map, without bit 128, is not the kind's.
    #[tactic(auto, unfolding(crate::specs::Reader::read_sort))]
    pub fn sort(self, s: &[u8], index: usize) -> Read<SheetSort>
        ensures { result ≡ read_sort s.now index self.at }
    {
        let (head, next) = self.head(s)?;
        let kind = SortKind::try_from(head.kind)?;
        if head.map % SIZE_BIT != map_of(kind) {
            return Err(Refusal::Map);
        }
        next.sort_fields(s, head.map, kind, index)
    }

    // The fields behind the kind of a term record that may name the terms below `index`, or the first refusal.
    #[tactic(auto, unfolding(crate::specs::Reader::read_term_fields))]
    fn term_fields(
        self,
        s: &[u8],
        map: usize,
        kind: TermKind,
        sorts: usize,
        index: usize,
    ) -> Read<TermRecord>
        ensures { result ≡ read_term_fields s.now map kind sorts index self.at }
    {
        let (name, next) = self.name(s, map)?;
        let (number, next) = next.number(s, map, term_number_of(kind))?;
        let (sort, next) = next.own(s, map, sorts)?;
        let (list, next) = next.references(s, map, term_limits(kind), index)?;
        let (pairs, next) = next.pairs(s, map, sorts)?;
        let (second, next) = next.second(s, map, kind, list.count, index)?;
        let term = TermRecord {
            kind,
            name,
            number,
            sort,
            list,
            pairs,
            second,
        };
        Ok((term, next))
    }

    // The term record with the number `index` on a sheet of `sorts` sorts: Map where the kind is unknown or the bit map is
    // not the kind's.
    #[tactic(auto, unfolding(crate::specs::Reader::read_term))]
    pub fn term(self, s: &[u8], sorts: usize, index: usize) -> Read<TermRecord>
        ensures { result ≡ read_term s.now sorts index self.at }
    {
        let (head, next) = self.head(s)?;
        let kind = TermKind::try_from(head.kind)?;
        if head.map != term_map_of(kind) {
            return Err(Refusal::Map);
        }
        next.term_fields(s, head.map, kind, sorts, index)
    }

    // The fields behind the kind of a question record, one after the other, or the first refusal.
    #[tactic(auto, using(crate::specs::Scans::pair_names_are), unfolding(crate::specs::Reader::read_question_fields))]
    fn question_fields(
        self,
        s: &[u8],
        map: usize,
        kind: QuestionKind,
        sorts: usize,
    ) -> Read<QuestionRecord>
        requires { self.at ≤ length s.now }
        ensures { result ≡ read_question_fields s.now map kind sorts self.at }
    {
        let (list, next) = self.references(s, map, question_limits(kind), sorts)?;
        let (pairs, next) = next.pairs(s, map, sorts)?;
        let (names, next) = next.names(s, map, names_limits(kind, list.count))?;
        if !are_rightly_given(pairs.pairs(s), names.numbers(s)) {
            return Err(Refusal::Value);
        }
        let question = QuestionRecord {
            kind,
            list,
            pairs,
            names,
        };
        Ok((question, next))
    }

    // The question record here on a sheet of `sorts` sorts: Map where the kind is unknown or the bit map is not the kind's.
    #[tactic(auto, unfolding(crate::specs::Reader::read_question))]
    pub fn question(self, s: &[u8], sorts: usize) -> Read<QuestionRecord>
        ensures { result ≡ read_question s.now sorts self.at }
    {
        let (head, next) = self.head(s)?;
        let kind = QuestionKind::try_from(head.kind)?;
        if head.map != question_map_of(kind) {
            return Err(Refusal::Map);
        }
        next.question_fields(s, head.map, kind, sorts)
    }
}
