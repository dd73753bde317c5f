// A sort made from its fields: the record's bytes, put together from left to right, and interned.
ghost use Rattle.std.specs.Prelude.{◌≡◌, ℕ, true, List, [], ◌∷◌, ◌++◌, ◌+◌, ◌≤◌, ◌<◌, length, IfSome, MatchOption};
ghost use Rattle.record.specs.Number.{u16_bytes};
ghost use Rattle.record.specs.Record.{name_bytes, number_bytes, list_bytes, record_bytes};
ghost use Rattle.store.specs.Changes.{Same};
ghost use Rattle.apply_walk.specs.Draft.{fields_of, FieldsFit};
ghost use Rattle.apply_walk.specs.Stores.{sort_in, MakeAsks, MadeIn};

use arrayvec::ArrayVec;
use record::kinds::SortKind;
use record::limits::LONGEST_RECORD;
use record::tables::{LIST_BIT, NAME_BIT, NAMES_BIT, NUMBER_BIT, has_bit, map_of};
use std::marker::Model;
use store::{Full, Store};

// The fields of a sort. Those that the kind's map leaves out do not count.
#[derive(Clone, Copy)]
pub struct SortFields<'a> {
    pub kind: SortKind,
    pub name: usize,
    pub number: usize,
    pub parts: &'a [u16],
    pub names: &'a [u16],
}

// The bytes of a record that is put together from left to right.
#[derive(Drop)]
pub struct Draft {
    bytes: ArrayVec<u8, LONGEST_RECORD>,
}

// Clauses see the bytes, from the first to the last.
impl Model for Draft {
    ghost Value = { List ℕ };

    ghost view = { λ d. d.bytes.items };
}

impl Draft {
    // A record of no bytes.
    pub fn new() -> Draft
        ensures { result ≡ [] }
    {
        Draft {
            bytes: ArrayVec::new(),
        }
    }

    // The bytes, from the first to the last.
    pub fn as_slice(&self) -> &[u8]
        ensures value { result.now ≡ self.now }
        ensures few { length result.now ≤ 266 }
    {
        self.bytes.as_slice()
    }

    // One byte more.
    pub fn put_byte(&mut self, v: usize)
        requires room { length self.old + 1 ≤ 266 }
        requires small { v < 256 }
        ensures { self.new ≡ self.old ++ (v ∷ []) }
    {
        self.bytes.push(v as u8);
    }

    // A number of two bytes more, low byte first.
    pub fn put_word(&mut self, v: usize)
        requires room { length self.old + 2 ≤ 266 }
        requires small { v < 65536 }
        ensures { self.new ≡ self.old ++ u16_bytes v }
    {
        let [low, high] = (v as u16).to_le_bytes();
        self.bytes.push(low);
        self.bytes.push(high);
    }

    // A name more, where there is one; else nothing more.
    pub fn put_name(&mut self, name: Option<usize>)
        requires room { length self.old + 2 ≤ 266 }
        requires small { IfSome name (λ v. v < 65536) }
        ensures { MatchOption name (self.new ≡ self.old) (λ v. self.new ≡ self.old ++ name_bytes true v) }
    {
        if let Some(v) = name {
            self.put_word(v);
        }
    }

    // A number of four bytes more, where there is one; else nothing more.
    pub fn put_number(&mut self, number: Option<usize>)
        requires room { length self.old + 4 ≤ 266 }
        requires small { IfSome number (λ v. v < 65536) }
        ensures { MatchOption number (self.new ≡ self.old) (λ v. self.new ≡ self.old ++ number_bytes true v) }
    {
        if let Some(v) = number {
            self.put_word(v);
            self.put_word(0);
        }
    }

    // A list more, where there is one: how many numbers, then each in two bytes; else nothing more.
    pub fn put_list(&mut self, list: Option<&[u16]>)
        requires room { length self.old + 129 ≤ 266 }
        requires few { IfSome list (λ l. length l.now ≤ 64) }
        ensures { MatchOption list.entry (self.new ≡ self.old) (λ l. self.new ≡ self.old ++ list_bytes true l.now) }
    {
        let Some(numbers) = list else {
            return;
        };
        self.put_byte(numbers.len());
        for v in numbers {
            self.put_word(usize::from(*v));
        }
    }

    // The whole record of these fields: map, kind, name, number, parts and names, but for those that the map leaves out.
    pub fn put_fields(&mut self, fields: &SortFields<'_>)
        requires empty { self.old ≡ [] }
        requires fit { FieldsFit (fields_of fields.now) }
        ensures { self.new ≡ record_bytes (fields_of fields.now) }
    {
        let map = map_of(fields.kind);
        self.put_byte(map);
        self.put_byte(fields.kind as usize);
        self.put_name(has_bit(map, NAME_BIT).then_some(fields.name));
        self.put_number(has_bit(map, NUMBER_BIT).then_some(fields.number));
        self.put_list(has_bit(map, LIST_BIT).then_some(fields.parts));
        self.put_list(has_bit(map, NAMES_BIT).then_some(fields.names));
    }
}

// The number of the sort of these fields in the store with that sort; `Full`, with all as it was, where that store would be
// too long.
pub fn make_fields(store: &mut Store<'_>, fields: &SortFields<'_>) -> Result<usize, Full>
    requires { MakeAsks store.old (fields_of fields.now) }
    ensures same { Same store.old store.new }
    ensures made { MadeIn store.old (sort_in store.old (fields_of fields.now)) store.new result }
{
    let mut draft = Draft::new();
    draft.put_fields(fields);
    let record = draft.as_slice();
    let weight = store.tree_size(record);
    store.intern(record, weight)
}
