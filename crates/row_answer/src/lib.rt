// A row or an answer made in the store: found there, made of a record, or refused; and the code of a row.
#![tactic(auto)]

pub mod arguments;
pub mod heads;
pub mod lists;
pub mod values;

ghost use Rattle.std.specs.Prelude.{◌≡◌, ◌<◌};
ghost use Rattle.record.specs.Kinds.{sort_number};
ghost use Rattle.record.specs.Sort.{var, node, end, bitvec};
ghost use Rattle.record.specs.Record.{sort_of};
ghost use Rattle.record.specs.Decode.{fields_at};
ghost use Rattle.store.specs.Changes.{Same};
ghost use Rattle.store.specs.Words.{store_in};
ghost use Rattle.row_rules.specs.Verdict.{sort, code_of};
ghost use Rattle.row_answer.specs.Answer.{Answered};
ghost use Rattle.row_answer.specs.Words.{MakeAsked, NearIs, LeafAsked, LeafIs, VariableAsked};

use record::kinds::SortKind;
use record::limits::{LARGEST_TREE, LARGEST_WIDTH, REFUSED};
use record::tables::{KIND_BIT, LIST_BIT, NAME_BIT, NUMBER_BIT};
use row_rules::{Cause, Row};
use store::Store;

// The bit maps of the records of answers: the kind alone, or with a name, a number or a list.
const MAP_KIND: u8 = KIND_BIT as u8;

const MAP_NAME: u8 = (KIND_BIT | NAME_BIT) as u8;

const MAP_NUMBER: u8 = (KIND_BIT | NUMBER_BIT) as u8;

const MAP_LIST: u8 = (KIND_BIT | LIST_BIT) as u8;

// As the number near at hand: past every store, so that it is nothing's.
pub const ANEW: usize = REFUSED;

// A row as it is written: the store number, or the number of the cause times 65,536.
pub fn code(row: Row) -> u32
    requires { code_of row < 4294967296 }
    ensures { result ≡ code_of row }
{
    match row {
        Ok(k) => k as u32,
        Err(cause) => u32::from(cause) * REFUSED as u32,
    }
}

// Whether the sort of the number `near`, which may be any number, is that of a record.
pub fn is_near(store: &Store<'_>, rec: &[u8], near: usize) -> bool
    requires { MakeAsked store.now rec.now }
    ensures { NearIs store.now rec.now near result }
{
    near < store.count && store.entries().record_is(near, rec)
}

// The sort of a record: `near` where it is that one's, else found or added; Limit where its tree is over 4,096; Full where the store
// cannot hold it.
pub fn make(store: &mut Store<'_>, rec: &[u8], near: usize) -> Row
    requires { MakeAsked store.old rec.now }
    ensures same { Same store.old store.new }
    ensures answer { Answered store.old (sort (sort_of (store_in store.old) (fields_at rec.now 0))) store.new result }
{
    if is_near(store, rec, near) {
        return Ok(near);
    }
    let weight = store.tree_size(rec);
    if LARGEST_TREE < weight {
        return Err(Cause::Limit);
    }
    Ok(store.intern(rec, weight)?)
}

// Whether the sort of the number `near`, which may be any number, is that of a kind without name, number and parts.
pub fn is_leaf(store: &Store<'_>, kind: SortKind, near: usize) -> bool
    requires { LeafAsked store.now (sort_number kind) }
    ensures { LeafIs store.now (sort_number kind) near result }
{
    near < store.count && store.kind(near) == kind
}

// The sort of a kind without name, number and parts, as Bool: `near` where that is of this kind, else found or added; or Full.
pub fn leaf(store: &mut Store<'_>, kind: SortKind, near: usize) -> Row
    requires { LeafAsked store.old (sort_number kind) }
    ensures same { Same store.old store.new }
    ensures answer { Answered store.old (sort (node (sort_number kind) 0 0 end)) store.new result }
{
    if is_leaf(store, kind, near) {
        return Ok(near);
    }
    make(store, &[MAP_KIND, kind as u8], ANEW)
}

// The variable with this name; or Full.
pub fn variable(store: &mut Store<'_>, name: usize) -> Row
    requires { VariableAsked store.old name }
    ensures same { Same store.old store.new }
    ensures answer { Answered store.old (sort (var name)) store.new result }
{
    let [low, high] = (name as u16).to_le_bytes();
    make(store, &[MAP_NAME, SortKind::Var as u8, low, high], ANEW)
}

// The vector of this width; Limit where it is over 65,535; or Full.
pub fn bit_vector(store: &mut Store<'_>, width: usize, near: usize) -> Row
    ensures same { Same store.old store.new }
    ensures answer { Answered store.old (sort (bitvec width)) store.new result }
{
    if LARGEST_WIDTH < width {
        return Err(Cause::Limit);
    }
    let [low, high] = (width as u16).to_le_bytes();
    make(
        store,
        &[MAP_NUMBER, SortKind::BitVec as u8, low, high, 0, 0],
        near,
    )
}
