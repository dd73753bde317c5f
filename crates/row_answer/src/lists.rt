// Answers made over numbers of the store. Lists of arguments and of parts are put together in a lent array from byte 3 on,
// where the list of a Function, Set or Tuple record stands.
ghost use Rattle.std.specs.Prelude.{◌<◌};
ghost use Rattle.record.specs.Kinds.{sort_number};
ghost use Rattle.record.specs.Sort.{node, set, tuple, function};
ghost use Rattle.record.specs.Record.{sort_of};
ghost use Rattle.record.specs.Decode.{fields_at};
ghost use Rattle.store.specs.Changes.{Same};
ghost use Rattle.store.specs.Words.{store_in, sort_in};
ghost use Rattle.row_rules.specs.Verdict.{sort};
ghost use Rattle.row_rules.specs.Lists.{remaining, joined};
ghost use Rattle.row_answer.specs.Answer.{Answered};
ghost use Rattle.row_answer.specs.Args.{SameArgs};
ghost use Rattle.row_answer.specs.Words.{PartIs, args_in, parts_in, bound_in, MakeAsked, SetOverAsked, StoredListAsked, ListedAsked, RemainingAsked, LambdaAsked, SetOver};

use super::arguments::Args;
use super::{ANEW, MAP_LIST, is_near, make};
use record::kinds::SortKind;
use record::limits::{LARGEST_PARTS, LONGEST_LIST};
use record::span::Span;
use row_rules::{Cause, Row};
use sheet::ReadSheet;
use store::Store;

// The sort of this kind (Function or Tuple) over the sorts in `list`; Limit where they are more than 64 or the tree is over
// 4,096; or Full.
pub fn listed(store: &mut Store<'_>, kind: SortKind, list: &mut Args<'_>, near: usize) -> Row
    requires { ListedAsked store.old (sort_number kind) list.old }
    ensures same { Same store.old store.new }
    ensures same_list { SameArgs list.old list.new }
    ensures answer { Answered store.old (sort (node (sort_number kind) 0 0 (args_in store.old list.old))) store.new result }
{
    if LONGEST_LIST < list.count {
        return Err(Cause::Limit);
    }
    list.put_head(kind);
    make(store, list.record(), near)
}

// The part of the sort `near`, where that is a Set of the store; None for any other number.
pub fn set_part(store: &Store<'_>, near: usize) -> Option<usize>
    ensures { PartIs store.now near result }
{
    if store.count <= near {
        return None;
    }
    let outer = store.entry(near);
    if outer.kind != SortKind::Set {
        return None;
    }
    Some(store.number(outer.parts.at))
}

// The Set of the sort k: `near` where it is that, by its part; else found or added; Limit where its tree is over 4,096; or Full.
pub fn set_of(store: &mut Store<'_>, k: usize, near: usize) -> Row
    requires { k < store.old.count }
    ensures same { Same store.old store.new }
    ensures answer { Answered store.old (sort (set (sort_in store.old k))) store.new result }
{
    if let Some(part) = set_part(store, near) {
        if part == k {
            return Ok(near);
        }
    }
    let [low, high] = (k as u16).to_le_bytes();
    make(store, &[MAP_LIST, SortKind::Set as u8, 1, low, high], ANEW)
}

// The Set of the sort k that was made last, over the store of `from` sorts before: of the sorts that were made since, and the
// Set, none stays where there is no room.
pub fn set_over(store: &mut Store<'_>, k: usize, from: usize) -> Row
    requires { SetOverAsked store.old k from }
    ensures same { Same store.old store.new }
    ensures answer { SetOver store.old k from store.new result }
{
    let outer = set_of(store, k, ANEW);
    if outer.is_err() {
        store.undo(from);
    }
    outer
}

// The Set of the sort of a record: `near` where it is that, by its part; Limit where its tree is over 4,096; or Full.
pub fn set_of_tuple(store: &mut Store<'_>, rec: &[u8], near: usize) -> Row
    requires { MakeAsked store.old rec.now }
    ensures same { Same store.old store.new }
    ensures answer { Answered store.old (sort (set (sort_of (store_in store.old) (fields_at rec.now 0)))) store.new result }
{
    if let Some(part) = set_part(store, near) {
        if is_near(store, rec, part) {
            return Ok(near);
        }
    }
    let weight = store.tree_size(rec);
    if LARGEST_PARTS < weight {
        return Err(Cause::Limit);
    }
    let from = store.count;
    let inner = store.intern(rec, weight)?;
    set_over(store, inner, from)
}

// The relation with the columns in `list`, a Set of a Tuple; Limit where they are more than 64 or the tree is over 4,096; or
// Full.
pub fn relation(store: &mut Store<'_>, list: &mut Args<'_>, near: usize) -> Row
    requires { StoredListAsked store.old list.old }
    ensures same { Same store.old store.new }
    ensures same_list { SameArgs list.old list.new }
    ensures answer { Answered store.old (sort (set (tuple (args_in store.old list.old)))) store.new result }
{
    if LONGEST_LIST < list.count {
        return Err(Cause::Limit);
    }
    list.put_head(SortKind::Tuple);
    set_of_tuple(store, list.record(), near)
}

// What is left of a Function's list, the sorts that the store names in `left`: the last one by itself, or the Function of what
// remains, put together in `list`. Inlined, since each App calls it twice, mostly for the last sort alone.
#[inline(always)]
pub fn remaining(store: &mut Store<'_>, list: &mut Args<'_>, left: Span) -> Row
    requires { RemainingAsked store.old list.old left }
    ensures same { Same store.old store.new }
    ensures same_list { SameArgs list.old list.new }
    ensures answer { Answered store.old (sort (remaining (parts_in store.old left))) store.new result }
{
    if left.count == 1 {
        return Ok(store.number(left.at));
    }
    let sorts = store.sorts();
    list.copy(sorts.records, left);
    listed(store, SortKind::Function, list, ANEW)
}

// The Function of the sorts of pairs of the sheet and the sort `body`, put together in `list`; `near` may be its number.
pub fn lambda(
    store: &mut Store<'_>,
    sheet: &ReadSheet<'_>,
    pairs: Span,
    list: &mut Args<'_>,
    body: usize,
    near: usize,
) -> Row
    requires { LambdaAsked store.old sheet.now pairs list.old body }
    ensures same { Same store.old store.new }
    ensures same_list { SameArgs list.old list.new }
    ensures answer { Answered store.old (sort (function (joined (bound_in store.old sheet.now pairs) (sort_in store.old body)))) store.new result }
{
    list.put_bindings(sheet, pairs);
    list.push(body);
    listed(store, SortKind::Function, list, near)
}
