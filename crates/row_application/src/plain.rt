// The checked sort of an App whose head is a Function without parameters: an argument fits a sort of the head's list exactly
// if it is that sort and no Par stands in it. The test for a Par notes in `seen` the sorts that it found free of one, and goes
// down no sort that is noted there.
ghost use Rattle.store.specs.Changes.{Same};
ghost use Rattle.std.specs.Prelude.{◌≡◌};
ghost use Rattle.record.specs.Decode.{sort_at};
ghost use Rattle.substitution.specs.Premises.{parless};
ghost use Rattle.row_application.specs.Words.{ParlessAsked, ParlessNotes, ExactAsked, ExactFound, PlainAsked, PlainAnswered};

use matching_each::each::each;
use matching_each::nodes::parless;
use matching_tables::notes::Seen;
use record::limits::LONGEST_LISTED;
use record::span::Span;
use row_answer::arguments::Args;
use row_answer::lists::remaining;
use row_rules::{Cause, Row};
use store::Store;
use store::entries::Sorts;

// Whether no Par stands in the sort `k`. One of tree size 1 has no parts and is no Par, and needs no walk.
pub fn is_parless(sorts: &Sorts<'_>, used: usize, seen: &mut Seen, k: usize) -> bool
    requires asked { ParlessAsked sorts.now used k }
    requires noted { ParlessNotes sorts.now seen.old.slots }
    ensures answer { result ≡ parless (sort_at sorts.now.records.now sorts.now.places.now sorts.now.count k) }
    ensures noted { ParlessNotes sorts.now seen.new.slots }
{
    sorts.entries().size(sorts.count, used, k) == 1 || each(sorts, &parless, seen, k)
}

// Whether the arguments are the first sorts that the store names in `list`, and no Par stands in them. A sort that stands again behind
// itself is asked about once.
pub fn all_exact(sorts: &Sorts<'_>, used: usize, list: Span, args: &Args<'_>) -> bool
    requires { ExactAsked sorts.now used list args.now }
    ensures { ExactFound sorts.now list args.now result }
{
    let mut seen = Seen::new();
    let wanted = list.numbers(sorts.records);
    let arguments = args.rest().numbers(args.bytes);
    let mut last = None;
    for (sort, argument) in wanted.zip(arguments) {
        if sort != argument {
            return false;
        }
        if last != Some(sort) && !is_parless(sorts, used, &mut seen, sort) {
            return false;
        }
        last = Some(sort);
    }
    true
}

// What remains of a head's sorts, those that the store names in `list`, at fewer arguments: the last one by itself, or the Function of
// them, found or added, Limit or Full; Misfit where an argument is not the sort in its place, or a Par stands in it.
pub fn checked_plain(store: &mut Store<'_>, list: Span, args: &Args<'_>) -> Row
    requires { PlainAsked store.old list args.now }
    ensures same { Same store.old store.new }
    ensures answer { PlainAnswered store.old list args.now store.new result }
{
    let n = args.count - 1;
    let first = Span { count: n, ..list };
    let used = store.used;
    if !all_exact(&store.sorts(), used, first, args) {
        return Err(Cause::Misfit);
    }
    let mut bytes = [0u8; LONGEST_LISTED];
    let mut rec = Args {
        bytes: &mut bytes,
        count: 0,
    };
    remaining(store, &mut rec, list.skip(n))
}
