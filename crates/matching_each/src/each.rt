// One walk for every test of a sort's nodes: whether each node passes. It goes down no sort that is noted in `seen`, and notes
// there sorts whose nodes all pass. A list is walked in a loop, which goes on with the parts of its last sort; only the parts of
// a sort that is not the last are walked by a call, and only such a sort is noted, besides the first.
ghost use Rattle.matching_each.specs.Words.{EachAsked, EachAnswered, AllEachAsked, AllEachAnswered};

use matching_tables::notes::Seen;
use record::SortRecord;
use record::span::Span;
use store::entries::Sorts;

// Whether each node of the sort `k` passes the test.
pub fn each<F: Fn(SortRecord) -> bool>(
    sorts: &Sorts<'_>,
    passes: &F,
    seen: &mut Seen,
    k: usize,
) -> bool
    requires { EachAsked sorts.now (F.pre passes.now) k }
    ensures { EachAnswered sorts.now (F.post passes.now) seen.old k seen.new result }
{
    let a = sorts.entry(k);
    if !passes(a) {
        return false;
    }
    if a.parts.count == 0 || seen.is_noted(k) {
        return true;
    }
    if !all_each(sorts, passes, seen, a.parts) {
        return false;
    }
    seen.note(k);
    true
}

// Whether each node of the sorts that the store names in a span passes the test. A sort without parts, or noted, is done with;
// the parts of the last sort are walked in the loop, those of any other by a call.
pub fn all_each<F: Fn(SortRecord) -> bool>(
    sorts: &Sorts<'_>,
    passes: &F,
    seen: &mut Seen,
    list: Span,
) -> bool
    requires { AllEachAsked sorts.now (F.pre passes.now) list }
    ensures { AllEachAnswered sorts.now (F.post passes.now) seen.old list seen.new result }
{
    let mut left = list.numbers(sorts.records);
    while let Some(k) = left.next() {
        let a = sorts.entry(k);
        if !passes(a) {
            return false;
        }
        if a.parts.count == 0 || seen.is_noted(k) {
            continue;
        }
        if left.bytes.is_empty() {
            left = a.parts.numbers(sorts.records);
            continue;
        }
        if !all_each(sorts, passes, seen, a.parts) {
            return false;
        }
        seen.note(k);
    }
    true
}
