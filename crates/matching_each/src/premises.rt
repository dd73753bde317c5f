// What is asked of sorts before matching: known (no Par, no ParamBitVec), proper (no Par, Type, ParamBitVec or BitVec 0),
// unlisted (no listed name), a target's two, and matching's premise. Each is a test of every node, with a table of the sorts found
// so.
ghost use Rattle.std.specs.Prelude.{◌≡◌, ◌<◌};
ghost use Rattle.substitution.specs.Matching.{known};
ghost use Rattle.substitution.specs.Premises.{proper};
ghost use Rattle.matching_tables.specs.Words.{sort_in};
ghost use Rattle.matching_each.specs.Words.{KnownSeen, UnlistedSeen, UnlistedAsked, UnlistedAnswered, TargetAsked, TargetAnswered, PremiseAsked, PremiseAnswered};

use super::each::each;
use super::nodes::{known, proper, unlisted};
use matching_tables::names::Names;
use matching_tables::notes::Seen;
use store::entries::Sorts;

// Whether the sort `k` has neither a Par nor a ParamBitVec in it.
pub fn is_known(sorts: &Sorts<'_>, seen: &mut Seen, k: usize) -> bool
    requires { (k < sorts.now.count) × KnownSeen sorts.now seen.old }
    ensures { (result ≡ known (sort_in sorts.now k)) × KnownSeen sorts.now seen.new }
{
    each(sorts, &known, seen, k)
}

// Whether the sort `k` has no Par, Type, ParamBitVec or BitVec 0 in it. A sort without parts is tested by its entry, with no walk.
pub fn is_proper(sorts: &Sorts<'_>, k: usize) -> bool
    requires { k < sorts.now.count }
    ensures { result ≡ proper (sort_in sorts.now k) }
{
    let a = sorts.entry(k);
    if a.parts.count == 0 {
        return proper(a);
    }
    let mut seen = Seen::new();
    each(sorts, &proper, &mut seen, k)
}

// Whether no listed name stands in the sort `k`.
pub fn is_unlisted(sorts: &Sorts<'_>, names: &Names<'_>, seen: &mut Seen, k: usize) -> bool
    requires { UnlistedAsked sorts.now names.now k × UnlistedSeen sorts.now names.now seen.old }
    ensures { UnlistedAnswered sorts.now names.now k result × UnlistedSeen sorts.now names.now seen.new }
{
    each(sorts, &|a| unlisted(names, sorts.records, a), seen, k)
}

// Whether the sort `k` may be a target: it is known, and no listed name stands in it.
pub fn is_target(
    sorts: &Sorts<'_>,
    names: &Names<'_>,
    seen: &mut Seen,
    free: &mut Seen,
    k: usize,
) -> bool
    requires { TargetAsked sorts.now names.now seen.old free.old k }
    ensures { TargetAnswered sorts.now names.now k seen.new free.new result }
{
    is_known(sorts, seen, k) && is_unlisted(sorts, names, free, k)
}

// Matching's premise for the pattern `p` and the target `t`: the pattern is known, and the target may be one.
pub fn in_premise(sorts: &Sorts<'_>, names: &Names<'_>, p: usize, t: usize) -> bool
    requires { PremiseAsked sorts.now names.now p t }
    ensures { PremiseAnswered sorts.now names.now p t result }
{
    let mut seen = Seen::new();
    let mut free = Seen::new();
    is_known(sorts, &mut seen, p) && is_target(sorts, names, &mut seen, &mut free, t)
}
