// Sort::is_compatible of src/ast/sort.rs, with Sort::param_eq. A walk notes in `met` which pairs of parts are compatible,
// and goes down no pair that is noted there. It calls itself only for a part that is not the last of its list: with the
// last part, and with the body of a Par, it goes on in a loop.
ghost use Rattle.std.specs.Prelude.{◌≡◌, ◌<◌};
ghost use Rattle.substitution.specs.MatchWith.{param_eq};
ghost use Rattle.substitution.specs.Compatible.{compatible, compatible_all};
ghost use Rattle.matching_tables.specs.Words.{sort_in};
ghost use Rattle.matching_with.specs.Words.{sorts_in, ListsIn, CompatibleMet, FitTaken};

use matching_tables::heads::same_head;
use matching_tables::notes::Met;
use matching_tables::parts::{all_but_last, last};
use record::kinds::SortKind;
use record::numbers::Numbers;
use record::span::Span;
use store::entries::Sorts;

// What is done with two sorts, by their entries.
#[derive(Clone, Copy, Debug, PartialEq, Eq)]
pub enum Compared {
    // They are compatible, or not.
    Holds,
    Fails,
    // They are if these two are.
    On(usize, usize),
    // They are if their parts are: two lists as long, with one part at least.
    Parts(Span, Span),
}

// Sort::param_eq: two sorts are equal, or one is a ParamBitVec and the other a vector.
pub fn param_eq(sorts: &Sorts<'_>, p: usize, t: usize) -> bool
    requires { (p < sorts.now.count) × (t < sorts.now.count) }
    ensures { result ≡ param_eq (sort_in sorts.now p) (sort_in sorts.now t) }
{
    if p == t {
        return true;
    }
    let other = sorts.kind(t);
    match sorts.kind(p) {
        SortKind::ParamBitVec => other == SortKind::BitVec || other == SortKind::ParamBitVec,
        SortKind::BitVec => other == SortKind::ParamBitVec,
        _ => false,
    }
}

// Whether two sorts are compatible: a Var fits everything; a Par on the left is opened before one on the right; two
// others fit by param_eq, or field by field.
pub fn is_compatible(sorts: &Sorts<'_>, p: usize, t: usize) -> bool
    requires { (p < sorts.now.count) × (t < sorts.now.count) }
    ensures { result ≡ compatible (sort_in sorts.now p) (sort_in sorts.now t) }
{
    compatible_past(sorts, &mut Met::new(), p, t)
}

// What is done with two sorts. `Holds`: one is a Var, they are noted in `met` or equal by param_eq, or have the same head
// and no parts. `Fails`: their heads differ. `On`: one is a Par, which is opened, on the left before the right. `Parts`: they
// have the same head, and parts.
pub fn next_fit(sorts: &Sorts<'_>, met: &Met, p: usize, t: usize) -> Compared
    requires { (p < sorts.now.count) × (t < sorts.now.count) × CompatibleMet sorts.now met.now }
    ensures { FitTaken sorts.now p t result }
{
    let a = sorts.entry(p);
    if a.kind == SortKind::Var {
        return Compared::Holds;
    }
    if a.kind == SortKind::Par {
        return Compared::On(a.parts.get(sorts.records, 0), t);
    }
    if met.is_met(p, t) {
        return Compared::Holds;
    }
    let b = sorts.entry(t);
    if b.kind == SortKind::Var {
        return Compared::Holds;
    }
    if b.kind == SortKind::Par {
        return Compared::On(p, b.parts.get(sorts.records, 0));
    }
    if param_eq(sorts, p, t) {
        return Compared::Holds;
    }
    if !same_head(a, b) {
        return Compared::Fails;
    }
    if a.parts.count == 0 {
        return Compared::Holds;
    }
    Compared::Parts(a.parts, b.parts)
}

// As `is_compatible`, past the pairs noted in `met`.
#[cycle(compatible_past)]
pub fn compatible_past(sorts: &Sorts<'_>, met: &mut Met, p: usize, t: usize) -> bool
    requires { (p < sorts.now.count) × (t < sorts.now.count) × CompatibleMet sorts.now met.old }
    ensures answer { result ≡ compatible (sort_in sorts.now p) (sort_in sorts.now t) }
    ensures noted { CompatibleMet sorts.now met.new }
{
    let records = sorts.records;
    let mut k = p;
    let mut j = t;
    loop {
        match next_fit(sorts, met, k, j) {
            Compared::Holds => return true,
            Compared::Fails => return false,
            Compared::On(i, l) => {
                k = i;
                j = l;
            }
            Compared::Parts(list, other) => {
                let lefts = all_but_last(list, records);
                let rights = all_but_last(other, records);
                if !all_compatible(sorts, met, lefts, rights) {
                    return false;
                }
                k = last(list, records);
                j = last(other, records);
            }
        }
    }
}

// Whether sorts are compatible, one by one, with others. The pairs that are, up to the first that is not, are noted.
#[cycle(compatible_past)]
pub fn all_compatible(
    sorts: &Sorts<'_>,
    met: &mut Met,
    lefts: Numbers<'_>,
    rights: Numbers<'_>,
) -> bool
    requires { ListsIn sorts.now lefts rights × CompatibleMet sorts.now met.old }
    ensures answer { result ≡ compatible_all (sorts_in sorts.now lefts.entry) (sorts_in sorts.now rights.entry) }
    ensures noted { CompatibleMet sorts.now met.new }
{
    for (p, t) in lefts.zip(rights) {
        if !compatible_past(sorts, met, p, t) {
            return false;
        }
        met.note(p, t);
    }
    true
}
