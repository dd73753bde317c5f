// Sort::match_with of src/ast/sort.rs, on all sorts. A walk notes in `met` which pairs fit. It goes down Pars and last parts
// in a loop, so that only a part that is not the last of its list takes stack.
#![tactic(auto)]

ghost use Rattle.matching_tables.specs.Names.{SameNames, SameParams, SameMap};
ghost use Rattle.matching_with.specs.Words.{MeetWithAsked, MeetWithAnswered, TurnAsked, TurnTaken, NodeAsked, MoveTaken, MoveKeeps, CloseAsked, Closed, WithAsked, WithAnswered, WithRight, WithKept, WalkTaken, ListsAsked, ListsAnswered};

use compatible::param_eq;
use matching_tables::heads::same_head;
use matching_tables::names::Names;
use matching_tables::notes::Met;
use matching_tables::parts::{all_but_last, last};
use record::SortRecord;
use record::kinds::SortKind;
use record::numbers::Numbers;
use record::span::Span;
use store::entries::Sorts;

pub mod compatible;

// What match_with does with two sorts, by their entries.
#[derive(Clone, Copy, Debug, PartialEq, Eq)]
pub enum Turn {
    // They fit and bind nothing, or do not fit.
    Holds,
    Fails,
    // The pattern is a parameter of this name, and meets the target.
    Meets(usize),
    // The pattern is a Par: its body, and its names.
    Under(usize, Span),
    // The target is a Par of parameters: its body.
    Past(usize),
    // The parts are matched: two lists as long.
    Parts(Span, Span),
}

// What a turn of match_with comes to.
#[derive(Clone, Copy, Debug, PartialEq, Eq)]
pub enum Move {
    // It ends; whether the pattern fits.
    Ends(bool),
    // The body of a Par of the pattern is matched next; or that of a Par of the target.
    Under(usize),
    Past(usize),
    // The parts are matched next: two lists as long, with one part at least.
    Parts(Span, Span),
}

// Whether a walk down finds that the pattern fits, and how many steps down it opened the last Par of the pattern, 0 where it
// opened none.
#[derive(Clone, Copy, Debug, PartialEq, Eq)]
pub struct Walked {
    pub fits: bool,
    pub down: usize,
}

// Whether a parameter of the pattern fits the sort `target`: an unbound one is bound to it, a bound one is compared by param_eq
// and keeps its image.
pub fn meet_with(sorts: &Sorts<'_>, names: &mut Names<'_>, name: usize, target: usize) -> bool
    requires { MeetWithAsked sorts.now names.old name target }
    ensures answer { MeetWithAnswered sorts.now names.old name target names.new result }
    ensures params { SameParams names.old names.new }
    ensures same { SameNames names.old names.new }
{
    match names.look_up(name) {
        None => {
            names.bind(name, target);
            true
        }
        Some(image) => param_eq(sorts, image, target),
    }
}

// What is to be done with the pattern `p` and the target `t`: equal sorts fit; a variable meets the target if it is a
// parameter; a Par of the pattern is opened before one of the target.
pub fn next_turn(sorts: &Sorts<'_>, names: &Names<'_>, p: usize, t: usize) -> Turn
    requires { TurnAsked sorts.now names.now p t }
    ensures { TurnTaken sorts.now names.now p t result }
{
    if p == t {
        return Turn::Holds;
    }
    let a = sorts.entry(p);
    match a.kind {
        SortKind::Var => {
            if names.is_listed(a.name) {
                return Turn::Meets(a.name);
            }
            Turn::Fails
        }
        SortKind::Par => Turn::Under(a.parts.get(sorts.records, 0), a.names),
        _ => node_turn(sorts, names, a, p, t),
    }
}

// The same for a pattern that is neither a Var nor a Par, by its entry: a Par of the target is opened if all its names are
// parameters; another kind is decided by param_eq; of the same kind, fields are compared and parts matched.
pub fn node_turn(sorts: &Sorts<'_>, names: &Names<'_>, a: SortRecord, p: usize, t: usize) -> Turn
    requires { NodeAsked sorts.now names.now a p t }
    ensures { TurnTaken sorts.now names.now p t result }
{
    let c = sorts.entry(t);
    if c.kind == SortKind::Par {
        if names.all_listed(sorts.records, c.names) {
            return Turn::Past(c.parts.get(sorts.records, 0));
        }
        return Turn::Fails;
    }
    if a.kind != c.kind {
        if param_eq(sorts, p, t) {
            return Turn::Holds;
        }
        return Turn::Fails;
    }
    if same_head(a, c) {
        return Turn::Parts(a.parts, c.parts);
    }
    Turn::Fails
}

// One turn on the pattern `p` and the target `t`, past the pairs noted in `met`: what is found if it ends here, else what
// is matched next, and then no name is bound. Under a Par of the pattern, whose names it lists, other names are parameters, so
// nothing is noted there.
pub fn take_turn(
    sorts: &Sorts<'_>,
    names: &mut Names<'_>,
    met: &mut Met,
    p: usize,
    t: usize,
) -> Move
    requires { WithAsked sorts.now names.old p t × WithRight sorts.now names.old met.old }
    ensures kept { MoveKeeps names.old names.new result }
    ensures done { MoveTaken sorts.now names.old p t names.new met.new result }
    ensures same { SameNames names.old names.new }
{
    if met.is_met(p, t) {
        return Move::Ends(true);
    }
    match next_turn(sorts, names, p, t) {
        Turn::Holds => Move::Ends(true),
        Turn::Fails => Move::Ends(false),
        Turn::Meets(name) => Move::Ends(meet_with(sorts, names, name, t)),
        Turn::Under(body, listed) => {
            met.forget();
            names.list(sorts.records, listed);
            Move::Under(body)
        }
        Turn::Past(body) => Move::Past(body),
        Turn::Parts(list, other) => {
            if list.count == 0 {
                return Move::Ends(true);
            }
            Move::Parts(list, other)
        }
    }
}

// Takes the names of the Pars among the first `steps` sorts on the way from `p` down last parts off the table again.
pub fn close_pars(sorts: &Sorts<'_>, names: &mut Names<'_>, p: usize, steps: usize)
    requires { CloseAsked sorts.now names.old p steps }
    ensures closed { Closed sorts.now names.old p steps names.new }
    ensures map { SameMap names.old names.new }
    ensures same { SameNames names.old names.new }
{
    let mut k = p;
    for _i in 0..steps {
        let e = sorts.entry(k);
        names.unlist(sorts.records, e.names);
        k = last(e.parts, sorts.records);
    }
}

// Whether the pattern `p` fits the target `t`, past the pairs noted in `met`. The table `met` may be empty at the end.
#[cycle(match_with)]
pub fn match_with(
    sorts: &Sorts<'_>,
    names: &mut Names<'_>,
    met: &mut Met,
    p: usize,
    t: usize,
) -> bool
    requires { WithAsked sorts.now names.old p t × WithRight sorts.now names.old met.old }
    ensures answer { WithAnswered sorts.now names.old p t names.new result }
    ensures noted { WithKept sorts.now names.old names.new met.new result }
    ensures same { SameNames names.old names.new }
{
    let end = walk(sorts, names, met, p, t);
    if end.down == 0 {
        return end.fits;
    }
    close_pars(sorts, names, p, end.down);
    met.forget();
    end.fits
}

// The same, with the names of the opened Pars of the pattern still listed: what is found, and after how many steps down the
// last of them was opened, 0 where none was.
#[cycle(match_with)]
pub fn walk(sorts: &Sorts<'_>, names: &mut Names<'_>, met: &mut Met, p: usize, t: usize) -> Walked
    requires { WithAsked sorts.now names.old p t × WithRight sorts.now names.old met.old }
    ensures walked { WalkTaken sorts.now names.old p t names.new met.new result }
    ensures same { SameNames names.old names.new }
{
    let records = sorts.records;
    let mut a = p;
    let mut c = t;
    let mut steps = 0;
    let mut down = 0;
    loop {
        match take_turn(sorts, names, met, a, c) {
            Move::Ends(fits) => return Walked { fits, down },
            Move::Under(body) => {
                a = body;
                steps += 1;
                down = steps;
            }
            Move::Past(body) => c = body,
            Move::Parts(list, other) => {
                let patterns = all_but_last(list, records);
                let targets = all_but_last(other, records);
                if !all_with(sorts, names, met, patterns, targets) {
                    return Walked { fits: false, down };
                }
                a = last(list, records);
                c = last(other, records);
                steps += 1;
            }
        }
    }
}

// Whether each of the patterns fits the target in its place, with one map for all, past the pairs noted in `met`. Notes each
// pair that fits.
#[cycle(match_with)]
pub fn all_with(
    sorts: &Sorts<'_>,
    names: &mut Names<'_>,
    met: &mut Met,
    patterns: Numbers<'_>,
    targets: Numbers<'_>,
) -> bool
    requires { ListsAsked sorts.now names.old patterns targets × WithRight sorts.now names.old met.old }
    ensures answer { ListsAnswered sorts.now names.old patterns.entry targets.entry names.new result }
    ensures noted { WithKept sorts.now names.old names.new met.new result }
    ensures same { SameNames names.old names.new }
{
    for (p, t) in patterns.zip(targets) {
        if !match_with(sorts, names, met, p, t) {
            return false;
        }
        met.note(p, t);
    }
    true
}

// Whether each of the patterns fits the target in its place, with one map for all. The names listed are as they were.
pub fn match_all_with(
    sorts: &Sorts<'_>,
    names: &mut Names<'_>,
    patterns: Numbers<'_>,
    targets: Numbers<'_>,
) -> bool
    requires { ListsAsked sorts.now names.old patterns targets }
    ensures answer { ListsAnswered sorts.now names.old patterns.entry targets.entry names.new result }
    ensures same { SameNames names.old names.new }
{
    all_with(sorts, names, &mut Met::new(), patterns, targets)
}
