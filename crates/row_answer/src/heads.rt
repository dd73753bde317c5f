// The head of an application.
ghost use Rattle.row_answer.specs.Heads.{HeadAsks, HeadHas};

use record::kinds::SortKind;
use record::span::Span;
use store::entries::Entries;

// A Function at the head of an App: the list of its sorts, and the names of the Par over it, none without a Par.
#[derive(Clone, Copy, Debug, PartialEq, Eq)]
pub struct Callee {
    pub list: Span,
    pub names: Span,
}

// The Function that the sort k is, or the one directly under the Par that it is; None where it is neither.
pub fn head_of(entries: Entries<'_>, k: usize) -> Option<Callee>
    requires { HeadAsks entries.records.now entries.places.now k }
    ensures { HeadHas entries.entry.records.now entries.entry.places.now k result }
{
    let a = entries.entry(k);
    if a.kind == SortKind::Function {
        let names = Span { at: 0, count: 0 };
        return Some(Callee {
            list: a.parts,
            names,
        });
    }
    if a.kind != SortKind::Par {
        return None;
    }
    let b = entries.entry(entries.number(a.parts.at));
    if b.kind != SortKind::Function {
        return None;
    }
    Some(Callee {
        list: b.parts,
        names: a.names,
    })
}
