// The form of a sort's text: its word, what stands between the word and the parts, and its bracket.
#![tactic(auto, unfolding(crate::specs::Pieces::form_of, crate::specs::Pieces::words, crate::specs::Pieces::word_text, crate::specs::Pieces::closes, crate::specs::Pieces::close_text, crate::specs::Pieces::frames, crate::specs::Pieces::inners))]

ghost use Rattle.std.specs.Prelude.{◌≡◌, get_or};
ghost use Rattle.printout_sort.specs.Pieces.{form_of, word_text, close_text, frames, inners};
ghost use Rattle.printout_sort.specs.Forms.{form_number, inner_number, bracket_of};
ghost use Rattle.record.specs.Kinds.{sort_number};

use record::kinds::SortKind;

// The form of a kind, or that of an Atom without parts, which has no brackets.
#[derive(Clone, Copy, Debug, PartialEq, Eq)]
pub enum Form {
    Of(SortKind),
    BareAtom,
}

// What stands between the word and the parts of a form: nothing, its name, its number, or its names and a bracket.
#[derive(Clone, Copy, Debug, PartialEq, Eq)]
pub enum Inner {
    Nothing,
    Name,
    Number,
    Names,
}

// The form of the text of a sort with so many parts.
pub fn form_of(kind: SortKind, parts: usize) -> Form
    ensures { form_number result ≡ form_of (sort_number kind) parts }
{
    if kind == SortKind::Atom && parts == 0 {
        Form::BareAtom
    } else {
        Form::Of(kind)
    }
}

impl Form {
    // What the text starts with.
    pub fn word(self) -> &'static [u8]
        ensures { result.now ≡ word_text (form_number self) }
    {
        match self {
            Form::BareAtom => b"",
            Form::Of(SortKind::Function) => b"(->",
            Form::Of(SortKind::Atom) => b"(",
            Form::Of(SortKind::Var) => b"'",
            Form::Of(SortKind::Bool) => b"Bool",
            Form::Of(SortKind::Int) => b"Int",
            Form::Of(SortKind::Real) => b"Real",
            Form::Of(SortKind::String) => b"String",
            Form::Of(SortKind::RegLan) => b"RegLan",
            Form::Of(SortKind::Array) => b"(Array",
            Form::Of(SortKind::BitVec) => b"(_ BitVec ",
            Form::Of(SortKind::ParamBitVec) => b"(_ BitVec ?)",
            Form::Of(SortKind::Datatype) => b"[",
            Form::Of(SortKind::Par) => b"(par (",
            Form::Of(SortKind::Type) => b"Type",
            Form::Of(SortKind::Set) => b"(Set",
            Form::Of(SortKind::Tuple) => b"(Tuple",
        }
    }

    // What stands between the word and the parts.
    pub fn inner(self) -> Inner
        ensures { inner_number result ≡ get_or inners (form_number self) 0 }
    {
        match self {
            Form::BareAtom | Form::Of(SortKind::Atom | SortKind::Var | SortKind::Datatype) =>
                Inner::Name,
            Form::Of(SortKind::BitVec) => Inner::Number,
            Form::Of(SortKind::Par) => Inner::Names,
            Form::Of(_) => Inner::Nothing,
        }
    }

    // The bracket that closes the text, if one does.
    pub fn close(self) -> Option<u8>
        ensures { bracket_of result ≡ close_text (form_number self) }
    {
        match self {
            Form::Of(
                SortKind::Function
                | SortKind::Atom
                | SortKind::Array
                | SortKind::BitVec
                | SortKind::Par
                | SortKind::Set
                | SortKind::Tuple,
            ) => Some(b')'),
            Form::Of(SortKind::Datatype) => Some(b']'),
            Form::BareAtom | Form::Of(_) => None,
        }
    }

    // The length of the word and the bracket.
    pub fn frame_size(self) -> usize
        ensures { result ≡ get_or frames (form_number self) 0 }
    {
        self.word().len() + usize::from(self.close().is_some())
    }
}
