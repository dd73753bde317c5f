// The bit maps and limits of the three parts' records, by kind; the bit maps of sorts stand in the crate record.
ghost use Rattle.std.specs.Prelude.{◌≡◌, ◌&&◌, leb};
ghost use Rattle.record.specs.Kinds.{sort_number, term_number, question_number};
ghost use Rattle.record.specs.Record.{least_of, most_of};
ghost use Rattle.reader.specs.Tables.{term_map_of, term_number_of, term_least_of, term_most_of, second_least_of, second_most_of, question_map_of, question_least_of, question_most_of, names_least_of, names_most_of};

use record::kinds::{AsOp, Binder, ParamOp, QuestionKind, SortKind, TermKind};
use record::limits::{LARGEST_WIDTH, LONGEST_LIST};
use record::operators::Operator;
use record::tables::{KIND_BIT, LIST_BIT, NAME_BIT, NAMES_BIT, NUMBER_BIT, PAIRS_BIT, SORT_BIT};

// How long a list may be.
#[derive(Clone, Copy, Debug, PartialEq, Eq)]
pub struct Limits {
    pub least: usize,
    pub most: usize,
}

impl Limits {
    // Up to the longest list.
    pub const ANY: Limits = Limits {
        least: 0,
        most: LONGEST_LIST,
    };

    // No entry.
    pub const NONE: Limits = Limits { least: 0, most: 0 };

    // At least one entry.
    pub const SOME: Limits = Limits {
        least: 1,
        most: LONGEST_LIST,
    };

    // Just `count` entries.
    pub fn exactly(count: usize) -> Limits
        ensures least { result.least ≡ count }
        ensures most { result.most ≡ count }
    {
        Limits {
            least: count,
            most: count,
        }
    }

    // Whether a list may have `count` entries.
    pub fn allows(self, count: usize) -> bool
        ensures { result ≡ (leb self.least count && leb count self.most) }
    {
        self.least <= count && count <= self.most
    }
}

// How many sorts the list of a kind of sort has.
#[tactic(auto, unfolding(record::specs::Record::least_of, record::specs::Record::leasts, record::specs::Record::most_of, record::specs::Record::mosts))]
pub fn sort_limits(kind: SortKind) -> Limits
    ensures least { result.least ≡ least_of (sort_number kind) }
    ensures most { result.most ≡ most_of (sort_number kind) }
{
    match kind {
        SortKind::Function | SortKind::Atom | SortKind::Datatype | SortKind::Tuple => Limits::ANY,
        SortKind::Array => Limits::exactly(2),
        SortKind::Par | SortKind::Set => Limits::exactly(1),
        SortKind::Var
        | SortKind::Bool
        | SortKind::Int
        | SortKind::Real
        | SortKind::String
        | SortKind::RegLan
        | SortKind::BitVec
        | SortKind::ParamBitVec
        | SortKind::Type => Limits::NONE,
    }
}

// The bit map of a kind of term.
#[tactic(auto, unfolding(crate::specs::Tables::term_map_of, crate::specs::Tables::term_maps))]
pub fn term_map_of(kind: TermKind) -> usize
    ensures { result ≡ term_map_of (term_number kind) }
{
    match kind {
        TermKind::Integer | TermKind::BitVector => KIND_BIT | NUMBER_BIT,
        TermKind::Real | TermKind::String | TermKind::RegLan => KIND_BIT,
        TermKind::Var => KIND_BIT | NAME_BIT | SORT_BIT,
        TermKind::App | TermKind::Match => KIND_BIT | LIST_BIT,
        TermKind::Op => KIND_BIT | NUMBER_BIT | LIST_BIT,
        TermKind::Binder => KIND_BIT | NUMBER_BIT | LIST_BIT | PAIRS_BIT,
        TermKind::Let => KIND_BIT | LIST_BIT | NAMES_BIT,
        TermKind::ParamOp => KIND_BIT | NUMBER_BIT | LIST_BIT | NAMES_BIT,
        TermKind::AsOp => KIND_BIT | NUMBER_BIT | SORT_BIT | LIST_BIT,
    }
}

// The greatest number of a kind of term: every u32 of an integer constant, every width of a bit-vector constant, else the last
// operator or binder of the kind.
#[tactic(auto, unfolding(crate::specs::Tables::term_number_of, crate::specs::Tables::term_numbers))]
pub fn term_number_of(kind: TermKind) -> usize
    ensures { result ≡ term_number_of (term_number kind) }
{
    match kind {
        TermKind::Integer => u32::MAX as usize,
        TermKind::BitVector => LARGEST_WIDTH,
        TermKind::Op => Operator::RelProduct as usize,
        TermKind::Binder => Binder::Lambda as usize,
        TermKind::ParamOp => ParamOp::ReLoop as usize,
        TermKind::AsOp => AsOp::SetUniverse as usize,
        TermKind::Real
        | TermKind::String
        | TermKind::RegLan
        | TermKind::Var
        | TermKind::App
        | TermKind::Let
        | TermKind::Match => 0,
    }
}

// How many terms the list of a kind of term has.
#[tactic(auto, unfolding(crate::specs::Tables::term_least_of, crate::specs::Tables::term_leasts, crate::specs::Tables::term_most_of, crate::specs::Tables::term_mosts))]
pub fn term_limits(kind: TermKind) -> Limits
    ensures least { result.least ≡ term_least_of (term_number kind) }
    ensures most { result.most ≡ term_most_of (term_number kind) }
{
    match kind {
        TermKind::App | TermKind::Let | TermKind::Match => Limits::SOME,
        TermKind::Binder => Limits::exactly(1),
        TermKind::Op | TermKind::ParamOp | TermKind::AsOp => Limits::ANY,
        TermKind::Integer
        | TermKind::Real
        | TermKind::String
        | TermKind::RegLan
        | TermKind::BitVector
        | TermKind::Var => Limits::NONE,
    }
}

// How many entries the second list of a kind of term has beside a list of `count`: one less for a Let, which has a name for each value
// beside its inner term; else any.
#[tactic(auto, unfolding(crate::specs::Tables::second_least_of, crate::specs::Tables::second_most_of))]
pub fn second_limits(kind: TermKind, count: usize) -> Limits
    ensures least { result.least ≡ second_least_of (term_number kind) count }
    ensures most { result.most ≡ second_most_of (term_number kind) count }
{
    match kind {
        TermKind::Let => Limits::exactly(count.saturating_sub(1)),
        _ => Limits::ANY,
    }
}

// The bit map of a kind of question.
#[tactic(auto, unfolding(crate::specs::Tables::question_map_of, crate::specs::Tables::question_maps))]
pub fn question_map_of(kind: QuestionKind) -> usize
    ensures { result ≡ question_map_of (question_number kind) }
{
    match kind {
        QuestionKind::Compatible => KIND_BIT | LIST_BIT,
        QuestionKind::Match | QuestionKind::Apply => KIND_BIT | LIST_BIT | NAMES_BIT,
        QuestionKind::Continue => KIND_BIT | LIST_BIT | PAIRS_BIT | NAMES_BIT,
    }
}

// How many sorts the list of a kind of question has.
#[tactic(auto, unfolding(crate::specs::Tables::question_least_of, crate::specs::Tables::question_leasts, crate::specs::Tables::question_most_of, crate::specs::Tables::question_mosts))]
pub fn question_limits(kind: QuestionKind) -> Limits
    ensures least { result.least ≡ question_least_of (question_number kind) }
    ensures most { result.most ≡ question_most_of (question_number kind) }
{
    match kind {
        QuestionKind::Compatible => Limits::exactly(2),
        QuestionKind::Match | QuestionKind::Continue => Limits::exactly(3),
        QuestionKind::Apply => Limits::SOME,
    }
}

// How many names a kind of question has beside a list of `count` sorts: one less for an Apply, which has an image for each name beside
// its sort; else any.
#[tactic(auto, unfolding(crate::specs::Tables::names_least_of, crate::specs::Tables::names_most_of))]
pub fn names_limits(kind: QuestionKind, count: usize) -> Limits
    ensures least { result.least ≡ names_least_of (question_number kind) count }
    ensures most { result.most ≡ names_most_of (question_number kind) count }
{
    match kind {
        QuestionKind::Apply => Limits::exactly(count.saturating_sub(1)),
        _ => Limits::ANY,
    }
}
