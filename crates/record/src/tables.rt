// The bit map of each kind of sort record, and the bits of a map.
ghost use Rattle.std.specs.Prelude.{◌≡◌, ◌<◌};
ghost use Rattle.record.specs.Record.{bit, map_of};
ghost use Rattle.record.specs.Kinds.{sort_number};

use super::kinds::SortKind;

// The weights of the bits of a map, in the order of the fields: the kind, the name, the number, a term's own sort, the list, a
// term's pairs, the names or the second list of a term, and the tree size of a sort.
pub const KIND_BIT: usize = 1;

pub const NAME_BIT: usize = 2;

pub const NUMBER_BIT: usize = 4;

pub const SORT_BIT: usize = 8;

pub const LIST_BIT: usize = 16;

pub const PAIRS_BIT: usize = 32;

pub const NAMES_BIT: usize = 64;

pub const SIZE_BIT: usize = 128;

// Whether the bit of this weight stands in the map.
#[tactic(auto, unfolding(crate::specs::Record::bit))]
pub fn has_bit(map: usize, weight: usize) -> bool
    requires { 0 < weight }
    ensures { result ≡ bit weight map }
{
    map / weight % 2 == 1
}

// The bit map of a kind of sort.
#[tactic(auto, unfolding(crate::specs::Record::map_of, crate::specs::Record::maps))]
pub fn map_of(kind: SortKind) -> usize
    ensures { result ≡ map_of (sort_number kind) }
{
    match kind {
        SortKind::Function | SortKind::Array | SortKind::Set | SortKind::Tuple => {
            KIND_BIT | LIST_BIT
        }
        SortKind::Atom | SortKind::Datatype => KIND_BIT | NAME_BIT | LIST_BIT,
        SortKind::Var => KIND_BIT | NAME_BIT,
        SortKind::BitVec => KIND_BIT | NUMBER_BIT,
        SortKind::Par => KIND_BIT | LIST_BIT | NAMES_BIT,
        SortKind::Bool
        | SortKind::Int
        | SortKind::Real
        | SortKind::String
        | SortKind::RegLan
        | SortKind::ParamBitVec
        | SortKind::Type => KIND_BIT,
    }
}
