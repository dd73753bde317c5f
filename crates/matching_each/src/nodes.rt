// What is asked of a node, by its entry: its parts are not looked at. The answer goes by the fields alone, whether the record is the
// entry of a sort or not.
ghost use Rattle.std.specs.Prelude.{◌≡◌, []};
ghost use Rattle.matching_each.specs.Every.{Known, Proper, Unlisted, Settled, Parless, PassAsks, PassIs, on_record};
ghost use Rattle.matching_each.specs.Words.{NodePasses};

use matching_tables::names::Names;
use record::SortRecord;
use record::kinds::SortKind;

// Whether it is neither a Par nor a ParamBitVec.
pub fn known(a: SortRecord) -> bool
    ensures fields { result ≡ on_record Known [] [] [] a }
    ensures node { NodePasses Known a result }
{
    !matches!(a.kind, SortKind::Par | SortKind::ParamBitVec)
}

// Whether it is no Par, Type, ParamBitVec or BitVec 0.
pub fn proper(a: SortRecord) -> bool
    ensures fields { result ≡ on_record Proper [] [] [] a }
    ensures node { NodePasses Proper a result }
{
    match a.kind {
        SortKind::Par | SortKind::ParamBitVec | SortKind::Type => false,
        SortKind::BitVec => a.number != 0,
        _ => true,
    }
}

// Whether it is no Par.
pub fn parless(a: SortRecord) -> bool
    ensures fields { result ≡ on_record Parless [] [] [] a }
    ensures node { NodePasses Parless a result }
{
    a.kind != SortKind::Par
}

// Whether it has no listed name: a Var's own, those of a Par.
pub fn unlisted(names: &Names<'_>, records: &[u8], a: SortRecord) -> bool
    requires { PassAsks Unlisted names.now.params.now [] records.now a }
    ensures fields { result ≡ on_record Unlisted names.now.params.now [] records.now a }
    ensures node { PassIs Unlisted names.now.params.now [] records.now a result }
{
    match a.kind {
        SortKind::Var => !names.is_listed(a.name),
        SortKind::Par => names.none_listed(records, a.names),
        _ => true,
    }
}

// Whether it is no Var whose name is listed and not bound.
pub fn settled(names: &Names<'_>, records: &[u8], a: SortRecord) -> bool
    requires { PassAsks Settled names.now.params.now names.now.images.now records.now a }
    ensures fields { result ≡ on_record Settled names.now.params.now names.now.images.now records.now a }
    ensures node { PassIs Settled names.now.params.now names.now.images.now records.now a result }
{
    match a.kind {
        SortKind::Var => !names.is_listed(a.name) || names.is_bound(a.name),
        _ => true,
    }
}
