// Two records of sorts without their lists.
ghost use Rattle.std.specs.Prelude.{◌≡◌};
ghost use Rattle.matching_tables.specs.Usable.{same_head};

use record::SortRecord;

// Whether two records have the same kind, name and number, and lists as long.
pub fn same_head(p: SortRecord, t: SortRecord) -> bool
    ensures { result ≡ same_head p t }
{
    (p.kind, p.name, p.number, p.parts.count) == (t.kind, t.name, t.number, t.parts.count)
}
