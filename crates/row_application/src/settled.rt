// Whether every listed name left in sorts is bound. The walk notes in `seen` the sorts of which it found so, and goes down
// no sort that is noted there.
ghost use Rattle.row_application.specs.Words.{SettledAsked, SettledNotes, SettledFound};

use matching_each::each::all_each;
use matching_each::nodes::settled;
use matching_tables::names::Names;
use matching_tables::notes::Seen;
use record::span::Span;
use store::entries::Sorts;

// Whether every variable of the sorts that the store names in `list` is bound, where its name is listed; the names of a Par are not
// looked at.
pub fn all_settled(sorts: &Sorts<'_>, names: &Names<'_>, seen: &mut Seen, list: Span) -> bool
    requires asked { SettledAsked sorts.now names.now list }
    requires noted { SettledNotes sorts.now names.now seen.old.slots }
    ensures found { SettledFound sorts.now names.now list result }
    ensures noted { SettledNotes sorts.now names.now seen.new.slots }
{
    all_each(sorts, &|a| settled(names, sorts.records, a), seen, list)
}
