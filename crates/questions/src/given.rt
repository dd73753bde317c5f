// The pairs of name and sort that a question gives beside its parameters: whether each sort may be given, matching's premise with
// them, and the names bound.
ghost use Rattle.matching_tables.specs.Names.{SameNames, SameParams};
ghost use Rattle.questions.specs.Words.{GivenTestAsked, GivenTestAnswered, AllTestAsked, AllTestAnswered, GiveAsked, GiveAnswered};

use super::images::sort_at;
use matching_each::premises::{in_premise, is_target};
use matching_tables::names::Names;
use matching_tables::notes::Seen;
use record::span::Span;
use record::u16_at;
use sheet::ReadSheet;
use store::entries::Sorts;

// The bytes of a pair, and those of its name.
const PAIR_LENGTH: usize = 4;

const NAME_LENGTH: usize = 2;

// Whether each given sort may be a target. Without pairs there is nothing to note.
pub fn given_in_premise(
    sorts: &Sorts<'_>,
    names: &Names<'_>,
    sheet: &ReadSheet<'_>,
    given: Span,
) -> bool
    requires { GivenTestAsked sorts.now names.now sheet.now given }
    ensures { GivenTestAnswered sorts.now names.now sheet.now given result }
{
    if given.count == 0 {
        return true;
    }
    let mut seen = Seen::new();
    let mut free = Seen::new();
    for i in 0..given.count {
        let k = sort_at(sheet, given.at + PAIR_LENGTH * i + NAME_LENGTH);
        if !is_target(sorts, names, &mut seen, &mut free, k) {
            return false;
        }
    }
    true
}

// Matching's premise for the pattern and the target, and each given sort may be a target.
pub fn all_in_premise(
    sorts: &Sorts<'_>,
    names: &Names<'_>,
    sheet: &ReadSheet<'_>,
    pattern: usize,
    target: usize,
    given: Span,
) -> bool
    requires { AllTestAsked sorts.now names.now sheet.now pattern target given }
    ensures { AllTestAnswered sorts.now names.now sheet.now pattern target given result }
{
    in_premise(sorts, names, pattern, target) && given_in_premise(sorts, names, sheet, given)
}

// Binds each given name to its sort, the last first, where no name is bound.
pub fn give(names: &mut Names<'_>, sheet: &ReadSheet<'_>, given: Span)
    requires { GiveAsked names.old sheet.now given }
    ensures given { GiveAnswered sheet.now given names.new }
    ensures params { SameParams names.old names.new }
    ensures same { SameNames names.old names.new }
{
    for i in (0..given.count).rev() {
        let at = given.at + PAIR_LENGTH * i;
        let image = sort_at(sheet, at + NAME_LENGTH);
        names.bind(u16_at(sheet.bytes, at), image);
    }
}
