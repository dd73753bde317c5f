// The questions of a sheet: 0 compatible, 1 match, 2 apply, 3 match from given pairs, with the causes in the order 28, 29, 22, 23.
#![tactic(auto)]

pub mod all;
pub mod given;
pub mod images;
pub mod matched;

ghost use Rattle.std.specs.Prelude.{◌≡◌, ◌<◌};
ghost use Rattle.store.specs.Changes.{Same};
ghost use Rattle.matching_tables.specs.Names.{SameNames};
ghost use Rattle.substitution.specs.Compatible.{compatible};
ghost use Rattle.matching_tables.specs.Words.{sort_in};
ghost use Rattle.judge_rules.specs.Questions.{yes_no};
ghost use Rattle.questions.specs.Words.{QuestionAsked, QuestionAnswered};

use images::{answer_apply, sort_at};
use matched::answer_match;
use matching_tables::names::Names;
use matching_with::compatible::is_compatible;
use reader::QuestionRecord;
use record::kinds::QuestionKind;
use row_answer::code;
use sheet::ReadSheet;
use store::Store;
use store::entries::Sorts;

// Question 0: 1 where the two sorts are compatible, else 0.
pub fn answer_compatible(sorts: &Sorts<'_>, p: usize, t: usize) -> u32
    requires { (p < sorts.now.count) × (t < sorts.now.count) }
    ensures { result ≡ yes_no (compatible (sort_in sorts.now p) (sort_in sorts.now t)) }
{
    u32::from(is_compatible(sorts, p, t))
}

// The answer to the question with this record, by its kind: 1 or 0 for Compatible; for the others the code of `answer_match` and
// `answer_apply`. No name is listed or bound before and after.
pub fn answer_question(
    store: &mut Store<'_>,
    names: &mut Names<'_>,
    sheet: &ReadSheet<'_>,
    question: QuestionRecord,
) -> u32
    requires { QuestionAsked store.old names.old sheet.now question }
    ensures same { Same store.old store.new }
    ensures names { SameNames names.old names.new }
    ensures answer { QuestionAnswered store.old names.old sheet.now question store.new names.new result }
{
    match question.kind {
        QuestionKind::Compatible => {
            let p = sort_at(sheet, question.list.at);
            let t = sort_at(sheet, question.list.at + 2);
            answer_compatible(&store.sorts(), p, t)
        }
        QuestionKind::Match | QuestionKind::Continue => {
            code(answer_match(store, names, sheet, question))
        }
        QuestionKind::Apply => code(answer_apply(store, names, sheet, question)),
    }
}
