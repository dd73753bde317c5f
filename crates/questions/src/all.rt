// All questions of a sheet, in order: each record is read again at its place.
ghost use Rattle.store.specs.Changes.{Same};
ghost use Rattle.matching_tables.specs.Names.{SameNames};
ghost use Rattle.questions.specs.Words.{AtAsked, AtAnswered, AllAsked, AllAnswered};

use super::answer_question;
use matching_tables::names::Names;
use reader::Cursor;
use sheet::ReadSheet;
use store::Store;

// The answer to the question of the sheet whose record stands at `at`.
pub fn answer_at(
    store: &mut Store<'_>,
    names: &mut Names<'_>,
    sheet: &ReadSheet<'_>,
    at: usize,
) -> u32
    requires { AtAsked store.old names.old sheet.now at }
    ensures same { Same store.old store.new }
    ensures names { SameNames names.old names.new }
    ensures answer { AtAnswered store.old names.old sheet.now at store.new names.new result }
{
    let (question, _) = (Cursor { at }).question(sheet.bytes, sheet.sorts).unwrap();
    answer_question(store, names, sheet, question)
}

// Writes the answers to the questions whose places are `asked` into `answers`.
pub fn answer_all(
    store: &mut Store<'_>,
    names: &mut Names<'_>,
    sheet: &ReadSheet<'_>,
    asked: &[u16],
    answers: &mut [u32],
)
    requires { AllAsked store.old names.old sheet.now asked.now answers.old }
    ensures same { Same store.old store.new }
    ensures names { SameNames names.old names.new }
    ensures answers { AllAnswered store.old names.old sheet.now asked.now answers.old store.new names.new answers.new }
{
    for (q, at) in asked.iter().enumerate() {
        answers[q] = answer_at(store, names, sheet, usize::from(*at));
    }
}
