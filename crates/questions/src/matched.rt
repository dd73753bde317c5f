// Questions 1 and 3: the result after Substitution by the assignment that turns the pattern into the target, and that keeps the pairs
// that question 3 gives; question 1 gives none.
ghost use Rattle.store.specs.Changes.{Same};
ghost use Rattle.matching_tables.specs.Names.{SameNames};
ghost use Rattle.questions.specs.Words.{ListedAsked, ListedAnswered, MatchAsked, MatchAnswered};

use super::given::{all_in_premise, give};
use super::images::sort_at;
use matching::matches;
use matching_tables::names::Names;
use reader::QuestionRecord;
use record::span::Span;
use row_instance::instance;
use row_rules::{Cause, Row};
use sheet::ReadSheet;
use store::Store;

// With its names listed: Barred outside matching's premise, a given sort outside the target's included; NoAssignment where the
// pattern does not fit from the given pairs; else the result with the assignment applied, found or added, Limit or Full. No name is
// bound before and after.
pub fn match_listed(
    store: &mut Store<'_>,
    names: &mut Names<'_>,
    sheet: &ReadSheet<'_>,
    pattern: usize,
    target: usize,
    res: usize,
    given: Span,
) -> Row
    requires { ListedAsked store.old names.old sheet.now pattern target res given }
    ensures same { Same store.old store.new }
    ensures names { SameNames names.old names.new }
    ensures answer { ListedAnswered store.old names.old sheet.now pattern target res given store.new names.new result }
{
    names.start();
    let sorts = store.sorts();
    if !all_in_premise(&sorts, names, sheet, pattern, target, given) {
        return Err(Cause::Barred);
    }
    give(names, sheet, given);
    if !matches(&sorts, names, pattern, target) {
        names.clear();
        return Err(Cause::NoAssignment);
    }
    let images = &mut *names.images;
    let made = instance(store, images, res);
    names.clear();
    made
}

// The answer to a question with this record, in every case as `match_listed`. No name is listed or bound before and after.
pub fn answer_match(
    store: &mut Store<'_>,
    names: &mut Names<'_>,
    sheet: &ReadSheet<'_>,
    question: QuestionRecord,
) -> Row
    requires { MatchAsked store.old names.old sheet.now question }
    ensures same { Same store.old store.new }
    ensures names { SameNames names.old names.new }
    ensures answer { MatchAnswered store.old names.old sheet.now question store.new names.new result }
{
    let list = question.list.at;
    let pattern = sort_at(sheet, list);
    let target = sort_at(sheet, list + 2);
    let res = sort_at(sheet, list + 4);
    names.list(sheet.bytes, question.names);
    let found = match_listed(store, names, sheet, pattern, target, res, question.pairs);
    names.unlist(sheet.bytes, question.names);
    found
}
