// Question 2: the first sort with the names replaced by the other sorts. The table of images is filled by name and emptied.
ghost use Rattle.std.specs.Prelude.{◌≡◌, get_or};
ghost use Rattle.store.specs.Changes.{Same};
ghost use Rattle.matching_tables.specs.Names.{SameNames};
ghost use Rattle.record.specs.Number.{u16_at, numbers_at};
ghost use Rattle.questions.specs.Fill.{SortAtAsks, FillAsks, FilledIs, EmptyAsks, emptied};
ghost use Rattle.questions.specs.Words.{ApplyAsked, ApplyAnswered};

use matching_tables::names::Names;
use reader::QuestionRecord;
use record::span::Span;
use record::u16_at;
use row_instance::instance;
use row_rules::Row;
use sheet::ReadSheet;
use store::Store;

// The store number of the sort that the sheet names at `at`.
pub fn sort_at(sheet: &ReadSheet<'_>, at: usize) -> usize
    requires { SortAtAsks sheet.now.bytes.now at sheet.now.table.now }
    ensures { result ≡ get_or sheet.now.table.now (u16_at sheet.now.bytes.now at) 0 }
{
    sheet.table[u16_at(sheet.bytes, at)] as usize
}

// Binds the names of a question to the sorts that the sheet names from `at` on, the last first.
pub fn fill_images(images: &mut [u16], sheet: &ReadSheet<'_>, names: Span, at: usize)
    requires { FillAsks images.old sheet.now.bytes.now sheet.now.table.now names.at at names.count }
    ensures { FilledIs images.old sheet.now.bytes.now sheet.now.table.now names.at at names.count images.new }
{
    for i in (0..names.count).rev() {
        let name = names.get(sheet.bytes, i);
        images[name] = (sort_at(sheet, at + 2 * i) + 1) as u16;
    }
}

// Unbinds the names of a question.
pub fn empty_images(images: &mut [u16], sheet: &[u8], names: Span)
    requires { EmptyAsks images.old sheet.now names.at names.count }
    ensures { images.new ≡ emptied images.old (numbers_at sheet.now names.at names.count) }
{
    for name in names.numbers(sheet) {
        images[name] = 0;
    }
}

// Question 2: the first sort with the names replaced by the other ones, found or added; Limit or Full. No name is bound before and
// after.
pub fn answer_apply(
    store: &mut Store<'_>,
    names: &mut Names<'_>,
    sheet: &ReadSheet<'_>,
    question: QuestionRecord,
) -> Row
    requires { ApplyAsked store.old names.old sheet.now question }
    ensures same { Same store.old store.new }
    ensures names { SameNames names.old names.new }
    ensures answer { ApplyAnswered store.old names.old sheet.now question store.new names.new result }
{
    let list = question.list.at;
    let images = &mut *names.images;
    fill_images(images, sheet, question.names, list + 2);
    let made = instance(store, images, sort_at(sheet, list));
    empty_images(images, sheet.bytes, question.names);
    made
}
