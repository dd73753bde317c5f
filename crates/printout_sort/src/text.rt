// The text of a sort: a word, then a name, a number or names, then its parts, each behind a blank, then a bracket.
ghost use Rattle.std.specs.Prelude.{◌+◌, ◌*◌, ◌≤◌, length, ◌++◌};
ghost use Rattle.record.specs.Number.{numbers_at};
ghost use Rattle.record.specs.Sort.{size};
ghost use Rattle.printout_sort.specs.Buffer.{HasRoom, Puts, Same};
ghost use Rattle.printout_sort.specs.Forms.{form_number};
ghost use Rattle.printout_sort.specs.Pieces.{close_text};
ghost use Rattle.printout_sort.specs.Text.{ascii, names_text, text};
ghost use Rattle.printout_sort.specs.Trees.{tree_at, inner_text_of, InnerAsks, InnerIs, TextAsks, TextSizeIs};

use super::buffer::{TextBuffer, digits, name_size, names_size};
use super::form::{Form, Inner, form_of};
use record::SortRecord;
use record::span::Span;
use store::entries::Entries;

// The length of what stands between the word and the parts.
pub fn inner_size(records: &[u8], form: Form, a: SortRecord) -> usize
    requires { InnerAsks records.now (form_number form) a }
    ensures { InnerIs records.now (form_number form) a result }
{
    match form.inner() {
        Inner::Nothing => 0,
        Inner::Name => name_size(a.name),
        Inner::Number => digits(a.number),
        Inner::Names => names_size(records, a.names),
    }
}

// The length of the text of the sort `k`.
pub fn text_size(entries: Entries<'_>, k: usize) -> usize
    requires { TextAsks entries.records.now entries.places.now k }
    ensures { TextSizeIs (text (tree_at entries.entry.records.now entries.entry.places.now k)) (size (tree_at entries.entry.records.now entries.entry.places.now k)) result }
{
    let a = entries.entry(k);
    let form = form_of(a.kind, a.parts.count);
    let mut sum = form.frame_size() + inner_size(entries.records, form, a);
    for part in a.parts.numbers(entries.records) {
        sum += 1 + text_size(entries, part);
    }
    sum
}

// Writes names, at least one, with one blank between two, and a bracket.
fn put_par_names(records: &[u8], names: Span, out: &mut TextBuffer<'_>)
    requires some { 1 ≤ names.count }
    requires within { names.at + 2 * names.count ≤ length records.now }
    requires room { HasRoom out.old (names_text (numbers_at records.now names.at names.count) ++ ascii ")") }
    ensures same { Same out.old out.new }
    ensures put { Puts out.old (names_text (numbers_at records.now names.at names.count) ++ ascii ")") out.new }
{
    out.put_name(names.get(records, 0));
    out.put_names(records, names.skip(1));
    out.put_byte(b')');
}

// Writes what stands between the word and the parts.
pub fn put_inner(records: &[u8], form: Form, a: SortRecord, out: &mut TextBuffer<'_>)
    requires asks { InnerAsks records.now (form_number form) a }
    requires room { HasRoom out.old (inner_text_of records.now (form_number form) a) }
    ensures same { Same out.old out.new }
    ensures put { Puts out.old (inner_text_of records.now (form_number form) a) out.new }
{
    match form.inner() {
        Inner::Nothing => {}
        Inner::Name => out.put_name(a.name),
        Inner::Number => out.put_decimal(a.number),
        Inner::Names => put_par_names(records, a.names, out),
    }
}

// Writes the bracket of a form, if it has one.
pub fn put_close(form: Form, out: &mut TextBuffer<'_>)
    requires { HasRoom out.old (close_text (form_number form)) }
    ensures same { Same out.old out.new }
    ensures put { Puts out.old (close_text (form_number form)) out.new }
{
    if let Some(bracket) = form.close() {
        out.put_byte(bracket);
    }
}

// Writes the text of the sort `k`.
pub fn put_sort(entries: Entries<'_>, k: usize, out: &mut TextBuffer<'_>)
    requires asks { TextAsks entries.records.now entries.places.now k }
    requires room { HasRoom out.old (text (tree_at entries.records.now entries.places.now k)) }
    ensures same { Same out.old out.new }
    ensures put { Puts out.old (text (tree_at entries.entry.records.now entries.entry.places.now k)) out.new }
{
    let a = entries.entry(k);
    let form = form_of(a.kind, a.parts.count);
    out.put(form.word());
    put_inner(entries.records, form, a, out);
    for part in a.parts.numbers(entries.records) {
        out.put_byte(b' ');
        put_sort(entries, part, out);
    }
    put_close(form, out);
}
