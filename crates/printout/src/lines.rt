// The rows and answers as text, and the lines `Tk inferred checked`, `Qk answer` and `!n`.
ghost use Rattle.std.specs.Prelude.{◌≡◌, ◌/◌, ◌≤◌, ◌<◌, length, IfOk, IfErr, OnErr};
ghost use Rattle.printout_sort.specs.Buffer.{HasRoom, Puts, Same};
ghost use Rattle.printout_sort.specs.Trees.{sort_room};
ghost use Rattle.printout.specs.Lines.{refusal_text, refusal_line};
ghost use Rattle.printout.specs.LineAsks.{ShownIs, shown, row_text_at, answer_text_at, RowAsks, AnswerAsks, TermHas, QuestionHas, TermLineAsks, QuestionLineAsks, label_text, no_or_yes};

use super::NoRoom;
use printout_sort::buffer::{TextBuffer, digits};
use printout_sort::text::{put_sort, text_size};
use record::kinds::QuestionKind;
use record::limits::REFUSED;
use store::entries::Entries;

// The number of the sort that a row names, or the number of its refusal.
pub fn row_of(code: u32) -> Result<usize, usize>
    ensures sort { IfOk result (λ k. (k ≡ code) × (code < 65536)) }
    ensures refusal { IfErr result (λ n. (n ≡ code / 65536) × (65536 ≤ code)) }
{
    let v = code as usize;
    if v < REFUSED { Ok(v) } else { Err(v / REFUSED) }
}

// Writes `!` and the number of a refusal.
pub fn put_refusal(number: usize, out: &mut TextBuffer<'_>)
    requires { HasRoom out.old (refusal_text number) }
    ensures same { Same out.old out.new }
    ensures put { Puts out.old (refusal_text number) out.new }
{
    out.put_byte(b'!');
    out.put_decimal(number);
}

// The length of the text of a row.
fn row_size(entries: Entries<'_>, code: u32) -> usize
    requires { RowAsks entries.records.now entries.places.now code }
    ensures { (result ≡ length (row_text_at entries.entry.records.now entries.entry.places.now code)) × (result ≤ sort_room) }
{
    match row_of(code) {
        Ok(k) => text_size(entries, k),
        Err(number) => 1 + digits(number),
    }
}

// Writes the text of a row: its sort, or `!` and the number of its refusal.
fn put_row(entries: Entries<'_>, code: u32, out: &mut TextBuffer<'_>)
    requires asks { RowAsks entries.records.now entries.places.now code }
    requires room { HasRoom out.old (row_text_at entries.records.now entries.places.now code) }
    ensures same { Same out.old out.new }
    ensures put { Puts out.old (row_text_at entries.entry.records.now entries.entry.places.now code) out.new }
{
    match row_of(code) {
        Ok(k) => put_sort(entries, k, out),
        Err(number) => put_refusal(number, out),
    }
}

// The text of an answer whether two sorts are compatible: no for 0, else yes.
fn no_or_yes(code: u32) -> &'static [u8]
    ensures { result.now ≡ no_or_yes code }
{
    if code == 0 { b"no" } else { b"yes" }
}

// The length of the text of an answer to a question of this kind.
fn answer_text_size(entries: Entries<'_>, kind: usize, code: u32) -> usize
    requires { AnswerAsks entries.records.now entries.places.now kind code }
    ensures { (result ≡ length (answer_text_at entries.entry.records.now entries.entry.places.now kind code)) × (result ≤ sort_room) }
{
    if kind == QuestionKind::Compatible as usize {
        no_or_yes(code).len()
    } else {
        row_size(entries, code)
    }
}

// Writes the text of an answer to a question of this kind: no or yes whether two sorts are compatible, else as a row.
fn put_answer(entries: Entries<'_>, kind: usize, code: u32, out: &mut TextBuffer<'_>)
    requires asks { AnswerAsks entries.records.now entries.places.now kind code }
    requires room { HasRoom out.old (answer_text_at entries.records.now entries.places.now kind code) }
    ensures same { Same out.old out.new }
    ensures put { Puts out.old (answer_text_at entries.entry.records.now entries.entry.places.now kind code) out.new }
{
    if kind == QuestionKind::Compatible as usize {
        out.put(no_or_yes(code));
    } else {
        put_row(entries, code, out);
    }
}

// Writes a mark, a number and a blank, as `T0 `.
fn put_label(mark: u8, v: usize, out: &mut TextBuffer<'_>)
    requires { HasRoom out.old (label_text mark v) }
    ensures same { Same out.old out.new }
    ensures put { Puts out.old (label_text mark v) out.new }
{
    out.put_byte(mark);
    out.put_decimal(v);
    out.put_byte(b' ');
}

// Writes the line of the term `t` with its two rows; or NoRoom, where it does not fit, and the buffer is as it was.
pub fn term_line(
    entries: Entries<'_>,
    t: usize,
    inferred: u32,
    checked: u32,
    out: &mut TextBuffer<'_>,
) -> Result<(), NoRoom>
    requires { TermLineAsks entries.records.now entries.places.now t inferred checked }
    ensures same { Same out.old out.new }
    ensures end { OnErr result (out.new.end ≡ out.old.end) }
    ensures line { TermHas entries.entry.records.now entries.entry.places.now t inferred checked out.old.bytes.now out.old.end out.new.bytes.now (shown out.new.end result) }
{
    let one = row_size(entries, inferred);
    let two = row_size(entries, checked);
    if out.room() < 4 + digits(t) + one + two {
        return Err(NoRoom);
    }
    put_label(b'T', t, out);
    put_row(entries, inferred, out);
    out.put_byte(b' ');
    put_row(entries, checked, out);
    out.put_byte(b'\n');
    Ok(())
}

// Writes the line of the question `q` of this kind with its answer; or NoRoom, where it does not fit, and the buffer is as it was.
pub fn question_line(
    entries: Entries<'_>,
    q: usize,
    kind: usize,
    code: u32,
    out: &mut TextBuffer<'_>,
) -> Result<(), NoRoom>
    requires { QuestionLineAsks entries.records.now entries.places.now q kind code }
    ensures same { Same out.old out.new }
    ensures end { OnErr result (out.new.end ≡ out.old.end) }
    ensures line { QuestionHas entries.entry.records.now entries.entry.places.now q kind code out.old.bytes.now out.old.end out.new.bytes.now (shown out.new.end result) }
{
    let size = answer_text_size(entries, kind, code);
    if out.room() < 3 + digits(q) + size {
        return Err(NoRoom);
    }
    put_label(b'Q', q, out);
    put_answer(entries, kind, code, out);
    out.put_byte(b'\n');
    Ok(())
}

// Writes the line of a refused sheet; or NoRoom, where it does not fit, and the buffer is as it was.
pub fn refusal_line(number: usize, out: &mut TextBuffer<'_>) -> Result<(), NoRoom>
    requires { number < 100000 }
    ensures same { Same out.old out.new }
    ensures end { OnErr result (out.new.end ≡ out.old.end) }
    ensures line { ShownIs out.old.bytes.now out.old.end (refusal_line number) out.new.bytes.now (shown out.new.end result) }
{
    if out.room() < 2 + digits(number) {
        return Err(NoRoom);
    }
    put_refusal(number, out);
    out.put_byte(b'\n');
    Ok(())
}
