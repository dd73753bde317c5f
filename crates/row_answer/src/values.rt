// Which arguments are values.
ghost use Rattle.store.specs.Entry.{EntryAsks};
ghost use Rattle.row_answer.specs.Values.{ValuesAsk, ValuesHave, Valued};

use record::kinds::SortKind;
use record::span::Span;
use store::entries::Entries;

// Whether the sort `k` is no Par.
fn is_value(entries: Entries<'_>, k: usize) -> bool
    requires { EntryAsks entries.records.now entries.places.now k }
    ensures { Valued entries.entry.records.now entries.entry.places.now result k }
{
    entries.kind(k) != SortKind::Par
}

// Whether none of the sorts whose numbers stand in `bytes` at `list` is a Par.
pub fn all_values(entries: Entries<'_>, bytes: &[u8], list: Span) -> bool
    requires { ValuesAsk entries.records.now entries.places.now bytes.now list.at list.count }
    ensures { ValuesHave entries.entry.records.now entries.entry.places.now bytes.now list.at list.count result }
{
    list.numbers(bytes).all(|k| is_value(entries, k))
}
