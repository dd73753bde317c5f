// How long texts are, from the table of those of the sorts before.
ghost use Rattle.std.specs.Prelude.{◌≡◌};
ghost use Rattle.record.specs.Number.{numbers_at};
ghost use Rattle.record.specs.Sort.{size};
ghost use Rattle.printout_sort.specs.Text.{text};
ghost use Rattle.printout_sort.specs.Trees.{tree_at, TextSizeIs};
ghost use Rattle.page_window.specs.Sizes.{parts_total, PartsAsk, SortSizeAsks};

use printout_sort::form::form_of;
use printout_sort::text::inner_size;
use record::span::Span;
use store::entries::Entries;

// The length of the text of the sorts of a list, each behind a blank: the sum of one and the table's value.
fn parts_size(records: &[u8], sizes: &[u32], parts: Span) -> usize
    requires { PartsAsk records.now sizes.now parts.at parts.count }
    ensures { result ≡ parts_total sizes.now (numbers_at records.now parts.at parts.count) }
{
    let mut sum = 0;
    for k in parts.numbers(records) {
        sum += 1 + sizes[k] as usize;
    }
    sum
}

// The length of the text of the sort `k`, where the table has those of the sorts before it.
pub fn sort_size(entries: Entries<'_>, k: usize, sizes: &[u32]) -> usize
    requires { SortSizeAsks entries.records.now entries.places.now k sizes.now }
    ensures { TextSizeIs (text (tree_at entries.entry.records.now entries.entry.places.now k)) (size (tree_at entries.entry.records.now entries.entry.places.now k)) result }
{
    let a = entries.entry(k);
    let form = form_of(a.kind, a.parts.count);
    let inner = inner_size(entries.records, form, a);
    form.frame_size() + inner + parts_size(entries.records, sizes, a.parts)
}
