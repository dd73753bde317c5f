// A list of parts, taken apart at its last.
ghost use Rattle.std.specs.Prelude.{◌≡◌, ◌+◌, ◌-◌, ◌*◌, ◌<◌, ◌≤◌, length};
ghost use Rattle.record.specs.Number.{u16_at, numbers_at};
ghost use Rattle.record.specs.Numbers.{numbers_left};

use record::numbers::Numbers;
use record::span::Span;

// The numbers of a list but for its last.
pub fn all_but_last(list: Span, bytes: &[u8]) -> Numbers<'_>
    requires some { 0 < list.count }
    requires within { list.at + 2 * list.count ≤ length bytes.now }
    ensures { numbers_left result ≡ numbers_at bytes.now list.at (list.count - 1) }
{
    let count = list.count - 1;
    Span { count, ..list }.numbers(bytes)
}

// The last number of a list.
pub fn last(list: Span, bytes: &[u8]) -> usize
    requires some { 0 < list.count }
    requires within { list.at + 2 * list.count ≤ length bytes.now }
    ensures { result ≡ u16_at bytes.now (list.at + 2 * (list.count - 1)) }
{
    list.get(bytes, list.count - 1)
}
