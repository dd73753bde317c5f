// A window of a sort's text: some of its bytes from a given one on, in a lent buffer, found without writing what stands before them. The
// definitions stand in specs/.
#![tactic(auto)]

pub mod frames;
pub mod sizes;
pub mod walk;

ghost use Rattle.page_window.specs.Window.{SizesAsk, SizesAre, WindowAsks, WindowIs};
ghost use Rattle.printout_sort.specs.Text.{text};
ghost use Rattle.printout_sort.specs.Trees.{tree_at};

use sizes::sort_size;
use store::entries::Entries;
use walk::start;

// Where a window stands in its buffer: from `lead` on up to `end`; nothing of it where `lead` is no less than `end`.
#[derive(Clone, Copy, Debug, PartialEq, Eq)]
pub struct Window {
    pub lead: usize,
    pub end: usize,
}

// Writes how long the text of each of the first `many` sorts is into `sizes`.
pub fn sort_sizes(entries: Entries<'_>, many: usize, sizes: &mut [u32])
    requires { SizesAsk entries.records.now entries.places.now many sizes.old }
    ensures { SizesAre entries.entry.records.now entries.entry.places.now many sizes.new }
{
    for k in 0..many {
        let size = sort_size(entries, k, sizes);
        sizes[k] = size as u32;
    }
}

// Writes the text of the sort `k` from the byte `skip` on into `out`: `want` bytes at least, or up to its end. It walks over the sort with a
// stack of its own, so that neither the depth nor the length of the text costs machine stack, and passes over parts that end before `skip`.
pub fn sort_window(
    entries: Entries<'_>,
    sizes: &[u32],
    k: usize,
    skip: usize,
    want: usize,
    stack: &mut [u32],
    out: &mut [u8],
) -> Window
    requires { WindowAsks entries.records.now entries.places.now sizes.now k want stack.old out.old }
    ensures { WindowIs (text (tree_at entries.entry.records.now entries.entry.places.now k)) skip want out.new result }
{
    let mut walk = start(entries, k, skip, stack, out);
    while walk.is_going(want) {
        walk = walk.step(entries, sizes, stack, out);
    }
    Window {
        lead: walk.lead,
        end: walk.end,
    }
}
