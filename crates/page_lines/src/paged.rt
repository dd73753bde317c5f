// What the pages of a judged sheet are written from, and with: its rows with the sizes of their texts, and lent buffers for windows of two
// texts.
ghost use Rattle.std.specs.Prelude.{◌≡◌, ◌≤◌, ◌<◌, ℕ, length, get_or};
ghost use Rattle.page_lines.specs.Rows.{window_room};

use store::entries::Entries;

// The rows of so many terms over a sheet's sorts, with the size of the text of each sort that they name.
#[derive(Clone, Copy)]
pub struct PagedRows<'a> {
    pub entries: Entries<'a>,
    pub sizes: &'a [u32],
    pub rows: &'a [u32],
    pub terms: usize,
    pub ghost sizes32: { (i : ℕ) → get_or sizes.now i 0 < 4294967296 },
    pub ghost rows32: { (i : ℕ) → get_or rows.now i 0 < 4294967296 },
}

impl<'a> PagedRows<'a> {
    // The paged rows of these buffers.
    pub fn new(
        entries: Entries<'a>,
        sizes: &'a [u32],
        rows: &'a [u32],
        terms: usize,
    ) -> PagedRows<'a>
        ensures records { result.entries.records.now ≡ entries.entry.records.now }
        ensures places { result.entries.places.now ≡ entries.entry.places.now }
        ensures sizes { result.sizes.now ≡ sizes.now }
        ensures rows { result.rows.now ≡ rows.now }
        ensures terms { result.terms ≡ terms }
    {
        PagedRows {
            entries,
            sizes,
            rows,
            terms,
        }
    }
}

// Lent buffers for the windows of a row's two texts: a stack for the walk over a sort, and a buffer for each window.
#[derive(Drop)]
pub struct Windows<'a> {
    pub stack: &'a mut [u32],
    pub one: &'a mut [u8],
    pub two: &'a mut [u8],
    pub ghost deep: { 4096 ≤ length stack.now },
    pub ghost first: { window_room ≤ length one.now },
    pub ghost second: { window_room ≤ length two.now },
}
