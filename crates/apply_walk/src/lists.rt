// Lists of at most 64 numbers: the references of a record, and the names of a Par that a table of images leaves.
ghost use Rattle.std.specs.Prelude.{◌≡◌, ◌+◌, ◌<◌, ◌≤◌, true, ◌++◌, eqb, get_or, length};
ghost use Rattle.arrayvec.specs.ArrayVec.{array_vec_len};
ghost use Rattle.record.specs.Number.{numbers_at};
ghost use Rattle.apply_walk.specs.Lists.{unbound, ReadAsks, NamesKeptAsk, SameAsks};

use arrayvec::ArrayVec;
use record::limits::{LONGEST_LIST, NAMES};
use record::span::Span;

// Writes the numbers of the list `span` into `out`, which is as long.
pub fn read_numbers(bytes: &[u8], span: Span, out: &mut [u16])
    requires { ReadAsks bytes.now span.at span.count × (length out.old ≡ span.count) }
    ensures { out.new ≡ numbers_at bytes.now span.at span.count }
{
    for (i, slot) in out.iter_mut().enumerate() {
        *slot = span.get(bytes, i) as u16;
    }
}

// Whether the numbers are those of the list `span`, which is as long; false where one differs.
pub fn same_numbers(bytes: &[u8], span: Span, numbers: &[u16]) -> bool
    requires { SameAsks bytes.now span.at span.count numbers.now }
    ensures only { result ≡ true → numbers.now ≡ numbers_at bytes.now span.at span.count }
    ensures all { numbers.now ≡ numbers_at bytes.now span.at span.count → result ≡ true }
{
    span.numbers(bytes)
        .zip(numbers)
        .all(|(v, number)| v == usize::from(*number))
}

// Whether the name `v` has no image.
pub fn is_free(images: &[u16], v: usize) -> bool
    ensures { result ≡ eqb (get_or images.now v 0) 0 }
{
    images.get(v).is_none_or(|image| *image == 0)
}

// Puts those of the names of the list `span` that have no image behind the names of `out`, in their order.
pub fn names_left(bytes: &[u8], span: Span, images: &[u16], out: &mut ArrayVec<u16, LONGEST_LIST>)
    requires asks { NamesKeptAsk bytes.now span.at span.count images.now }
    requires room { array_vec_len out.old + span.count ≤ 64 }
    ensures { out.new.items ≡ out.old.items ++ unbound images.now (numbers_at bytes.now span.at span.count) }
{
    let images = &images[..NAMES];
    let mut names = [0u16; LONGEST_LIST];
    let mut kept = 0;
    for v in span.numbers(bytes) {
        if is_free(images, v) {
            names[kept] = v as u16;
            kept += 1;
        }
    }
    let _ = out.try_extend_from_slice(&names[..kept]);
}

// How many of the names of the list `span` have no image.
pub fn names_kept(bytes: &[u8], span: Span, images: &[u16]) -> usize
    requires { NamesKeptAsk bytes.now span.at span.count images.now }
    ensures { result ≡ length (unbound images.now (numbers_at bytes.now span.at span.count)) }
{
    let images = &images[..NAMES];
    let mut kept = 0;
    for v in span.numbers(bytes) {
        if is_free(images, v) {
            kept += 1;
        }
    }
    kept
}
