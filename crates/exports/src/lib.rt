// What programs in C and Rust call, in one static library: a sheet judged into lent buffers, and its printout and its pages as text in
// a lent buffer. Each slice is a pointer and a length. No logic of its own.
#![tactic(auto)]

ghost use Rattle.verdicts.specs.Judge.{lengths_of, NumberIs};
ghost use Rattle.exports.specs.Exports.{EndIs, PageEndIs};

use page_text::pages;
use printout_text::text;

// As `napsilo_judge` of crate verdicts: a sheet judged into the four lent buffers; 0 for an accepted sheet, else the number of the
// refusal.
#[unsafe(no_mangle)]
pub extern "C" fn napsilo_judge(
    sheet: &[u8],
    records: &mut [u8],
    places: &mut [u32],
    rows: &mut [u32],
    answers: &mut [u32],
) -> u32
    ensures { NumberIs sheet.now (lengths_of records.old places.old rows.old answers.old) records.new places.new rows.new answers.new result }
{
    verdicts::napsilo_judge(sheet, records, places, rows, answers)
}

// Judges a sheet over buffers of the program's lengths and writes the whole lines of its printout from the number `from` on into
// `out`, as many as fit, as `text` does: the place behind what was written. The number of the next line is `from` and as many more
// as bytes 10 were written.
#[unsafe(no_mangle)]
pub extern "C" fn napsilo_text(sheet: &[u8], from: usize, out: &mut [u8]) -> usize
    ensures { EndIs sheet.now from out.old out.new result }
{
    text(sheet, from, out).end
}

// Judges a sheet over buffers of the program's lengths and writes the whole lines of its pages from the number `from` on into `out`, as
// many as fit, as `pages` does: the place behind what was written. The number of the next line is `from` and as many more as bytes 10
// were written.
#[unsafe(no_mangle)]
pub extern "C" fn napsilo_page_text(sheet: &[u8], from: usize, out: &mut [u8]) -> usize
    ensures { PageEndIs sheet.now from out.old out.new result }
{
    pages(sheet, from, out).end
}
