// Guesses at the sort of a term, before it is inferred: the number that was found for the last term that had the same operator and whose
// first argument had the same row. Who takes a guess compares what is there; a wrong one costs time alone.
ghost use Rattle.std.specs.Prelude.{◌<◌};
ghost use Rattle.row_answer.specs.Arguments.{JudgedAsks};

use reader::TermRecord;
use record::kinds::TermKind;
use record::limits::MOST_SORTS;

// How many guesses there are.
pub const GUESSES: usize = 512;

// More than there are kinds. A key has the row of the first argument, which is under MOST_SORTS where it is a sort, below the kind of the
// term, and that below the number of the term.
const KINDS: usize = 16;

// Keys are spread by the upper bits of their product with this number: the keys that share a guess have products in one of 512 equal
// parts of the numbers below 2 to the 64.
const SPREAD: usize = 11400714819323198485;

const SHARE: usize = 1 << 55;

// The number by which terms of a kind are told apart: none for integers, whose value does not matter for their sort.
fn told_apart(term: TermRecord) -> usize {
    if term.kind == TermKind::Integer {
        return 0;
    }
    term.number
}

// The place of the guess at a term, by its kind, its number and the inferred row of the first term that it names.
pub fn guess_at(sheet: &[u8], rows: &[u32], term: TermRecord) -> usize
    requires { JudgedAsks sheet.now term.list.at term.list.count rows.now 0 }
    ensures { result < 512 }
{
    let first = if term.list.count == 0 {
        0
    } else {
        rows[2 * term.list.get(sheet, 0)] as usize
    };
    let named = told_apart(term)
        .wrapping_mul(KINDS)
        .wrapping_add(term.kind as usize);
    let key = named.wrapping_mul(MOST_SORTS).wrapping_add(first);
    key.wrapping_mul(SPREAD) / SHARE
}
