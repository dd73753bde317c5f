// Tests of the numbers of a list, and of the pairs of one.
ghost use Rattle.std.specs.Prelude.{◌≡◌, map};
ghost use Rattle.record.specs.Names.{distinct, member};
ghost use Rattle.record.specs.Numbers.{numbers_left, pairs_left};
ghost use Rattle.reader.specs.Reader.{all_below, rightly_given};

use record::numbers::{Numbers, Pairs};

// Whether the numbers are all below the limit.
pub fn all_below(mut numbers: Numbers<'_>, limit: usize) -> bool
    ensures { result ≡ all_below limit (numbers_left numbers.entry) }
{
    numbers.all(|v| v < limit)
}

// Whether the sorts of the pairs are all below the limit.
pub fn pairs_below(mut pairs: Pairs<'_>, limit: usize) -> bool
    ensures { result ≡ all_below limit (map (λ p. p.1) (pairs_left pairs.entry)) }
{
    pairs.all(|(_, sort)| sort < limit)
}

// Whether v is one of the numbers.
pub fn contains(mut numbers: Numbers<'_>, v: usize) -> bool
    ensures { result ≡ member v (numbers_left numbers.entry) }
{
    numbers.any(|w| w == v)
}

// Whether none of the numbers stands twice.
#[tactic(auto, unfolding(record::specs::Names::distinct))]
pub fn is_distinct(mut numbers: Numbers<'_>) -> bool
    ensures { result ≡ distinct (numbers_left numbers.entry) }
{
    while let Some(v) = numbers.next() {
        if contains(numbers, v) {
            return false;
        }
    }
    true
}

// Whether v is the name of one of the pairs.
fn is_named(mut pairs: Pairs<'_>, v: usize) -> bool
    ensures { result ≡ member v (map (λ p. p.0) (pairs_left pairs.entry)) }
{
    pairs.any(|(name, _)| name == v)
}

// Whether the name of each pair is one of the names, and none of the pairs' names stands twice.
#[tactic(auto, unfolding(crate::specs::Reader::rightly_given, record::specs::Names::all_members, record::specs::Names::distinct))]
pub fn are_rightly_given(mut pairs: Pairs<'_>, names: Numbers<'_>) -> bool
    ensures { result ≡ rightly_given (map (λ p. p.0) (pairs_left pairs.entry)) (numbers_left names.entry) }
{
    while let Some((name, _)) = pairs.next() {
        if !contains(names, name) || is_named(pairs, name) {
            return false;
        }
    }
    true
}
