// A Function of several sorts of the store with their names replaced by a table of images.
ghost use Rattle.store.specs.Changes.{Same};
ghost use Rattle.apply_walk.specs.Stores.{ReplacedIn};
ghost use Rattle.apply.specs.Stores.{function_in, FunctionAsksOf, FunctionFitsIn, AppliedIn};

use super::ApplyError;
use super::whole::{answer_sizes, make_answers};
use apply_walk::build::{SortFields, make_fields};
use apply_walk::lists::read_numbers;
use apply_walk::replacing::Replacing;
use record::kinds::SortKind;
use record::limits::{LARGEST_PARTS, LONGEST_LIST};
use record::span::Span;
use store::{Full, Store};

// The number of the Function of the sorts of the list `span` replaced, in the store with its sorts added, parts first from left
// to right; `Full`, with the sorts made so far, where that store would be too long.
pub fn make_function(store: &mut Store<'_>, images: &[u16], span: Span) -> Result<usize, Full>
    requires { FunctionFitsIn store.old images.now span.at span.count }
    ensures same { Same store.old store.new }
    ensures made { ReplacedIn store.old (function_in store.old images.now span.at span.count) store.new result }
{
    let mut room = [0u16; LONGEST_LIST];
    let parts = &mut room[..span.count];
    read_numbers(store.entries().records, span, parts);
    make_answers(store, parts, images)?;
    make_fields(
        store,
        &SortFields {
            kind: SortKind::Function,
            name: 0,
            number: 0,
            parts,
            names: &[],
        },
    )
}

// The number of the Function of the sorts of the list `span` replaced, in the store with its sorts added; `TooLarge` if its tree
// is larger than 4,096, judged before anything is added, and `NoRoom` where the store would be too long. Then all is as it was.
pub fn apply_function(
    store: &mut Store<'_>,
    images: &[u16],
    span: Span,
) -> Result<usize, ApplyError>
    requires { FunctionAsksOf store.old images.now span.at span.count }
    ensures same { Same store.old store.new }
    ensures applied { AppliedIn store.old (function_in store.old images.now span.at span.count) store.new result }
{
    // The Function itself counts as one.
    if LARGEST_PARTS < answer_sizes(&Replacing::of(store, images), span) {
        return Err(ApplyError::TooLarge);
    }
    let from = store.count;
    match make_function(store, images, span) {
        Ok(i) => Ok(i),
        Err(full) => {
            store.undo(from);
            Err(full.into())
        }
    }
}
