// Substitution in the store that it reads from: the sort of an entry with its names replaced by a table of images, whole or not at all.
#![tactic(auto)]

pub mod deep;
pub mod function;
pub mod whole;

ghost use Rattle.std.specs.Prelude.{◌≡◌};
ghost use Rattle.store.specs.Changes.{Same};
ghost use Rattle.apply_walk.specs.Stores.{answer_in};
ghost use Rattle.apply.specs.declared.ApplyError.TheVariants.{NoRoom as WithoutRoom};
ghost use Rattle.apply.specs.Stores.{ApplyAsksOf, AppliedIn};

use apply_walk::replacing::Replacing;
use record::limits::LARGEST_TREE;
use store::{Full, Store};
use whole::{answer_size, make_answer};

// Why there is no answer.
#[derive(Clone, Copy, Debug, PartialEq, Eq)]
pub enum ApplyError {
    // The answer's tree is larger than 4,096.
    TooLarge,
    // The store cannot hold the answer's sorts.
    NoRoom,
}

// A store that is full has no room for the answer's sorts.
impl From<Full> for ApplyError {
    ghost from_gives = { λ _ e. e ≡ WithoutRoom };

    fn from(_full: Full) -> ApplyError {
        ApplyError::NoRoom
    }
}

// The number of the sort `k` replaced, in the store with its sorts added; `TooLarge` if its tree is larger than 4,096,
// judged before anything is added, and `NoRoom` where the store would be too long. Then all is as it was.
pub fn apply(store: &mut Store<'_>, images: &[u16], k: usize) -> Result<usize, ApplyError>
    requires { ApplyAsksOf store.old k images.now }
    ensures same { Same store.old store.new }
    ensures applied { AppliedIn store.old (answer_in store.old images.now k) store.new result }
{
    if LARGEST_TREE < answer_size(&Replacing::of(store, images), k) {
        return Err(ApplyError::TooLarge);
    }
    let from = store.count;
    match make_answer(store, k, images) {
        Ok(i) => Ok(i),
        Err(full) => {
            store.undo(from);
            Err(full.into())
        }
    }
}
