// A sort of the store, or what remains of the list of a Function, with its names replaced, as a row or an answer.
#![tactic(auto)]

ghost use Rattle.std.specs.Prelude.{◌≡◌};
ghost use Rattle.store.specs.Changes.{Same};
ghost use Rattle.apply.specs.Stores.{ApplyAsksOf};
ghost use Rattle.row_instance.specs.Instance.{apply_cause};
ghost use Rattle.row_instance.specs.Stores.{InstanceIn, RestAsksOf, RestIn};

use apply::function::apply_function;
use apply::{ApplyError, apply};
use record::span::Span;
use row_rules::{Cause, Row};
use store::Store;

// Why substitution gives no answer, as the cause of a row: Limit where the answer's tree is over 4,096; Full where the store
// cannot hold its sorts.
pub fn cause_of(error: ApplyError) -> Cause
    ensures { result ≡ apply_cause error }
{
    match error {
        ApplyError::TooLarge => Cause::Limit,
        ApplyError::NoRoom => Cause::Full,
    }
}

// The sort k with its names replaced by the table of images: found or added; Limit where its tree is over 4,096; Full where
// the store cannot hold its sorts.
pub fn instance(store: &mut Store<'_>, images: &[u16], k: usize) -> Row
    requires { ApplyAsksOf store.old k images.now }
    ensures same { Same store.old store.new }
    ensures answer { InstanceIn store.old images.now k store.new result }
{
    apply(store, images, k).map_err(cause_of)
}

// The sorts of the list `span` with their names replaced, one by itself, else the Function of them: found or added; Limit where
// the tree is over 4,096; Full where the store cannot hold its sorts.
pub fn rest(store: &mut Store<'_>, images: &[u16], span: Span) -> Row
    requires { RestAsksOf store.old images.now span.at span.count }
    ensures same { Same store.old store.new }
    ensures answer { RestIn store.old images.now span.at span.count store.new result }
{
    if span.count == 1 {
        let k = store.number(span.at);
        return instance(store, images, k);
    }
    apply_function(store, images, span).map_err(cause_of)
}
