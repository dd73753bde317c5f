// The checked App of sorts whose inferred App has no room in the store. Where the arguments fit, match_with finds the same map, but for
// names bound to the variable of that name, which it leaves out. These count only where a Par stands in what remains. So but for that both
// have the same sort, and it is not made in vain.
ghost use Rattle.std.specs.Prelude.{◌≡◌, ◌<◌, not, ◌&&◌, get_or};
ghost use Rattle.record.specs.Sort.{var, same};
ghost use Rattle.record.specs.Decode.{sort_at};
ghost use Rattle.substitution.specs.Premises.{parless_all};
ghost use Rattle.row_application.specs.Words.{OwnAsked, RestAsked, own_in, owned_in, rest_sorts, call_in, unmade_in};

use matching_each::each::all_each;
use matching_each::nodes::parless;
use matching_tables::names::Names;
use matching_tables::notes::Seen;
use record::kinds::SortKind;
use record::span::Span;
use row_rules::Cause;
use store::entries::Sorts;

// Whether the sort `k` is the variable of this name.
pub fn is_var(sorts: &Sorts<'_>, k: usize, name: usize) -> bool
    requires { k < sorts.now.count }
    ensures { result ≡ same (sort_at sorts.now.records.now sorts.now.places.now sorts.now.count k) (var name) }
{
    let entry = sorts.entry(k);
    entry.kind == SortKind::Var && entry.name == name
}

// Whether a bound name is bound to the variable of that name.
fn is_own(sorts: &Sorts<'_>, names: &Names<'_>, name: usize) -> bool
    requires { OwnAsked sorts.now names.now × (0 < get_or names.now.images.now name 0) }
    ensures { result ≡ own_in sorts.now names.now name }
{
    is_var(sorts, names.look_up(name).unwrap(), name)
}

// Whether one of the bound names is bound to the variable of that name.
pub fn any_own(sorts: &Sorts<'_>, names: &Names<'_>) -> bool
    requires { OwnAsked sorts.now names.now }
    ensures { result ≡ owned_in sorts.now names.now }
{
    names.bound[..names.many]
        .iter()
        .any(|&name| is_own(sorts, names, name as usize))
}

// Whether one of the bound names is bound to the variable of that name and a Par stands in one of the sorts that the store names in
// `rest`.
pub fn own_counts(sorts: &Sorts<'_>, names: &Names<'_>, rest: Span) -> bool
    requires { OwnAsked sorts.now names.now × RestAsked sorts.now rest }
    ensures { result ≡ (owned_in sorts.now names.now && not (parless_all (rest_sorts sorts.now rest))) }
{
    any_own(sorts, names) && !all_each(sorts, &parless, &mut Seen::new(), rest)
}

// The call as it is; but where the inferred sort of the same App has no room, one that is settled fails with Full, unless a name is
// bound to the variable of that name and a Par stands in what remains: the sorts that the store names in `rest`.
pub fn unmade(
    sorts: &Sorts<'_>,
    names: &Names<'_>,
    rest: Span,
    crowded: bool,
    call: Result<(), Cause>,
) -> Result<(), Cause>
    requires { OwnAsked sorts.now names.now × RestAsked sorts.now rest }
    ensures { call_in names.now.many result ≡ unmade_in crowded sorts.now names.now rest call }
{
    if crowded && call.is_ok() && !own_counts(sorts, names, rest) {
        return Err(Cause::Full);
    }
    call
}
