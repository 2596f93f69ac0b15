//! The forms of a scheme's types and of a signature's.

ghost use Rattle.std.specs.Prelude.{◌≡◌, ◌==◌, ◌<◌, ◌≤◌, length, map, slice_get, Some};
ghost use Rattle.um_tree.specs.ProgramTree.{scheme_tree};
ghost use Rattle.um_tree.specs.TypeTree.{type_tree};
ghost use Rattle.um_sig.specs.Instances.{scheme_types};
ghost use Rattle.um_sig.specs.Steps.{same_form as have_same_form, same_form_at, IsDifference};

use um_tree::{Scheme, Ty};
use um_units::Units;

/// The scheme's type at an index: a parameter's, or after all parameters the result's.
pub(crate) fn own_type(scheme: &Scheme, i: usize) -> &Ty
    requires { i ≤ length scheme.now.params.items.items }
    ensures { slice_get (scheme_types (scheme_tree scheme.now)) i ≡ Some (type_tree result.now) }
{
    let params = &scheme.params.items;
    if i < params.len() {
        return &params[i];
    }
    &scheme.result
}

/// Whether there are as many units in both lists.
fn same_count(left: &Units, right: &Units) -> bool
    ensures { result ≡ (length left.now == length right.now) }
{
    left.as_slice().len() == right.as_slice().len()
}

/// Whether the types are the same but for their units.
fn same_form(left: &Ty, right: &Ty) -> bool
    ensures { result ≡ have_same_form (type_tree left.now) (type_tree right.now) }
{
    match (left, right) {
        (Ty::Bool, Ty::Bool) => true,
        (Ty::Num(_), Ty::Num(_)) => true,
        (Ty::List(s), Ty::List(t)) => same_form(s, t),
        (Ty::Rec(r, us), Ty::Rec(q, vs)) => r == q && same_count(us, vs),
        _ => false,
    }
}

/// Whether a type of the same form stands at the index.
fn alike_at(own: &Ty, types: &[Ty], i: usize) -> bool
    ensures { result ≡ same_form_at (type_tree own.now) (slice_get (map type_tree types.now) i) }
{
    if i < types.len() {
        return same_form(own, &types[i]);
    }
    false
}

/// The first index at which one of scheme and signature has a type and the other none, or both have types of two forms.
pub(crate) fn first_difference(scheme: &Scheme, types: &[Ty]) -> Option<u32>
    requires params { length scheme.now.params.items.items < 4294967295 }
    ensures { IsDifference (scheme_types (scheme_tree scheme.now)) (map type_tree types.now) result }
{
    let count = scheme.params.items.len() + 1;
    for i in 0..count {
        if !alike_at(own_type(scheme, i), types, i) {
            return Some(i as u32);
        }
    }
    if count < types.len() {
        return Some(count as u32);
    }
    None
}
