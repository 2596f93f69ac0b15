//! Whether variables are below a number.

ghost use Rattle.std.specs.Prelude.{◌≡◌, ◌&&◌};
ghost use Rattle.std.specs.List.{list_all};
ghost use Rattle.um_units.specs.Variables.{atom_below, variables_below};
ghost use Rattle.um_tree.specs.TypeTree.{type_tree};
ghost use Rattle.um_check.specs.Tests.{units_below, type_below};

use um_tree::{Scheme, Ty};
use um_units::{Atom, Term, Unit};

fn is_below(atom: Atom, limit: u32) -> bool
    ensures { result ≡ atom_below limit atom }
{
    match atom {
        Atom::Base(_) => true,
        Atom::Var(k) => k < limit,
    }
}

fn terms_below(terms: &[Term], limit: u32) -> bool
    ensures { result ≡ variables_below limit terms.now }
{
    terms.iter().all(|term| is_below(term.atom, limit))
}

/// Whether each variable of the units is below the limit.
pub fn units_below(units: &[Unit], limit: u32) -> bool
    ensures { result ≡ units_below limit units.now }
{
    units.iter().all(|unit| terms_below(unit.terms(), limit))
}

fn type_below(ty: &Ty, limit: u32) -> bool
    ensures { result ≡ type_below limit (type_tree ty.now) }
{
    match ty {
        Ty::Bool => true,
        Ty::Num(unit) => terms_below(unit.terms(), limit),
        Ty::List(item) => type_below(item, limit),
        Ty::Rec(_, units) => units_below(units.as_slice(), limit),
    }
}

fn types_below(types: &[Ty], limit: u32) -> bool
    ensures { result ≡ list_all (λ ty. type_below limit (type_tree ty)) types.now }
{
    types.iter().all(|ty| type_below(ty, limit))
}

/// Whether the scheme's types are over its own variables.
pub fn is_over_own(scheme: &Scheme) -> bool
    ensures { result ≡ (list_all (λ ty. type_below scheme.now.vars (type_tree ty)) scheme.now.params.items.items
        && type_below scheme.now.vars (type_tree scheme.now.result)) }
{
    types_below(&scheme.params.items, scheme.vars) && type_below(&scheme.result, scheme.vars)
}
