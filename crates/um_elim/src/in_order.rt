//! Whether the variables of types have their numbers already.

ghost use Rattle.std.specs.Prelude.{◌∷◌, [], IfSome, map};
ghost use Rattle.std.specs.List.{flat_map};
ghost use Rattle.um_tree.specs.TypeTree.{type_tree};
ghost use Rattle.um_tree.specs.Scheme.{atom_variables, type_variables, unit_variables, FirstComeInOrder, IsNumberedBy};

use um_tree::Ty;
use um_units::{Atom, Term, Unit};

/// The next new number after this variable, which is an old one or has the next number.
fn behind_variable(next: u32, variable: u32) -> Option<u32>
    ensures { IfSome result (FirstComeInOrder next (variable ∷ [])) }
{
    if variable < next {
        return Some(next);
    }
    if next < variable {
        return None;
    }
    if next == u32::MAX {
        return None;
    }
    Some(next + 1)
}

fn behind_term(next: u32, term: Term) -> Option<u32>
    ensures { IfSome result (FirstComeInOrder next (atom_variables term.atom)) }
{
    match term.atom {
        Atom::Base(_) => Some(next),
        Atom::Var(variable) => behind_variable(next, variable),
    }
}

fn behind_terms(next: u32, terms: &[Term]) -> Option<u32>
    ensures { IfSome result (FirstComeInOrder next (flat_map (λ t. atom_variables t.atom) terms.now)) }
{
    let mut last = next;
    for term in terms {
        last = behind_term(last, *term)?;
    }
    Some(last)
}

fn behind_unit(next: u32, unit: &Unit) -> Option<u32>
    ensures { IfSome result (FirstComeInOrder next (unit_variables unit.now)) }
{
    behind_terms(next, unit.terms())
}

fn behind_units(next: u32, units: &[Unit]) -> Option<u32>
    ensures { IfSome result (FirstComeInOrder next (flat_map unit_variables units.now)) }
{
    let mut last = next;
    for unit in units {
        last = behind_unit(last, unit)?;
    }
    Some(last)
}

fn behind_type(next: u32, ty: &Ty) -> Option<u32>
    ensures { IfSome result (FirstComeInOrder next (type_variables (type_tree ty.now))) }
{
    match ty {
        Ty::Bool => Some(next),
        Ty::Num(unit) => behind_unit(next, unit),
        Ty::List(item) => behind_type(next, item),
        Ty::Rec(_, units) => behind_units(next, units.as_slice()),
    }
}

/// How many variables the types have, if these have the numbers from 0 on in the order of their first occurrence.
pub fn numbered_already(types: &[Ty]) -> Option<u32>
    ensures { IfSome result (λ vars. IsNumberedBy vars (map type_tree types.now)) }
{
    let mut last = 0;
    for ty in types {
        last = behind_type(last, ty)?;
    }
    Some(last)
}
