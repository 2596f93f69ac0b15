//! What is left of a unit after an elimination step.

ghost use Rattle.std.specs.Prelude.{◌≡◌};
ghost use Rattle.std.specs.List.{list_any};
ghost use Rattle.um_pivots.specs.Pivot.{is_base, is_other};

use um_units::{Atom, Term};

/// Whether a variable other than m occurs in the terms.
pub fn has_other_variable(terms: &[Term], m: u32) -> bool
    ensures { result ≡ list_any (λ t. is_other m t.atom) terms.now }
{
    terms.iter().any(|term| is_other_variable(term.atom, m))
}

fn is_other_variable(atom: Atom, m: u32) -> bool
    ensures { result ≡ is_other m atom }
{
    match atom {
        Atom::Base(_) => false,
        Atom::Var(k) => k != m,
    }
}

/// Whether a base unit occurs in the terms.
pub fn has_base_unit(terms: &[Term]) -> bool
    ensures { result ≡ list_any (λ t. is_base t.atom) terms.now }
{
    terms.iter().any(|term| is_base_unit(term.atom))
}

fn is_base_unit(atom: Atom) -> bool
    ensures { result ≡ is_base atom }
{
    matches!(atom, Atom::Base(_))
}
