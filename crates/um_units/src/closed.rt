//! Whether a unit holds a variable.

ghost use Rattle.std.specs.Prelude.{◌≡◌, IsTrue};
ghost use Rattle.um_units.specs.Terms.{is_normal};
ghost use Rattle.um_units.specs.Variables.{atom_below, variables_below};

use crate::{Atom, Term};

fn is_base(atom: Atom) -> bool
    ensures { result ≡ atom_below 0 atom }
{
    match atom {
        Atom::Base(_) => true,
        Atom::Var(_) => false,
    }
}

/// Whether the terms of a unit hold no variable. Variables come after base units, so that the last term decides.
pub fn are_closed(terms: &[Term]) -> bool
    requires { IsTrue (is_normal terms.now) }
    ensures { result ≡ variables_below 0 terms.now }
{
    match terms.last() {
        Some(last) => is_base(last.atom),
        None => true,
    }
}
