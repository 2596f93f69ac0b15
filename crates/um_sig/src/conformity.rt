//! Whether a function may be used at a signature.

ghost use Rattle.std.specs.Prelude.{◌+◌, ◌<◌, ◌≤◌, All, length, map};
ghost use Rattle.um_tree.specs.ProgramTree.{scheme_tree};
ghost use Rattle.um_tree.specs.TypeTree.{type_tree, type_trees};
ghost use Rattle.um_tree.specs.Scheme.{variables};
ghost use Rattle.um_sig.specs.Form.{AreAlike};
ghost use Rattle.um_sig.specs.Matching.{match_types as matching_of};
ghost use Rattle.um_sig.specs.Instances.{scheme_types, AreOverBases};
ghost use Rattle.um_sig.specs.Answers.{IsMatching, IsConformed, SaysOfInstances};
ghost use Rattle.um_sig.specs.Laws.{IsOverItsVariables};
ghost use Rattle.um_sig.specs.Steps.{HaveRoom};

use crate::form::{first_difference, own_type};
use crate::matching::match_type_at;
use crate::signature::Signature;
use crate::stop::SigStop;
use std::alloc::Global;
use um_elim::Solver;
use um_tree::{Scheme, Ty};

/// Matches types of the same forms, one after another.
fn match_types(alloc: Global, scheme: &Scheme, types: &[Ty], bases: u32) -> Result<(), SigStop>
    requires alike { AreAlike (scheme_types (scheme_tree scheme.now)) (map type_tree types.now) }
    requires few { scheme.now.vars ≤ 2000 }
    requires params { length scheme.now.params.items.items < 4294967295 }
    requires variables { IsOverItsVariables (scheme_tree scheme.now) }
    requires room { HaveRoom bases (variables (map type_tree types.now)) }
    ensures { IsMatching (matching_of bases scheme.now.vars (scheme_types (scheme_tree scheme.now))
        (map type_tree types.now)) result }
{
    let mut solver = Solver::new(alloc, scheme.vars)?;
    for i in 0..types.len() {
        let own = own_type(scheme, i);
        match_type_at(alloc, &mut solver, bases, i as u32, own, &types[i])?;
    }
    Ok(())
}

/// Whether a function with this scheme may be used at the signature: Ok exactly if each instance of the signature is
/// an instance of the scheme and no power leaves the range on the way.
///
/// The scheme's variables are below its `vars`, which is at most 2,000, and the signature's below its own. `bases` is
/// the number of declared base units; after them each of the signature's variables is taken for a base unit of its
/// own. The types are matched from left to right, the result's last, and each from left to right unit by unit (Kennedy,
/// Programming Languages and Dimensions, 1996: matching in the free abelian group; the order and the range are this
/// project's own).
///
/// # Errors
///
/// - `Form` at the first index at which only one of scheme and signature has a type, or the two types differ in more
///   than their units.
/// - Otherwise at the first unit that stops: `Range` if a power leaves the range while its equation is formed and
///   solved, and `Units` if no units in place of the scheme's variables make all units up to it equal. The index is
///   that of its type.
/// - `NoMemory` may come with any arguments.
pub fn conform(
    alloc: Global,
    scheme: &Scheme,
    signature: &Signature,
    bases: u32,
) -> Result<(), SigStop>
    requires scheme { IsOverItsVariables (scheme_tree scheme.now) }
    requires few { scheme.now.vars ≤ 2000 }
    requires signature { All (λ k. k < signature.now.vars) (variables (type_trees signature.now.types)) }
    requires bases { bases + signature.now.vars ≤ 4294967295 }
    requires params { length scheme.now.params.items.items < 4294967295 }
    ensures conformed { IsConformed bases (scheme_tree scheme.now) (type_trees signature.now.types) result }
    ensures instances { AreOverBases bases (scheme_types (scheme_tree scheme.now))
        → AreOverBases bases (type_trees signature.now.types)
        → SaysOfInstances bases (scheme_types (scheme_tree scheme.now)) (type_trees signature.now.types) result }
{
    let types = &signature.types.items;
    match first_difference(scheme, types) {
        Some(index) => Err(SigStop::Form { index }),
        None => match_types(alloc, scheme, types, bases),
    }
}
