//! Types under the solution of a function's rows.
ghost use Rattle.std.specs.Prelude.{◌≡◌, IfOk, MatchResult, IsTrue, false, map};
ghost use Rattle.std.specs.List.{list_all};
ghost use Rattle.um_units.specs.PowerMap.{nth};
ghost use Rattle.um_tree.specs.TypeTree.{type_tree, type_trees};
ghost use Rattle.um_tree.specs.Typing.{put};
ghost use Rattle.um_tree.specs.Scheme.{signature_types};
ghost use Rattle.um_elim.specs.Application.{type_fits};
ghost use Rattle.um_rows.specs.Answers.{rows_signature};
ghost use Rattle.um_solving.specs.Solving.{RefusesUnless};

use crate::refusal::Refusal;
use std::alloc::Global;
use um_elim::{ElimStop, Solver};
use um_rows::Rows;
use um_tree::{Ty, Types};

/// The types of the parameters and, last, the result of a function with these rows, with the solution put for their
/// slots (Kennedy 1996). The solver must have refused no row.
///
/// # Errors
///
/// `PowerRange` at `at`, the place of the function's name, if a power of these types is out of range; the range is this
/// project's own. `NoMemory` otherwise.
pub fn solved_types(alloc: Global, solver: &Solver, rows: &Rows, at: u32) -> Result<Types, Refusal>
    requires { solver.now.spent ≡ false }
    ensures solved { IfOk result (λ types. type_trees types
        ≡ map (put (nth solver.now.units)) (signature_types (rows_signature rows.now))) }
    ensures range { MatchResult result (λ types. IsTrue (list_all type_fits (type_trees types)))
        (RefusesUnless at (list_all type_fits (map (put (nth solver.now.units))
        (signature_types (rows_signature rows.now))))) }
{
    let mut items = solved_params(alloc, solver, &rows.params.items, at)?;
    match solved_type(alloc, solver, &rows.result, at) {
        Ok(result) => match items.push(result) {
            Ok(()) => Ok(Types { items }),
            Err(failed) => {
                drop(items);
                Err(Refusal::from(failed))
            }
        },
        Err(refusal) => {
            drop(items);
            Err(refusal)
        }
    }
}

fn solved_params(alloc: Global, solver: &Solver, params: &[Ty], at: u32) -> Result<Vec<Ty>, Refusal>
    requires { solver.now.spent ≡ false }
    ensures solved { IfOk result (λ items. map type_tree items.items
        ≡ map (put (nth solver.now.units)) (map type_tree params.now)) }
    ensures range { MatchResult result (λ items. IsTrue (list_all type_fits (map type_tree items.items)))
        (RefusesUnless at (list_all type_fits (map (put (nth solver.now.units)) (map type_tree params.now)))) }
{
    let mut items = Vec::new(alloc);
    items.reserve(params.len() + 1)?;
    for ty in params {
        items.push(solved_type(alloc, solver, ty, at)?)?;
    }
    Ok(items)
}

fn solved_type(alloc: Global, solver: &Solver, ty: &Ty, at: u32) -> Result<Ty, Refusal>
    requires { solver.now.spent ≡ false }
    ensures solved { IfOk result (λ t. type_tree t ≡ put (nth solver.now.units) (type_tree ty.now)) }
    ensures range { MatchResult result (λ t. IsTrue (type_fits (type_tree t)))
        (RefusesUnless at (type_fits (put (nth solver.now.units) (type_tree ty.now)))) }
{
    match solver.apply(alloc, ty) {
        Ok(solved) => Ok(solved),
        Err(ElimStop::Range) => Err(Refusal::PowerRange { at }),
        Err(ElimStop::NoMemory) => Err(Refusal::NoMemory),
        Err(ElimStop::NoSolution | ElimStop::Spent) => unreachable!(),
    }
}
