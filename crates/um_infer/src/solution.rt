//! The types of a function that has a scheme, by the solution of its equations.
ghost use Rattle.std.specs.Prelude.{◌≡◌, ℕ, IfOk, map};
ghost use Rattle.um_units.specs.PowerMap.{nth};
ghost use Rattle.um_tree.specs.TypeTree.{type_trees};
ghost use Rattle.um_tree.specs.ProgramTree.{SchemeTree};
ghost use Rattle.um_tree.specs.Typing.{put};
ghost use Rattle.um_tree.specs.Scheme.{signature_types};
ghost use Rattle.um_elim.specs.Solution.{rigid_units};
ghost use Rattle.um_rows.specs.Answers.{rows_signature};
ghost use Rattle.um_rows.specs.Judgement.{has_scheme, by_rows};
ghost use Rattle.um_solving.specs.Solving.{IsSolutionOf, IsRefusal};

use std::alloc::{AllocError, Global};
use um_elim::Solver;
use um_rows::Rows;
use um_solving::{Refusal, solved_types};
use um_tree::Types;

/// The types of the parameters and, last, the result of a function that has a scheme and these rows, with the solution
/// put for their slots (Kennedy 1996). The solver is that after all rows, with each unit parameter as a unit of its
/// own. Want of memory is the one error.
pub fn signature_by(
    alloc: Global,
    solver: &Solver,
    rows: &Rows,
    at: u32,
) -> Result<Types, AllocError>
    requires { (bases parameters : ℕ) × (s : SchemeTree) × IsSolutionOf rows.now.slots
        (rigid_units bases parameters rows.now.slots) rows.now.list.items.items solver.now
        × (by_rows bases parameters rows.now.slots at (rows_signature rows.now) rows.now.list.items.items
        ≡ has_scheme s) }
    ensures { IfOk result (λ types. type_trees types
        ≡ map (put (nth solver.now.units)) (signature_types (rows_signature rows.now))) }
{
    match solved_types(alloc, solver, rows, at) {
        Ok(types) => Ok(types),
        Err(refusal) => Err(memory_alone(refusal)),
    }
}

/// A function that has a scheme is refused for want of memory alone.
fn memory_alone(refusal: Refusal) -> AllocError
    requires { (s : SchemeTree) × IsRefusal (has_scheme s) refusal }
{
    match refusal {
        Refusal::NoMemory => AllocError,
        Refusal::Units { at: _ }
        | Refusal::NotGeneral { at: _ }
        | Refusal::PowerRange { at: _ }
        | Refusal::Slots => unreachable!(),
    }
}
