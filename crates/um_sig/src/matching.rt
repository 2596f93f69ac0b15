//! The rows of a scheme's types and a signature's, added to a solver one by one.

ghost use Rattle.std.specs.Prelude.{◌≡◌, ◌<◌, ◌∷◌, [], All, false, length};
ghost use Rattle.std.specs.List.{flat_map};
ghost use Rattle.um_tree.specs.TypeTree.{type_tree};
ghost use Rattle.um_tree.specs.Scheme.{unit_variables, type_variables};
ghost use Rattle.um_sig.specs.Form.{form};
ghost use Rattle.um_sig.specs.Matching.{unit_row as row_of_units, unit_rows, type_rows};
ghost use Rattle.um_sig.specs.Steps.{HaveRoom, AreEliminated, IsTypeMatched};

use crate::row::unit_row;
use crate::stop::SigStop;
use std::alloc::Global;
use um_elim::{ElimStop, Solver};
use um_tree::Ty;
use um_units::Unit;

/// Adds the row of two units.
fn match_unit(
    alloc: Global,
    solver: &mut Solver,
    bases: u32,
    own: &Unit,
    other: &Unit,
) -> Result<(), ElimStop>
    requires unspent { solver.old.spent ≡ false }
    requires variables { All (λ k. k < length solver.old.units) (unit_variables own.now) }
    requires room { HaveRoom bases (unit_variables other.now) }
    ensures { AreEliminated (row_of_units bases own.now other.now ∷ []) solver.old solver.new result }
{
    let row = unit_row(alloc, bases, own, other)?;
    solver.add(alloc, &row)
}

/// Adds the rows of as many units of both, unit by unit.
fn match_units(
    alloc: Global,
    solver: &mut Solver,
    bases: u32,
    own: &[Unit],
    other: &[Unit],
) -> Result<(), ElimStop>
    requires unspent { solver.old.spent ≡ false }
    requires count { length own.now ≡ length other.now }
    requires variables { All (λ k. k < length solver.old.units) (flat_map unit_variables own.now) }
    requires room { HaveRoom bases (flat_map unit_variables other.now) }
    ensures { AreEliminated (unit_rows bases own.now other.now) solver.old solver.new result }
{
    for i in 0..own.len() {
        match_unit(alloc, solver, bases, &own[i], &other[i])?;
    }
    Ok(())
}

/// Adds the rows of two types of one form, from left to right.
fn match_type(
    alloc: Global,
    solver: &mut Solver,
    bases: u32,
    own: &Ty,
    other: &Ty,
) -> Result<(), ElimStop>
    requires unspent { solver.old.spent ≡ false }
    requires alike { form (type_tree own.now) ≡ form (type_tree other.now) }
    requires variables { All (λ k. k < length solver.old.units) (type_variables (type_tree own.now)) }
    requires room { HaveRoom bases (type_variables (type_tree other.now)) }
    ensures { AreEliminated (type_rows bases (type_tree own.now) (type_tree other.now)) solver.old solver.new result }
{
    match (own, other) {
        (Ty::Num(u), Ty::Num(v)) => match_unit(alloc, solver, bases, u, v),
        (Ty::List(s), Ty::List(t)) => match_type(alloc, solver, bases, s, t),
        (Ty::Rec(_, us), Ty::Rec(_, vs)) => {
            match_units(alloc, solver, bases, us.as_slice(), vs.as_slice())
        }
        _ => Ok(()),
    }
}

/// Adds the rows of the two types at an index, which have one form.
pub(crate) fn match_type_at(
    alloc: Global,
    solver: &mut Solver,
    bases: u32,
    index: u32,
    own: &Ty,
    other: &Ty,
) -> Result<(), SigStop>
    requires unspent { solver.old.spent ≡ false }
    requires alike { form (type_tree own.now) ≡ form (type_tree other.now) }
    requires variables { All (λ k. k < length solver.old.units) (type_variables (type_tree own.now)) }
    requires room { HaveRoom bases (type_variables (type_tree other.now)) }
    ensures { IsTypeMatched index (type_rows bases (type_tree own.now) (type_tree other.now)) solver.old solver.new
        result }
{
    match match_type(alloc, solver, bases, own, other) {
        Ok(()) => Ok(()),
        Err(ElimStop::NoSolution) => Err(SigStop::Units { index }),
        Err(ElimStop::Range) => Err(SigStop::Range { index }),
        Err(ElimStop::NoMemory) => Err(SigStop::NoMemory),
        Err(ElimStop::Spent) => unreachable!(),
    }
}
