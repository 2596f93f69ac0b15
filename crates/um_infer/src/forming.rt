//! The scheme of a function from its equations.
ghost use Rattle.std.specs.Prelude.{◌≡◌, ◌<◌, ◌≤◌, ◌+◌, ◌^◌, All, IfOk, length};
ghost use Rattle.um_units.specs.Variables.{VariablesBelow};
ghost use Rattle.um_tree.specs.TypeTree.{type_trees};
ghost use Rattle.um_tree.specs.ProgramTree.{scheme_tree};
ghost use Rattle.um_tree.specs.Scheme.{signature_types, variables};
ghost use Rattle.um_elim.specs.Numbering.{renumbered, variable_order};
ghost use Rattle.um_elim.specs.Solution.{rigid_units};
ghost use Rattle.um_equal_types.specs.declared.row.Row.{Row};
ghost use Rattle.um_rows.specs.Answers.{rows_signature};
ghost use Rattle.um_rows.specs.Judgement.{by_rows};
ghost use Rattle.um_infer.specs.Forming.{IsAnswer};
ghost use Rattle.um_solving.specs.Solving.{IsSolutionOf};

use crate::general::general_types;
use std::alloc::{AllocError, Global};
use um_elim::{Numbered, Solver, renumber};
use um_rows::{Row, Rows};
use um_solving::{Refusal, rigid_solver, solved_types};
use um_tree::{Scheme, Types};

/// The formed scheme of a function of a program with so many base units: the rows are solved one by one, with each unit
/// parameter as a unit of its own, the solution is put for the slots of the types, unit parameters become variables,
/// and all variables are numbered. A power of these types that is out of range is refused at the place `at`.
pub(crate) fn formed_scheme(
    alloc: Global,
    rows: &Rows,
    bases: u32,
    parameters: u32,
    at: u32,
) -> Result<Scheme, Refusal>
    requires few { rows.now.slots ≤ 2000 }
    requires parameters { parameters ≤ rows.now.slots }
    requires bases { bases + parameters < 2 ^ 32 }
    requires rows { All (λ (row : Row). VariablesBelow rows.now.slots row.unit) rows.now.list.items.items }
    requires types { All (λ k. k < rows.now.slots) (variables (signature_types (rows_signature rows.now))) }
    ensures { IsAnswer (by_rows bases parameters rows.now.slots at
        (rows_signature rows.now) rows.now.list.items.items) result }
{
    let solver = rigid_solver(alloc, rows.slots, bases, parameters, &rows.list.items)?;
    scheme_by(alloc, &solver, rows, bases, parameters, at)
}

/// The same by the solver after all rows.
pub(crate) fn scheme_by(
    alloc: Global,
    solver: &Solver,
    rows: &Rows,
    bases: u32,
    parameters: u32,
    at: u32,
) -> Result<Scheme, Refusal>
    requires few { rows.now.slots ≤ 2000 }
    requires parameters { parameters ≤ rows.now.slots }
    requires bases { bases + parameters < 2 ^ 32 }
    requires types { All (λ k. k < rows.now.slots) (variables (signature_types (rows_signature rows.now))) }
    requires solved { IsSolutionOf rows.now.slots (rigid_units bases parameters rows.now.slots)
        rows.now.list.items.items solver.now }
    ensures { IsAnswer (by_rows bases parameters rows.now.slots at
        (rows_signature rows.now) rows.now.list.items.items) result }
{
    let types = solved_types(alloc, solver, rows, at)?;
    let general = general_types(alloc, bases, parameters, rows.slots, types)?;
    Ok(numbered_scheme(alloc, general)?)
}

/// The scheme of types whose last is the result's, with their variables numbered.
fn numbered_scheme(alloc: Global, types: Types) -> Result<Scheme, AllocError>
    requires some { 0 < length types.items.items }
    requires variables { All (λ k. k < 4294967295) (variables (type_trees types)) }
    ensures types { IfOk result (λ scheme. signature_types (scheme_tree scheme).signature
        ≡ renumbered (type_trees types)) }
    ensures vars { IfOk result (λ scheme. scheme.vars ≡ length (variable_order (type_trees types))) }
{
    let Numbered { mut types, vars } = renumber(alloc, types)?;
    let Some(result) = types.items.pop() else {
        unreachable!()
    };
    Ok(Scheme {
        params: types,
        result,
        vars,
    })
}
