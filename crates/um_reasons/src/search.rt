//! The next row of a core.
ghost use Rattle.std.specs.Prelude.{◌≡◌, ◌<◌, ◌≤◌, ◌+◌, ◌^◌, All, IfOk, length};
ghost use Rattle.um_units.specs.Variables.{VariablesBelow};
ghost use Rattle.um_elim.specs.Instances.{IsRight};
ghost use Rattle.um_elim.specs.Solution.{parameter_rows};
ghost use Rattle.um_equal_types.specs.declared.row.Row.{Row};
ghost use Rattle.um_equal_types.specs.Steps.{units_of};
ghost use Rattle.um_reasons.specs.CoreLaws.{EndsUnsolvable};
ghost use Rattle.um_reasons.specs.Search.{IsNext, has_row, outcome};

use crate::wide_rows::next_wide;
use std::alloc::{AllocError, Global};
use um_elim::{ElimStop, Solver};
use um_rows::Row;

/// What a list of rows comes to.
#[derive(Clone, Copy)]
pub(crate) enum Next {
    /// Its rows have no joint solution.
    Unsolvable,
    /// They have one, and the row of this number is the first with which they have none.
    Row(usize),
}

impl Next {
    /// Whether there is a further row.
    pub(crate) fn has_row(self) -> bool
        ensures { result ≡ has_row self }
    {
        match self {
            Next::Unsolvable => false,
            Next::Row(_) => true,
        }
    }
}

/// The first row with which those of the list are unsolvable. It is looked for with powers in range, and once more with
/// powers of 64 bits if one is out of range.
pub(crate) fn next_row(
    alloc: Global,
    slots: u32,
    bases: u32,
    parameters: u32,
    rows: &[Row],
    list: &[usize],
) -> Result<Next, AllocError>
    requires few { slots ≤ 2000 }
    requires parameters { parameters ≤ slots }
    requires bases { bases + parameters < 2 ^ 32 }
    requires variables { All (λ (row : Row). VariablesBelow slots row.unit) rows.now }
    requires unsolvable { EndsUnsolvable slots (parameter_rows bases parameters) (units_of rows.now) }
    requires list { All (λ k. k < length rows.now) list.now }
    ensures { IfOk result (IsNext slots bases parameters rows.now list.now) }
{
    match next_in_range(alloc, slots, bases, parameters, rows, list) {
        Ok(next) => Ok(next),
        Err(ElimStop::NoMemory) => Err(AllocError),
        Err(_) => next_wide(alloc, slots, bases, parameters, rows, list),
    }
}

/// The same by units in range.
fn next_in_range(
    alloc: Global,
    slots: u32,
    bases: u32,
    parameters: u32,
    rows: &[Row],
    list: &[usize],
) -> Result<Next, ElimStop>
    requires few { slots ≤ 2000 }
    requires parameters { parameters ≤ slots }
    requires bases { bases + parameters < 2 ^ 32 }
    requires variables { All (λ (row : Row). VariablesBelow slots row.unit) rows.now }
    requires unsolvable { EndsUnsolvable slots (parameter_rows bases parameters) (units_of rows.now) }
    requires list { All (λ k. k < length rows.now) list.now }
    ensures { IfOk result (IsNext slots bases parameters rows.now list.now) }
{
    let mut solver = Solver::with_parameters(alloc, slots, bases, parameters)?;
    for i in 0..list.len() {
        if !join(alloc, &mut solver, &rows[list[i]])? {
            return Ok(Next::Unsolvable);
        }
    }
    for j in 0..rows.len() {
        if !join(alloc, &mut solver, &rows[j])? {
            return Ok(Next::Row(j));
        }
    }
    unreachable!()
}

/// Adds the row, and says whether there is a joint solution with it.
fn join(alloc: Global, solver: &mut Solver, row: &Row) -> Result<bool, ElimStop>
    requires variables { VariablesBelow (length solver.old.units) row.now.unit }
    ensures right { IfOk result (λ solved. IsRight solver.old.units row.now.unit (outcome solved solver.new.units)) }
{
    match solver.add(alloc, &row.unit) {
        Ok(()) => Ok(true),
        Err(ElimStop::NoSolution) => Ok(false),
        Err(stop) => Err(stop),
    }
}
