//! Rows, added to a solver one by one.
ghost use Rattle.std.specs.Prelude.{◌≡◌, ◌≤◌, ◌<◌, ◌+◌, ◌^◌, ℕ, All, OnOk, false, length};
ghost use Rattle.um_units.specs.Variables.{VariablesBelow};
ghost use Rattle.um_elim.specs.Adding.{VariablesStayBelow};
ghost use Rattle.um_elim.specs.Solution.{own_variables, rigid_units};
ghost use Rattle.um_equal_types.specs.declared.row.Row.{Row};
ghost use Rattle.um_rows.specs.FirstUnsolvable.{solve, rows_up_to};
ghost use Rattle.um_rows.specs.Judgement.{by_slots};
ghost use Rattle.um_solving.specs.Solving.{IsRowAdded, AreSolved, AreRigidlySolved, IsRefusal};

use crate::refusal::Refusal;
use std::alloc::{AllocError, Global};
use um_elim::{ElimStop, Solver};
use um_rows::Row;

/// Why rows have no solver.
#[derive(Clone, Copy)]
pub(crate) enum SolveStop {
    /// The first row that no units satisfy together with those before it, by its number from 0, and its place.
    NoSolution { row: usize, at: u32 },
    /// A power is out of range while the row at this place is added.
    Range { at: u32 },
    /// No memory was left.
    NoMemory,
}

impl From<AllocError> for SolveStop {
    ghost use Rattle.std.specs.Prelude.{◌≡◌};
    ghost use Rattle.um_solving.specs.declared.solving.SolveStop.TheVariants.{NoMemory};

    ghost from_gives = { λ _ stop. stop ≡ NoMemory };

    fn from(_error: AllocError) -> SolveStop {
        SolveStop::NoMemory
    }
}

/// The solver after all rows of a function, with each unit parameter as a unit of its own: row after row by elimination
/// (Kennedy 1996).
///
/// `slots` says how many slots the rows are over, at most 2,000; the first `parameters` of them are those of the unit
/// parameters. `bases` is how many base units the program has.
///
/// # Errors
///
/// The first row without a solution decides, with its place. It is `NotGeneral` if the rows up to it have a solution
/// with the unit parameters as slots like the others, and `Units` otherwise. `PowerRange` tells the place of a row at
/// which a power is out of range; the range is this project's own. `NoMemory` may come in place of each answer.
pub fn rigid_solver(
    alloc: Global,
    slots: u32,
    bases: u32,
    parameters: u32,
    rows: &[Row],
) -> Result<Solver, Refusal>
    requires few { slots ≤ 2000 }
    requires parameters { parameters ≤ slots }
    requires bases { bases + parameters < 2 ^ 32 }
    requires variables { All (λ (row : Row). VariablesBelow slots row.unit) rows.now }
    ensures { AreRigidlySolved bases parameters slots rows.now result }
{
    match solve_rows(alloc, slots, bases, parameters, rows) {
        Ok(solver) => Ok(solver),
        Err(SolveStop::NoSolution { row, at }) => {
            Err(row_refusal(alloc, slots, up_to(rows, row), at))
        }
        Err(SolveStop::Range { at }) => Err(Refusal::PowerRange { at }),
        Err(SolveStop::NoMemory) => Err(Refusal::NoMemory),
    }
}

/// The rows up to this one.
fn up_to(rows: &[Row], row: usize) -> &[Row]
    ensures { result.now ≡ rows_up_to row rows.now }
{
    if row < rows.len() {
        return &rows[..row + 1];
    }
    rows
}

/// The refusal at the last of these rows, which has no solution in which each unit parameter is a unit of its own.
fn row_refusal(alloc: Global, slots: u32, rows: &[Row], at: u32) -> Refusal
    requires few { slots ≤ 2000 }
    requires variables { All (λ (row : Row). VariablesBelow slots row.unit) rows.now }
    ensures { (row : ℕ) → IsRefusal (by_slots row at (solve 0 rows.now (own_variables slots))) result }
{
    match solve_rows(alloc, slots, 0, 0, rows) {
        Ok(solver) => {
            drop(solver);
            Refusal::NotGeneral { at }
        }
        Err(SolveStop::NoSolution { row: _, at: _ }) => Refusal::Units { at },
        Err(SolveStop::Range { at }) => Refusal::PowerRange { at },
        Err(SolveStop::NoMemory) => Refusal::NoMemory,
    }
}

/// The solver after all rows, or the first that has no solution or a power out of range.
fn solve_rows(
    alloc: Global,
    slots: u32,
    bases: u32,
    parameters: u32,
    rows: &[Row],
) -> Result<Solver, SolveStop>
    requires few { slots ≤ 2000 }
    requires parameters { parameters ≤ slots }
    requires bases { bases + parameters < 2 ^ 32 }
    requires variables { All (λ (row : Row). VariablesBelow slots row.unit) rows.now }
    ensures { AreSolved slots (rigid_units bases parameters slots) rows.now result }
{
    let mut solver = Solver::with_parameters(alloc, slots, bases, parameters)?;
    for i in 0..rows.len() {
        match add_row(alloc, &mut solver, i, &rows[i]) {
            Ok(()) => {}
            Err(stop) => {
                drop(solver);
                return Err(stop);
            }
        }
    }
    Ok(solver)
}

/// Adds the row of this number.
fn add_row(alloc: Global, solver: &mut Solver, number: usize, row: &Row) -> Result<(), SolveStop>
    requires unspent { solver.old.spent ≡ false }
    requires variables { VariablesBelow (length solver.old.units) row.now.unit }
    ensures added { IsRowAdded number solver.old row.now solver.new result }
    ensures slots { length solver.new.units ≡ length solver.old.units }
    ensures variables { OnOk result (VariablesStayBelow solver.old.units solver.new.units) }
{
    match solver.add(alloc, &row.unit) {
        Ok(()) => Ok(()),
        Err(ElimStop::NoSolution) => Err(SolveStop::NoSolution {
            row: number,
            at: row.at,
        }),
        Err(ElimStop::Range) => Err(SolveStop::Range { at: row.at }),
        Err(ElimStop::NoMemory) => Err(SolveStop::NoMemory),
        Err(ElimStop::Spent) => unreachable!(),
    }
}
