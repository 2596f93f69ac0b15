//! The first row that has no solution.

ghost use Rattle.std.specs.Prelude.{◌≡◌, ◌<◌, ◌≤◌, ◌+◌, ◌^◌, ℕ, All, IfOk};
ghost use Rattle.um_units.specs.Variables.{VariablesBelow};
ghost use Rattle.um_elim.specs.Solution.{rigid_units};
ghost use Rattle.um_equal_types.specs.declared.row.Row.{Row};
ghost use Rattle.um_rows.specs.FirstUnsolvable.{solve, unsolved};

use std::alloc::{AllocError, Global};
use um_elim::Solver;
use um_reasons::join;
use um_rows::Row;

/// The number of the first row with which the rows have no solution in which each unit parameter is a unit of its own.
pub(crate) fn first_unsolvable(
    alloc: Global,
    slots: u32,
    bases: u32,
    parameters: u32,
    rows: &[Row],
) -> Result<usize, AllocError>
    requires few { slots ≤ 2000 }
    requires parameters { parameters ≤ slots }
    requires bases { bases + parameters < 2 ^ 32 }
    requires variables { All (λ (row : Row). VariablesBelow slots row.unit) rows.now }
    requires unsolvable { (k : ℕ) × (at : ℕ)
        × (solve 0 rows.now (rigid_units bases parameters slots) ≡ unsolved k at) }
    ensures { (k at : ℕ) → solve 0 rows.now (rigid_units bases parameters slots) ≡ unsolved k at →
        IfOk result (λ row. row ≡ k) }
{
    let mut solver = Solver::with_parameters(alloc, slots, bases, parameters)?;
    for k in 0..rows.len() {
        if !join(alloc, &mut solver, &rows[k])? {
            return Ok(k);
        }
    }
    unreachable!()
}
