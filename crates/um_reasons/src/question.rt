//! The core's other rows, solved.

ghost use Rattle.std.specs.Prelude.{◌≡◌, ◌<◌, ◌≤◌, ◌+◌, ◌^◌, false, All, IfOk, length};
ghost use Rattle.um_units.specs.Variables.{VariablesBelow};
ghost use Rattle.um_elim.specs.Elimination.{eliminate_rows};
ghost use Rattle.um_elim.specs.Solution.{rigid_units};
ghost use Rattle.um_equal_types.specs.declared.row.Row.{Row};
ghost use Rattle.um_equal_types.specs.Steps.{units_of};
ghost use Rattle.um_reasons.specs.Reasons.{numbered, other_rows};
ghost use Rattle.um_reasons.specs.Answers.{IsSolving, IsJoined};

use std::alloc::{AllocError, Global};
use um_elim::{ElimStop, Solver};
use um_rows::Row;

/// Rows that have no joint solution, of which the last is the first unsolvable one, with a core of them.
///
/// The rows are over so many slots, and the slot of unit parameter k is k. If each unit parameter is a unit of its own,
/// it is the base unit `bases + k`; with no parameters they are slots like the others.
#[derive(Clone, Copy)]
pub struct Question<'a> {
    pub slots: u32,
    pub bases: u32,
    pub parameters: u32,
    pub rows: &'a [Row],
    pub core: &'a [usize],
}

/// The solution of the core's rows but the last, or none if a power is out of range.
pub(crate) fn others_solved(
    alloc: Global,
    question: &Question,
) -> Result<Option<Solver>, AllocError>
    requires few { question.now.slots ≤ 2000 }
    requires parameters { question.now.parameters ≤ question.now.slots }
    requires bases { question.now.bases + question.now.parameters < 2 ^ 32 }
    requires variables { All (λ (row : Row). VariablesBelow question.now.slots row.unit) question.now.rows.now }
    requires some { 0 < length question.now.rows.now }
    ensures { IfOk result (IsSolving (eliminate_rows
        (rigid_units question.now.bases question.now.parameters question.now.slots)
        (numbered (units_of question.now.rows.now)
        (other_rows (length (units_of question.now.rows.now)) question.now.core.now)))) }
{
    let mut solver = Solver::with_parameters(
        alloc,
        question.slots,
        question.bases,
        question.parameters,
    )?;
    for k in 0..question.rows.len() - 1 {
        if question.core.contains(&k) && !join(alloc, &mut solver, &question.rows[k])? {
            return Ok(None);
        }
    }
    Ok(Some(solver))
}

/// Adds a row, and says whether it has a solution together with the rows that were added before.
///
/// The row's variables are slots of the solver. If the row has no such solution, or a power is out of range, the answer
/// is false, and the solver takes no further row. Want of memory is the one error. A row is added as by `Solver::add`.
pub fn join(alloc: Global, solver: &mut Solver, row: &Row) -> Result<bool, AllocError>
    requires unspent { solver.old.spent ≡ false }
    requires variables { VariablesBelow (length solver.old.units) row.now.unit }
    ensures joined { IfOk result (IsJoined solver.old row.now.unit solver.new) }
    ensures slots { length solver.new.units ≡ length solver.old.units }
{
    match solver.add(alloc, &row.unit) {
        Ok(()) => Ok(true),
        Err(ElimStop::NoSolution | ElimStop::Range) => Ok(false),
        Err(ElimStop::NoMemory) => Err(AllocError),
        Err(ElimStop::Spent) => unreachable!(),
    }
}
