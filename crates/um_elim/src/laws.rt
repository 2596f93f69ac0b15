//! The laws of elimination steps, as contracts of functions that do nothing. A crate above cites the law that it needs.
ghost use Rattle.um_elim.specs.Laws.{SolvedRowsFollowSteps, RefusedRowsFollowSteps};

/// If the elimination solves a row, steps of what the slots' units make of the row leave 1, or a variable to a positive
/// power that then becomes 1, and the new units are those that the steps make. If it refuses a row, steps leave a unit
/// that nothing makes 1.
pub fn eliminations()
    ensures solved { SolvedRowsFollowSteps }
    ensures refused { RefusedRowsFollowSteps }
{}
