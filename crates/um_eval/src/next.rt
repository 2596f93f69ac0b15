//! What is to be done next, and how a run ends.
use um_cells::Word;
use um_frac::Trap;
use um_tree::Expr;

/// What is to be done next. The value and the trap stand in the evaluator, so that no step writes this to memory.
#[derive(Clone, Copy)]
pub(crate) enum Next<'a> {
    Evaluate(&'a Expr),
    /// The evaluator's value is handed to the innermost frame
    Give,
    /// The evaluator's trap ends the run
    Trap,
    BudgetEnd,
    /// A shape is wrong; no shaped program comes to it
    Wrong,
    NoMemory,
}

/// How a run ends.
#[derive(Clone, Copy)]
pub(crate) enum End {
    Value(Word),
    Trap(Trap),
    BudgetEnd,
    /// A shape is wrong; no shaped program comes to it
    Wrong,
}
