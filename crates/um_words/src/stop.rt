//! Why a step doesn't go on.
use um_frac::Trap;

/// Why a step doesn't go on.
#[derive(Clone, Copy)]
pub enum Stop {
    Trap(Trap),
    BudgetEnd,
    /// No instruction applies
    Stuck,
    NoMemory,
    /// The outermost function has returned, with the topmost value
    Returned,
}
