//! What a step answers.
use um_tree::Outcome;

/// What a step of a machine answers.
#[derive(Drop)]
pub enum Step {
    /// The machine goes on.
    Going,
    /// The run has ended.
    Ended(Outcome),
    /// No instruction applies.
    Stuck,
}
