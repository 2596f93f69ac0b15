// Two outcomes side by side.
use um_tree::Outcome;

/// How a call of a program ends, and how the call of the rescaled program does.
#[derive(Drop)]
pub struct Twin {
    pub first: Outcome,
    pub second: Outcome,
}
