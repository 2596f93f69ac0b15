//! Where a walk over a body stands.

use crate::nodes::NodeType;
use um_equal_types::Row;
use um_tree::Ty;

/// The rows so far, and the number of holes so far.
#[derive(Drop)]
pub(crate) struct Progress {
    pub(crate) rows: Vec<Row>,
    pub(crate) holes: usize,
}

/// The types of the variables in scope, with the progress and the types of nodes that are kept.
#[derive(Drop)]
pub(crate) struct State {
    pub(crate) scope: Vec<Ty>,
    pub(crate) progress: Progress,
    pub(crate) kept: Vec<NodeType>,
}

/// The types of two parts.
#[derive(Drop)]
pub(crate) struct Pair {
    pub(crate) first: Ty,
    pub(crate) second: Ty,
}
