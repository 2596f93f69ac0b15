//! What is known while a body is looked at: the records, and the functions that may be called.
ghost use Rattle.std.specs.Prelude.{◌≤◌};
ghost use Rattle.um_tree.specs.Heights.{greatest_height};

use crate::flat::FlatShape;

/// A record: the shapes of its fields, and its height.
#[derive(Drop)]
pub(crate) struct KnownRecord {
    pub(crate) fields: Vec<FlatShape>,
    pub(crate) height: u32,
    ghost high: { 1 ≤ height },
    ghost low: { height ≤ greatest_height },
}

/// The shapes of a function's parameters and of its result.
#[derive(Drop)]
pub(crate) struct Head {
    pub(crate) params: Vec<FlatShape>,
    pub(crate) result: FlatShape,
}

/// The records, and the functions that may be called.
#[derive(Drop)]
pub(crate) struct Known {
    pub(crate) records: Vec<KnownRecord>,
    pub(crate) heads: Vec<Head>,
}
