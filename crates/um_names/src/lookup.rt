//! What the names of an expression are looked up with.
ghost use Rattle.um_names.specs.Tables.{AreTables};

use crate::known::Tables;
use crate::node::Body;
use std::alloc::Global;
use um_tree::{Binder, RawExpr};

/// What stays the same while the names of a body are looked up: the declarations before it, and what it knows itself.
#[derive(Drop)]
pub(crate) struct Lookup<'a> {
    pub(crate) alloc: Global,
    pub(crate) tables: &'a Tables,
    pub(crate) body: &'a Body,
    ghost declared: { AreTables tables.now },
}

/// The arm of a `match` for a list with a head: its two variables, and the expression in which they are in scope.
#[derive(Drop)]
pub(crate) struct Arm<'a> {
    pub(crate) head: &'a Binder,
    pub(crate) tail: &'a Binder,
    pub(crate) part: &'a RawExpr,
}
