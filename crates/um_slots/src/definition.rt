//! What is read of a function, and what its uses refer to.

use std::alloc::Global;
use um_tree::{Expr, Note, Record, Scheme};

/// What the uses in a function's body refer to, with the allocator.
#[derive(Drop)]
pub struct Environment<'a> {
    pub alloc: Global,
    pub records: &'a [Record],
    /// The schemes of the functions before it
    pub schemes: &'a [Scheme],
    /// The number of the function
    pub number: u32,
    /// Whether it may call itself
    pub recurs: bool,
}

/// A function without its names.
#[derive(Drop)]
pub struct Definition<'a> {
    /// The place of its name
    pub at: u32,
    pub recursive: bool,
    /// How many unit parameters it has
    pub units: u32,
    pub params: &'a [Note],
    pub result: &'a Option<Note>,
    pub body: &'a Expr,
}
