//! What the texts of arguments are read with.
use std::alloc::Global;
use um_value::KnownNames;

/// What stays the same while the arguments of a call are read: the names that their texts may use.
#[derive(Clone, Copy)]
pub(crate) struct Known<'a> {
    pub(crate) alloc: Global,
    pub(crate) names: &'a KnownNames<'a>,
}
