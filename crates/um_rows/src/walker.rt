//! What a walk over a body goes by.

ghost use Rattle.std.specs.Prelude.{All};
ghost use Rattle.um_slots.specs.SlotUnits.{AreVariables};
ghost use Rattle.um_rows.specs.Closed.{AreClosedBefore, IsClosedRecord, closed_before_prop, closed_records_prop};

use std::alloc::Global;
use um_slots::Context;
use um_tree::{Record, Scheme};

/// The records of the program, the schemes of the functions before this one, and what is known of it. `keep` asks for
/// the types of all nodes.
#[derive(Drop)]
pub(crate) struct Walk<'a> {
    pub(crate) alloc: Global,
    pub(crate) records: &'a [Record],
    pub(crate) schemes: &'a [Scheme],
    pub(crate) context: Context,
    pub(crate) keep: bool,
    ghost variables: { AreVariables context.holes.items },
    ghost closed_schemes: { AreClosedBefore context.number schemes.now } by { closed_before_prop context.number schemes.now },
    ghost closed_records: { All IsClosedRecord records.now } by { closed_records_prop records.now },
}
