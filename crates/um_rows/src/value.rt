//! A record at the units of a value.

ghost use Rattle.std.specs.Prelude.{◌≡◌, length};
ghost use Rattle.um_slots.specs.SlotUnits.{AreVariables};
ghost use Rattle.um_rows.specs.Closed.{IsClosedRecord, closed_record_prop};

use um_tree::Record;
use um_units::Unit;

/// The record of this number, whose units are these variables.
#[derive(Drop)]
pub(crate) struct Value<'a> {
    pub(crate) number: u32,
    pub(crate) declaration: &'a Record,
    pub(crate) units: &'a [Unit],
    ghost variables: { AreVariables units.now },
    ghost many: { length units.now ≡ declaration.now.units },
    ghost closed: { IsClosedRecord declaration.now } by { closed_record_prop declaration.now },
}
