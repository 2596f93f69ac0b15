//! Rows, and why a function has none.

use std::alloc::{AllocError, AllocFailed};
use thiserror::Error;
use um_slots::SlotStop;
use um_tree::{Ty, Types};
use um_units::Unit;

/// An equation at a place of the text: it asks that the unit, over slots, is 1.
pub struct Row {
    pub at: u32,
    pub unit: Unit,
}

// A derived drop would be proved anew in each crate that lets rows go. This one is proved here.
impl Drop for Row {
    fn drop(self) {
        let Row { at: _, unit: _ } = self;
    }
}

/// Some rows, in order.
pub struct RowList {
    pub items: Vec<Row>,
}

// A derived drop would be proved anew in each crate that lets rows go. This one is proved here.
impl Drop for RowList {
    fn drop(self) {
        let RowList { items: _ } = self;
    }
}

/// The equations of a function: how many slots it has, its rows, and the types of its parameters and of its body over
/// the slots.
pub struct Rows {
    pub slots: u32,
    pub list: RowList,
    pub params: Types,
    pub result: Ty,
}

// A derived drop would be proved anew in each crate that lets rows go. This one is proved here.
impl Drop for Rows {
    fn drop(self) {
        let Rows {
            slots: _,
            list: _,
            params: _,
            result: _,
        } = self;
    }
}

/// Why a function has no rows.
#[derive(Clone, Copy, Debug, Error)]
pub enum RowStop {
    /// It has more than 2,000 slots.
    #[error("too many slots")]
    Slots,
    /// A power of a row, or of the type of a node, is out of range: this is the place of the first.
    #[error("a power is out of range")]
    Range { at: u32 },
    /// No memory was left.
    #[error("out of memory")]
    NoMemory,
}

impl From<SlotStop> for RowStop {
    ghost use Rattle.std.specs.Prelude.{◌≡◌};
    ghost use Rattle.um_equal_types.specs.SlotStops.{row_stop};

    ghost from_gives = { λ given stop. stop ≡ row_stop given };

    fn from(stop: SlotStop) -> RowStop {
        match stop {
            SlotStop::TooMany => RowStop::Slots,
            SlotStop::NoMemory => RowStop::NoMemory,
        }
    }
}

impl From<AllocError> for RowStop {
    ghost use Rattle.std.specs.Prelude.{◌≡◌};
    ghost use Rattle.um_equal_types.specs.declared.row.RowStop.TheVariants.{NoMemory};

    ghost from_gives = { λ _ stop. stop ≡ NoMemory };

    fn from(_error: AllocError) -> RowStop {
        RowStop::NoMemory
    }
}

impl<T: Drop> From<AllocFailed<T>> for RowStop {
    ghost use Rattle.std.specs.Prelude.{◌≡◌};
    ghost use Rattle.um_equal_types.specs.declared.row.RowStop.TheVariants.{NoMemory};

    ghost from_gives = { λ _ stop. stop ≡ NoMemory };

    fn from(_failed: AllocFailed<T>) -> RowStop {
        RowStop::NoMemory
    }
}
