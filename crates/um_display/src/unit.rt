//! Units in which numbers are printed.

use std::alloc::{AllocError, AllocFailed};
use um_frac::Frac;
use um_tree::Name;
use um_units::Unit;

/// A unit in which numbers are printed: the text after the number, the size by which the number is divided, if there is
/// one, and the unit that such a number has.
#[derive(Drop)]
pub struct DisplayUnit {
    pub label: Name,
    pub size: Option<Frac>,
    pub unit: Unit,
}

/// Some such units, in order.
#[derive(Drop)]
pub struct DisplayUnits {
    pub items: Vec<DisplayUnit>,
}

/// Why the units of a word are none of a program.
#[derive(Clone, Copy)]
pub enum UnitsStop {
    /// A name is that of no measure and no abbreviation, or a unit text has a variable.
    NoUnit,
    /// A part of a unit text has a power outside -2147483647..2147483647.
    PowerRange,
    /// No memory was left.
    NoMemory,
}

impl From<AllocError> for UnitsStop {
    ghost use Rattle.std.specs.Prelude.{◌≡◌};
    ghost use Rattle.um_display.specs.declared.unit.UnitsStop.TheVariants.{NoMemory};

    ghost from_gives = { λ _ stop. stop ≡ NoMemory };

    fn from(_error: AllocError) -> UnitsStop {
        UnitsStop::NoMemory
    }
}

impl<T: Drop> From<AllocFailed<T>> for UnitsStop {
    ghost use Rattle.std.specs.Prelude.{◌≡◌};
    ghost use Rattle.um_display.specs.declared.unit.UnitsStop.TheVariants.{NoMemory};

    ghost from_gives = { λ _ stop. stop ≡ NoMemory };

    fn from(_failed: AllocFailed<T>) -> UnitsStop {
        UnitsStop::NoMemory
    }
}
