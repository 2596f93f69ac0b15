//! Why a row or a type is refused.

use std::alloc::{AllocError, AllocFailed};
use thiserror::Error;
use um_units::UnitStop;

/// Why a row is refused, or a solver gives no type.
#[derive(Clone, Copy, Debug, Error)]
pub enum ElimStop {
    /// The rows have no joint solution.
    #[error("no solution")]
    NoSolution,
    /// A power lies outside -2147483647..2147483647.
    #[error("a power is out of range")]
    Range,
    /// The solver refused a row before.
    #[error("a row was refused before")]
    Spent,
    /// No memory was left.
    #[error("out of memory")]
    NoMemory,
}

impl From<UnitStop> for ElimStop {
    ghost use Rattle.std.specs.Prelude.{◌≡◌};
    ghost use Rattle.um_elim.specs.Stops.{stop_of};

    ghost from_gives = { λ unit_stop stop. stop ≡ stop_of unit_stop };

    fn from(stop: UnitStop) -> ElimStop {
        match stop {
            UnitStop::Range => ElimStop::Range,
            UnitStop::NoMemory => ElimStop::NoMemory,
        }
    }
}

impl From<AllocError> for ElimStop {
    ghost use Rattle.std.specs.Prelude.{◌≡◌};
    ghost use Rattle.um_elim.specs.declared.stop.ElimStop.TheVariants.{NoMemory};

    ghost from_gives = { λ _ stop. stop ≡ NoMemory };

    fn from(_error: AllocError) -> ElimStop {
        ElimStop::NoMemory
    }
}

impl<T: Drop> From<AllocFailed<T>> for ElimStop {
    ghost use Rattle.std.specs.Prelude.{◌≡◌};
    ghost use Rattle.um_elim.specs.declared.stop.ElimStop.TheVariants.{NoMemory};

    ghost from_gives = { λ _ stop. stop ≡ NoMemory };

    fn from(_failed: AllocFailed<T>) -> ElimStop {
        ElimStop::NoMemory
    }
}
