//! Why a function has no slots.

use std::alloc::{AllocError, AllocFailed};
use thiserror::Error;

/// Why a function has no slots.
#[derive(Clone, Copy, Debug, Error)]
pub enum SlotStop {
    /// It has more than 2,000.
    #[error("too many slots")]
    TooMany,
    /// No memory was left.
    #[error("out of memory")]
    NoMemory,
}

impl From<AllocError> for SlotStop {
    ghost use Rattle.std.specs.Prelude.{◌≡◌};
    ghost use Rattle.um_slots.specs.declared.stop.SlotStop.TheVariants.{NoMemory};

    ghost from_gives = { λ _ stop. stop ≡ NoMemory };

    fn from(_error: AllocError) -> SlotStop {
        SlotStop::NoMemory
    }
}

impl<T: Drop> From<AllocFailed<T>> for SlotStop {
    ghost use Rattle.std.specs.Prelude.{◌≡◌};
    ghost use Rattle.um_slots.specs.declared.stop.SlotStop.TheVariants.{NoMemory};

    ghost from_gives = { λ _ stop. stop ≡ NoMemory };

    fn from(_failed: AllocFailed<T>) -> SlotStop {
        SlotStop::NoMemory
    }
}
