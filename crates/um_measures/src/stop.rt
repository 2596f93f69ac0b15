//! Why names are refused.

use std::alloc::{AllocError, AllocFailed};
use thiserror::Error;

/// Why a raw tree stands for nothing. A place is a byte offset in its text.
#[derive(Clone, Copy, Debug, Error)]
pub enum NameStop {
    /// A name isn't known where it stands.
    #[error("unknown name at {at}")]
    Unknown { at: u32 },
    /// A name is declared that is taken in its space of names.
    #[error("declared twice at {at}")]
    Twice { at: u32 },
    /// There are more or fewer units, arguments or fields than were declared.
    #[error("wrong count at {at}")]
    WrongCount { at: u32 },
    /// `_` stands where no unit may be left open.
    #[error("hole at {at}")]
    Hole { at: u32 },
    /// A unit text has a part with a power outside -2147483647..2147483647.
    #[error("power range at {at}")]
    Range { at: u32 },
    /// No memory was left.
    #[error("out of memory")]
    NoMemory,
}

impl From<AllocError> for NameStop {
    ghost use Rattle.std.specs.Prelude.{◌≡◌};
    ghost use Rattle.um_measures.specs.declared.stop.NameStop.TheVariants.{NoMemory};

    ghost from_gives = { λ _ stop. stop ≡ NoMemory };

    fn from(_error: AllocError) -> NameStop {
        NameStop::NoMemory
    }
}

impl<T: Drop> From<AllocFailed<T>> for NameStop {
    ghost use Rattle.std.specs.Prelude.{◌≡◌};
    ghost use Rattle.um_measures.specs.declared.stop.NameStop.TheVariants.{NoMemory};

    ghost from_gives = { λ _ stop. stop ≡ NoMemory };

    fn from(_failed: AllocFailed<T>) -> NameStop {
        NameStop::NoMemory
    }
}
