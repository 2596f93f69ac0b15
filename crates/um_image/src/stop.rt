//! Why bytes aren't an image.

use std::alloc::{AllocError, AllocFailed};
use thiserror::Error;

/// Why bytes aren't an image.
#[derive(Clone, Copy, Debug, Error)]
pub enum DecodeStop {
    /// The first byte of the first item that is cut or that cannot stand there, or the first byte after the end.
    #[error("no image")]
    Bad { at: u32 },
    /// No memory was left.
    #[error("out of memory")]
    NoMemory,
}

/// Why reading ended.
#[derive(Clone, Copy)]
pub(crate) enum ReadStop {
    NoMemory,
    /// So many bytes are left from the first byte of the item that is refused.
    Bad { left: usize },
}

impl From<AllocError> for ReadStop {
    ghost use Rattle.std.specs.Prelude.{◌≡◌};
    ghost use Rattle.um_image.specs.declared.stop.ReadStop.TheVariants.{NoMemory};

    ghost from_gives = { λ _ stop. stop ≡ NoMemory };

    fn from(_error: AllocError) -> ReadStop {
        ReadStop::NoMemory
    }
}

impl<T: Drop> From<AllocFailed<T>> for ReadStop {
    ghost use Rattle.std.specs.Prelude.{◌≡◌};
    ghost use Rattle.um_image.specs.declared.stop.ReadStop.TheVariants.{NoMemory};

    ghost from_gives = { λ _ stop. stop ≡ NoMemory };

    fn from(_failed: AllocFailed<T>) -> ReadStop {
        ReadStop::NoMemory
    }
}
