//! Why the nodes of a function have no types.

use std::alloc::{AllocError, AllocFailed};
use thiserror::Error;

/// Why the nodes of a function that has a scheme have no types.
#[derive(Clone, Copy, Debug, Error)]
pub enum AnnotStop {
    /// The type of a node has a power outside -2147483647..2147483647: this is the byte offset of the first such node.
    #[error("a power is out of range")]
    PowerRange { at: u32 },
    /// No memory was left.
    #[error("out of memory")]
    NoMemory,
}

impl From<AllocError> for AnnotStop {
    ghost use Rattle.std.specs.Prelude.{◌≡◌};
    ghost use Rattle.um_annot.specs.declared.stop.AnnotStop.TheVariants.{NoMemory};

    ghost from_gives = { λ _ stop. stop ≡ NoMemory };

    fn from(_error: AllocError) -> AnnotStop {
        AnnotStop::NoMemory
    }
}

impl<T: Drop> From<AllocFailed<T>> for AnnotStop {
    ghost use Rattle.std.specs.Prelude.{◌≡◌};
    ghost use Rattle.um_annot.specs.declared.stop.AnnotStop.TheVariants.{NoMemory};

    ghost from_gives = { λ _ stop. stop ≡ NoMemory };

    fn from(_failed: AllocFailed<T>) -> AnnotStop {
        AnnotStop::NoMemory
    }
}
