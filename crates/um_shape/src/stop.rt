//! Why a program has no shapes.

use std::alloc::{AllocError, AllocFailed};
use thiserror::Error;

/// Why a program is refused, with its place as a byte offset.
#[derive(Clone, Copy, Debug, Error)]
pub enum ShapeStop {
    /// The parts have no shapes that the node asks for.
    #[error("wrong shape")]
    Shape { at: u32 },
    /// A shape is taller than 400.
    #[error("a shape is too deep")]
    Depth { at: u32 },
    /// No memory was left.
    #[error("out of memory")]
    NoMemory,
}

impl From<AllocError> for ShapeStop {
    ghost use Rattle.std.specs.Prelude.{◌≡◌};
    ghost use Rattle.um_shape.specs.declared.stop.ShapeStop.TheVariants.{NoMemory};

    ghost from_gives = { λ _ stop. stop ≡ NoMemory };

    fn from(_error: AllocError) -> ShapeStop {
        ShapeStop::NoMemory
    }
}

impl<T: Drop> From<AllocFailed<T>> for ShapeStop {
    ghost use Rattle.std.specs.Prelude.{◌≡◌};
    ghost use Rattle.um_shape.specs.declared.stop.ShapeStop.TheVariants.{NoMemory};

    ghost from_gives = { λ _ stop. stop ≡ NoMemory };

    fn from(_failed: AllocFailed<T>) -> ShapeStop {
        ShapeStop::NoMemory
    }
}
