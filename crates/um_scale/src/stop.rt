// Why something is not rescaled.
use std::alloc::{AllocError, AllocFailed};
use thiserror::Error;

/// Why a program or an input has no rescaled one.
#[derive(Clone, Copy, Debug, Error)]
pub enum ScaleStop {
    /// At the place stands the first number whose factor, by its partial products, or whose product with it is out of
    /// range.
    #[error("a rescaled number is out of range at {at}")]
    Range { at: u32 },
    /// No memory was left.
    #[error("out of memory")]
    NoMemory,
}

impl<T: Drop> From<AllocFailed<T>> for ScaleStop {
    ghost use Rattle.std.specs.Prelude.{◌≡◌};
    ghost use Rattle.um_scale.specs.declared.stop.ScaleStop.TheVariants.{NoMemory};

    ghost from_gives = { λ _ stop. stop ≡ NoMemory };

    fn from(_failed: AllocFailed<T>) -> ScaleStop {
        ScaleStop::NoMemory
    }
}

impl From<AllocError> for ScaleStop {
    ghost use Rattle.std.specs.Prelude.{◌≡◌};
    ghost use Rattle.um_scale.specs.declared.stop.ScaleStop.TheVariants.{NoMemory};

    ghost from_gives = { λ _ stop. stop ≡ NoMemory };

    fn from(_error: AllocError) -> ScaleStop {
        ScaleStop::NoMemory
    }
}
