//! Why an image is refused.

use std::alloc::{AllocError, AllocFailed};
use thiserror::Error;

/// Why an image isn't verified.
#[derive(Clone, Copy, Debug, Error)]
pub enum VerifyStop {
    /// The first head that breaks its rules: records first, and functions after them, counted from 0.
    #[error("wrong head")]
    Head { index: u32 },
    /// The first address whose rule fails.
    #[error("wrong code")]
    Code { at: u32 },
    /// No memory was left.
    #[error("out of memory")]
    NoMemory,
}

impl From<AllocError> for VerifyStop {
    ghost use Rattle.std.specs.Prelude.{◌≡◌};
    ghost use Rattle.um_verifier.specs.declared.stop.VerifyStop.TheVariants.{NoMemory};

    ghost from_gives = { λ _ stop. stop ≡ NoMemory };

    fn from(_error: AllocError) -> VerifyStop {
        VerifyStop::NoMemory
    }
}

impl<T: Drop> From<AllocFailed<T>> for VerifyStop {
    ghost use Rattle.std.specs.Prelude.{◌≡◌};
    ghost use Rattle.um_verifier.specs.declared.stop.VerifyStop.TheVariants.{NoMemory};

    ghost from_gives = { λ _ stop. stop ≡ NoMemory };

    fn from(_failed: AllocFailed<T>) -> VerifyStop {
        VerifyStop::NoMemory
    }
}
