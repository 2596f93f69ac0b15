//! Why there are no certificates of a program.

use std::alloc::{AllocError, AllocFailed};
use thiserror::Error;

/// Why a program has no certificates.
#[derive(Clone, Copy, Debug, Error)]
pub enum ProveStop {
    /// The equations of the function have more than 2,000 unknown units.
    #[error("too many unknown units")]
    Slots { function: u32 },
    /// A power outside -2147483647..2147483647 is formed at the byte offset `at`.
    #[error("a power is out of range")]
    PowerRange { function: u32, at: u32 },
    /// An overflow: this number is outside what the function's certificate can hold.
    #[error("a number of a certificate is out of range")]
    CertRange { function: u32, number: i128 },
    /// No memory was left.
    #[error("out of memory")]
    NoMemory,
}

impl From<AllocError> for ProveStop {
    ghost use Rattle.std.specs.Prelude.{◌≡◌};
    ghost use Rattle.um_proof.specs.declared.stop.ProveStop.TheVariants.{NoMemory};

    ghost from_gives = { λ _ stop. stop ≡ NoMemory };

    fn from(_error: AllocError) -> ProveStop {
        ProveStop::NoMemory
    }
}

impl<T: Drop> From<AllocFailed<T>> for ProveStop {
    ghost use Rattle.std.specs.Prelude.{◌≡◌};
    ghost use Rattle.um_proof.specs.declared.stop.ProveStop.TheVariants.{NoMemory};

    ghost from_gives = { λ _ stop. stop ≡ NoMemory };

    fn from(_failed: AllocFailed<T>) -> ProveStop {
        ProveStop::NoMemory
    }
}
