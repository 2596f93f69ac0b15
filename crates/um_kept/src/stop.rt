//! Why there is no certificate of a function.

use std::alloc::{AllocError, AllocFailed};
use thiserror::Error;

/// Why no certificate is made.
#[derive(Clone, Copy, Debug, Error)]
pub enum CertStop {
    /// An overflow: this number is outside what a certificate can hold, -2147483647..2147483647 as a power of a unit,
    /// and otherwise -9223372036854775807..9223372036854775807.
    #[error("a number of the certificate is out of range")]
    CertRange { number: i128 },
    /// No memory was left.
    #[error("out of memory")]
    NoMemory,
}

impl From<AllocError> for CertStop {
    ghost use Rattle.std.specs.Prelude.{◌≡◌};
    ghost use Rattle.um_kept.specs.declared.stop.CertStop.TheVariants.{NoMemory};

    ghost from_gives = { λ _ stop. stop ≡ NoMemory };

    fn from(_error: AllocError) -> CertStop {
        CertStop::NoMemory
    }
}

impl<T: Drop> From<AllocFailed<T>> for CertStop {
    ghost use Rattle.std.specs.Prelude.{◌≡◌};
    ghost use Rattle.um_kept.specs.declared.stop.CertStop.TheVariants.{NoMemory};

    ghost from_gives = { λ _ stop. stop ≡ NoMemory };

    fn from(_failed: AllocFailed<T>) -> CertStop {
        CertStop::NoMemory
    }
}
