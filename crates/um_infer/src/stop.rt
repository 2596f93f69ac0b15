//! Why a program has no schemes, and why a call has no type.

use std::alloc::AllocFailed;
use thiserror::Error;

/// Why a program has no schemes: the first of its functions that has none, by its number.
#[derive(Clone, Copy, Debug, Error)]
pub enum InferStop {
    /// The function has no typing: the first of its equations that no units satisfy is at the byte offset `at`.
    #[error("no units satisfy the equations")]
    Units { function: u32, at: u32 },
    /// The function has no typing: some units satisfy its equations up to the one at the byte offset `at`, but none in
    /// which each of its unit parameters is a unit of its own.
    #[error("a unit parameter is not general")]
    NotGeneral { function: u32, at: u32 },
    /// A power outside -2147483647..2147483647 is formed at the byte offset `at`.
    #[error("a power is out of range")]
    PowerRange { function: u32, at: u32 },
    /// The equations of the function have more than 2,000 unknown units.
    #[error("too many unknown units")]
    Slots { function: u32 },
    /// No memory was left.
    #[error("out of memory")]
    NoMemory,
}

/// Why a call has no type.
#[derive(Clone, Copy, Debug, Error)]
pub enum CallStop {
    /// No typing of the function has parameters of the arguments' types.
    #[error("no units satisfy the equations")]
    Units,
    /// A power outside -2147483647..2147483647 is formed.
    #[error("a power is out of range")]
    PowerRange,
    /// The equations of the call have more than 2,000 unknown units.
    #[error("too many unknown units")]
    Slots,
    /// No memory was left.
    #[error("out of memory")]
    NoMemory,
}

impl<T: Drop> From<AllocFailed<T>> for InferStop {
    ghost use Rattle.std.specs.Prelude.{◌≡◌};
    ghost use Rattle.um_infer.specs.declared.stop.InferStop.TheVariants.{NoMemory};

    ghost from_gives = { λ _ stop. stop ≡ NoMemory };

    fn from(_failed: AllocFailed<T>) -> InferStop {
        InferStop::NoMemory
    }
}
