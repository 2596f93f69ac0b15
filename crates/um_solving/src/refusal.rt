//! Why a function or a call has no scheme.

use std::alloc::{AllocError, AllocFailed};
use um_rows::RowStop;

/// Why a function or a call has no scheme, with its place as a byte offset.
#[derive(Clone, Copy)]
pub enum Refusal {
    /// Its first row that no units satisfy together with those before it.
    Units { at: u32 },
    /// Its first row that some units satisfy, but none in which each unit parameter is a unit of its own.
    NotGeneral { at: u32 },
    /// A power that is out of range.
    PowerRange { at: u32 },
    /// It has more than 2,000 slots.
    Slots,
    /// No memory was left.
    NoMemory,
}

impl From<RowStop> for Refusal {
    ghost use Rattle.std.specs.Prelude.{◌≡◌};
    ghost use Rattle.um_solving.specs.Refusals.{refusal_of};

    ghost from_gives = { λ row_stop refusal. refusal ≡ refusal_of row_stop };

    fn from(stop: RowStop) -> Refusal {
        match stop {
            RowStop::Slots => Refusal::Slots,
            RowStop::Range { at } => Refusal::PowerRange { at },
            RowStop::NoMemory => Refusal::NoMemory,
        }
    }
}

impl From<AllocError> for Refusal {
    ghost use Rattle.std.specs.Prelude.{◌≡◌};
    ghost use Rattle.um_solving.specs.declared.refusal.Refusal.TheVariants.{NoMemory};

    ghost from_gives = { λ _ refusal. refusal ≡ NoMemory };

    fn from(_error: AllocError) -> Refusal {
        Refusal::NoMemory
    }
}

impl<T: Drop> From<AllocFailed<T>> for Refusal {
    ghost use Rattle.std.specs.Prelude.{◌≡◌};
    ghost use Rattle.um_solving.specs.declared.refusal.Refusal.TheVariants.{NoMemory};

    ghost from_gives = { λ _ refusal. refusal ≡ NoMemory };

    fn from(_failed: AllocFailed<T>) -> Refusal {
        Refusal::NoMemory
    }
}
