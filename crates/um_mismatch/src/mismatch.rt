//! What is told of a node without a shape.

use crate::flat::FlatShape;
use crate::kind::Kind;
use std::alloc::{AllocError, AllocFailed};
use um_agree::Rule;

/// Why a node has no shape.
#[derive(Clone, Copy)]
pub(crate) enum Mismatch {
    /// The rule asks that the two shapes be the same.
    Unequal(Rule, FlatShape, FlatShape),
    /// A part of the kind must stand where one of the shape stands.
    Unexpected(Kind, FlatShape),
    /// The node names what isn't there, or has too few or too many parts.
    Unformed,
}

/// A mismatch of the node at the place, in the function of the number.
#[derive(Clone, Copy)]
pub(crate) struct Told {
    pub(crate) function: usize,
    pub(crate) at: u32,
    pub(crate) mismatch: Mismatch,
}

/// Why no shape was found.
#[derive(Clone, Copy)]
pub(crate) enum Stop {
    Told(Told),
    NoMemory,
}

impl From<AllocError> for Stop {
    ghost use Rattle.std.specs.Prelude.{◌≡◌};
    ghost use Rattle.um_mismatch.specs.declared.mismatch.Stop.TheVariants.{NoMemory};

    ghost from_gives = { λ _ stop. stop ≡ NoMemory };

    fn from(_error: AllocError) -> Stop {
        Stop::NoMemory
    }
}

impl<T: Drop> From<AllocFailed<T>> for Stop {
    ghost use Rattle.std.specs.Prelude.{◌≡◌};
    ghost use Rattle.um_mismatch.specs.declared.mismatch.Stop.TheVariants.{NoMemory};

    ghost from_gives = { λ _ stop. stop ≡ NoMemory };

    fn from(_failed: AllocFailed<T>) -> Stop {
        Stop::NoMemory
    }
}
