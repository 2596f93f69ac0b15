// Why a text isn't an input.
use std::alloc::{AllocError, AllocFailed};
use thiserror::Error;

/// Why a text isn't an input of a shape. A place is a byte offset in the text.
#[derive(Clone, Copy, Debug, Error)]
pub enum InputStop {
    /// The text has no tokens.
    #[error("no token at {at}")]
    Text { at: u32 },
    /// The tokens aren't a value text of the shape.
    #[error("no value of the shape at {at}")]
    Shape { at: u32 },
    /// A measure isn't known, or `<_>` stands at a number other than 0.
    #[error("name at {at}")]
    Names { at: u32 },
    /// A unit text has a part with a power outside -2147483647..2147483647.
    #[error("power range at {at}")]
    PowerRange { at: u32 },
    /// No memory was left.
    #[error("out of memory")]
    NoMemory,
}

impl From<AllocError> for InputStop {
    ghost use Rattle.std.specs.Prelude.{◌≡◌};
    ghost use Rattle.um_value.specs.declared.stop.InputStop.TheVariants.{NoMemory};

    ghost from_gives = { λ _ stop. stop ≡ NoMemory };

    fn from(_error: AllocError) -> InputStop {
        InputStop::NoMemory
    }
}

impl<T: Drop> From<AllocFailed<T>> for InputStop {
    ghost use Rattle.std.specs.Prelude.{◌≡◌};
    ghost use Rattle.um_value.specs.declared.stop.InputStop.TheVariants.{NoMemory};

    ghost from_gives = { λ _ stop. stop ≡ NoMemory };

    fn from(_failed: AllocFailed<T>) -> InputStop {
        InputStop::NoMemory
    }
}
