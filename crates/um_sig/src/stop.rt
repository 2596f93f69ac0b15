//! Why a signature isn't read, and why a function doesn't conform to one.

use std::alloc::AllocError;
use thiserror::Error;

/// Why a text isn't a signature. A place is a byte offset in the text.
#[derive(Clone, Copy, Debug, Error)]
pub enum SigText {
    /// A character at which no token stands, or a number or a power that breaks its rule.
    #[error("text at {at}")]
    Text { at: u32 },
    /// No signature text begins so.
    #[error("syntax at {at}")]
    Syntax { at: u32 },
    /// A type or a unit text is higher than 400.
    #[error("height at {at}")]
    Height { at: u32 },
    /// A measure or a record that isn't known, a record type with another number of units than declared, or `_`.
    #[error("name at {at}")]
    Names { at: u32 },
    /// A unit text has a part with a power outside -2147483647..2147483647.
    #[error("power range at {at}")]
    PowerRange { at: u32 },
    /// No memory was left.
    #[error("out of memory")]
    NoMemory,
}

/// Why a function doesn't conform to a signature, or isn't found to. An index is that of a type of the signature or of
/// the scheme, the result's last, counted from 0.
#[derive(Clone, Copy, Debug, Error)]
pub enum SigStop {
    /// The types at the index differ in more than their units, or one of the two has no type there.
    #[error("the types differ in form")]
    Form { index: u32 },
    /// No units in place of the scheme's variables give the signature's types up to this one.
    #[error("no units match the types")]
    Units { index: u32 },
    /// A power outside -2147483647..2147483647 is formed while the types at the index are matched.
    #[error("a power is out of range")]
    Range { index: u32 },
    /// No memory was left.
    #[error("out of memory")]
    NoMemory,
}

impl From<AllocError> for SigStop {
    ghost use Rattle.std.specs.Prelude.{◌≡◌};
    ghost use Rattle.um_sig.specs.declared.stop.SigStop.TheVariants.{NoMemory};

    ghost from_gives = { λ _ stop. stop ≡ NoMemory };

    fn from(_error: AllocError) -> SigStop {
        SigStop::NoMemory
    }
}
