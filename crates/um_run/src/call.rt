//! Calls, and why words aren't one.

use std::alloc::AllocFailed;
use um_tree::{Inputs, Ty};
use um_value::InputStop;

/// A call that has a type: the number of its function, its arguments in order.
#[derive(Drop)]
pub struct Call {
    pub function: u32,
    pub inputs: Inputs,
    pub ty: Ty,
}

/// A call of an image's function: the number of the function, its arguments in order.
#[derive(Drop)]
pub struct ImageCall {
    pub function: u32,
    pub inputs: Inputs,
}

/// Why words aren't a call.
#[derive(Clone, Copy)]
pub enum CallRefusal {
    /// No function has the name.
    NoFunction,
    /// The function takes another number of arguments.
    WrongCount,
    /// The argument of this number, counted from 0, is refused so; never for want of memory.
    Argument { index: u32, stop: InputStop },
    /// No typing of the function has parameters of the arguments' types.
    Units,
    /// A power outside -2147483647..2147483647 is formed.
    PowerRange,
    /// The equations of the call have more than 2,000 unknown units.
    Slots,
    /// No memory was left.
    NoMemory,
}

impl<T: Drop> From<AllocFailed<T>> for CallRefusal {
    ghost use Rattle.std.specs.Prelude.{◌≡◌};
    ghost use Rattle.um_run.specs.declared.call.CallRefusal.TheVariants.{NoMemory};

    ghost from_gives = { λ _ refusal. refusal ≡ NoMemory };

    fn from(_failed: AllocFailed<T>) -> CallRefusal {
        CallRefusal::NoMemory
    }
}
