//! Where the rule of an instruction is applied.
ghost use Rattle.std.specs.Prelude.{◌<◌, ◌+◌, ◌^◌};
ghost use Rattle.um_stacks.specs.Stacks.{stack_at};
ghost use Rattle.um_verifier.specs.States.{AreLow};

use crate::known::Known;
use um_stacks::Stacks;

/// A program point: the address of an instruction, and the number of the stack that arrives there, beside what is known
/// of the image. The shapes of this stack are low.
#[derive(Clone, Copy)]
pub(crate) struct Point<'a> {
    pub(crate) known: &'a Known,
    pub(crate) stacks: &'a Stacks,
    pub(crate) at: u32,
    pub(crate) stack: u32,
    ghost address: { at + 1 < 2 ^ 32 },
    ghost low: { AreLow known.now (stack_at stacks.now stack) },
}
