//! What the rules of instructions look at.
ghost use Rattle.std.specs.Prelude.{◌≡◌, length};

use crate::known::Known;
use std::alloc::Global;
use um_machine::Code;

/// The code of an image, beside what is known of its records and functions.
#[derive(Drop)]
pub(crate) struct View<'a> {
    pub(crate) alloc: Global,
    pub(crate) known: &'a Known,
    pub(crate) code: &'a Code,
    ghost count: { length code.now.entries ≡ length known.now.heads.items },
}
