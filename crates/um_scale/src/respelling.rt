// What a text is respelled from.
ghost use Rattle.std.specs.Prelude.{◌≡◌, ◌+◌, length};

use std::alloc::Global;
use um_frac::Frac;

/// The bytes of a text, and the numbers that are printed in place of its number tokens, by their first bytes.
#[derive(Drop)]
pub(crate) struct Respelling<'a> {
    pub(crate) alloc: Global,
    pub(crate) bytes: &'a [u8],
    pub(crate) numbers: &'a [Option<Frac>],
    ghost places: { length numbers.now ≡ length bytes.now + 1 },
}
