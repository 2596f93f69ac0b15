// Places of a text, as they are shown and printed.
ghost use Rattle.std.specs.Prelude.{◌≡◌, ◌++◌, ◌≤◌, OnOk, length};
ghost use Rattle.um_excerpt.specs.Excerpt.{excerpt};
ghost use Rattle.um_front.specs.Places.{IsPlace};
ghost use Rattle.um_reports.specs.Places.{place_text};

use std::alloc::{AllocError, Global};
use um_excerpt::push_excerpt;
use um_reports::{push_next_place, start_of_text};

/// Adds the source line of a place, with a caret.
pub(crate) fn push_source(
    alloc: Global,
    text: &mut Vec<u8>,
    bytes: &[u8],
    at: u32,
) -> Result<(), AllocError>
    requires short { length bytes.now ≤ 1048576 }
    requires place { IsPlace bytes.now at }
    ensures { OnOk result (text.new.items ≡ text.old.items ++ excerpt bytes.now at) }
{
    push_excerpt(alloc, text, bytes, at)
}

/// Adds the line and the column of a byte offset.
pub(crate) fn push_place(text: &mut Vec<u8>, bytes: &[u8], at: u32) -> Result<(), AllocError>
    ensures { OnOk result (text.new.items ≡ text.old.items ++ place_text bytes.now at) }
{
    push_next_place(text, bytes, at, &mut start_of_text())
}
