// Adding to a text.
ghost use Rattle.std.specs.Prelude.{◌≡◌, ◌++◌, ◌∷◌, [], OnOk};
ghost use Rattle.um_tree.specs.RawTree.{binder_syntax};
ghost use Rattle.um_show.specs.Pieces.{piece_text};
ghost use Rattle.um_show.specs.Layout.{binder_piece};
ghost use Rattle.um_show.specs.Lists.{gap_before};

use std::alloc::AllocError;
use um_tree::{Binder, Name};

/// Adds what stands before the item of this index: the separator, but nothing before the first.
pub(crate) fn push_gap(text: &mut Vec<u8>, i: usize, separator: &[u8]) -> Result<(), AllocError>
    ensures { OnOk result (text.new.items ≡ text.old.items ++ gap_before i separator.now) }
{
    if i == 0 {
        return Ok(());
    }
    text.extend_from_slice(separator)
}

pub(crate) fn push_name(text: &mut Vec<u8>, name: &Name) -> Result<(), AllocError>
    ensures { OnOk result (text.new.items ≡ text.old.items ++ name.now) }
{
    text.extend_from_slice(name.as_slice())
}

/// Adds a variable, with its quote.
pub(crate) fn push_variable(text: &mut Vec<u8>, name: &Name) -> Result<(), AllocError>
    ensures { OnOk result (text.new.items ≡ text.old.items ++ 39 ∷ name.now) }
{
    text.push(b'\'')?;
    push_name(text, name)
}

/// Adds a name that is bound, or `_`.
pub(crate) fn push_binder(text: &mut Vec<u8>, binder: &Binder) -> Result<(), AllocError>
    ensures { OnOk result (text.new.items ≡ text.old.items ++ piece_text (binder_piece (binder_syntax binder.now))) }
{
    match &binder.name {
        Some(name) => push_name(text, name),
        None => text.extend_from_slice(b"_"),
    }
}
