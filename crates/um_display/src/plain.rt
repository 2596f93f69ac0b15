//! The text of a part: its spaces, and what may not stand in it.
ghost use Rattle.std.specs.Prelude.{◌≡◌, ◌<◌, ◌-◌, ◌++◌, ◌||◌, IfOk, MatchBool, OnOk, codes, length};
ghost use Rattle.std.specs.List.{list_any};
ghost use Rattle.std.specs.Str.{chars};
ghost use Rattle.std.specs.Str.Iter.{HasSubslice};
ghost use Rattle.um_display.specs.UnitWords.{IsPlain, is_other_white, is_space_at, one_space_each};
ghost use Rattle.um_display.specs.PartView.{kept_byte};

use std::alloc::{AllocError, Global};

/// Whether the text has no comment, no white space but spaces, and no space at its ends. Takes no memory.
pub(crate) fn is_plain(text: &str) -> bool
    ensures { MatchBool result (IsPlain text.now) (¬ IsPlain text.now) }
{
    !has_comment(text) && !has_other_white(text) && !has_outer_space(text.as_bytes())
}

/// Whether two slashes stand side by side.
fn has_comment(text: &str) -> bool
    ensures { MatchBool result (HasSubslice text.now (codes "//")) (¬ HasSubslice text.now (codes "//")) }
{
    text.contains("//")
}

fn has_other_white(text: &str) -> bool
    ensures { result ≡ list_any is_other_white (chars text.now) }
{
    text.chars().any(|c| is_other_white(c))
}

/// Whether it is white space other than a space, or the mark U+FEFF.
fn is_other_white(c: char) -> bool
    ensures { result ≡ is_other_white c }
{
    c == '\t' || c == '\r' || c == '\n' || c == '\u{feff}'
}

fn has_outer_space(bytes: &[u8]) -> bool
    ensures { result ≡ (is_space_at bytes.now 0 || is_space_at bytes.now (length bytes.now - 1)) }
{
    !bytes.is_empty() && (bytes[0] == b' ' || bytes[bytes.len() - 1] == b' ')
}

/// The text with each run of spaces as one.
pub(crate) fn one_space_each(alloc: Global, bytes: &[u8]) -> Result<Vec<u8>, AllocError>
    ensures { IfOk result (λ text. text.items ≡ one_space_each bytes.now) }
{
    let mut text = Vec::new(alloc);
    for i in 0..bytes.len() {
        push_unless_doubled(&mut text, bytes, i)?;
    }
    Ok(text)
}

/// Adds the byte of this index, unless it is a space before another.
fn push_unless_doubled(text: &mut Vec<u8>, bytes: &[u8], i: usize) -> Result<(), AllocError>
    requires { i < length bytes.now }
    ensures { OnOk result (text.new.items ≡ text.old.items ++ kept_byte bytes.now i) }
{
    let doubled = bytes[i] == b' ' && i + 1 < bytes.len() && bytes[i + 1] == b' ';
    if !doubled {
        text.push(bytes[i])?;
    }
    Ok(())
}
