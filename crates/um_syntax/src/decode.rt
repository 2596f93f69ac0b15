//! UTF-8, one character at a time.
ghost use Rattle.std.specs.Prelude.{◌≡◌, ◌<◌, ◌≤◌, length, slice_index};
ghost use Rattle.um_syntax.specs.Decoding.{char_len, IsDecoded};

use std::str;

/// What bytes that are at most one character are.
#[derive(Clone, Copy)]
pub(crate) enum Decoded {
    /// A character.
    Whole(char),
    /// The beginning of what may be a character.
    Partial,
    /// No character, whatever follows.
    Broken,
}

/// How many bytes a character has that begins with the byte, or 0 if none does.
pub fn char_len(first: u8) -> usize
    ensures { result ≡ char_len first }
{
    match first {
        0..=127 => 1,
        128..=191 => 0,
        192..=223 => 2,
        224..=239 => 3,
        240..=247 => 4,
        _ => 0,
    }
}

/// What the bytes are. There are some, and no more than their first byte asks for.
pub fn decode_char(bytes: &[u8]) -> Decoded
    requires some { 0 < length bytes.now }
    requires one { 1 < length bytes.now → length bytes.now ≤ char_len (slice_index bytes.now 0) }
    ensures { IsDecoded result bytes.now }
{
    let len = char_len(bytes[0]);
    if len == 0 {
        return Decoded::Broken;
    }
    if bytes.len() < len {
        return Decoded::Partial;
    }
    let Ok(text) = str::from_utf8(bytes) else {
        return Decoded::Broken;
    };
    match text.chars().next() {
        Some(c) => Decoded::Whole(c),
        None => Decoded::Broken,
    }
}
