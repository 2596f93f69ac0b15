// Lines and columns, and positions in a word.
ghost use Rattle.std.specs.Prelude.{◌≡◌, ◌++◌, OnOk, decimal, take};
ghost use Rattle.um_reports.specs.Places.{line_of as line_after, column_of as column_after, place_text};
ghost use Rattle.um_reports.specs.Places.{position_of as position_after, begins_character as begins};

use std::alloc::AllocError;

/// Adds the line and the column of a byte offset into the text.
pub(crate) fn push_place(text: &mut Vec<u8>, bytes: &[u8], at: u32) -> Result<(), AllocError>
    ensures { OnOk result (text.new.items ≡ text.old.items ++ place_text bytes.now at) }
{
    let before = before(bytes, at);
    text.extend_from_slice(itoa::Buffer::new().format(line_of(before)).as_bytes())?;
    text.push(b':')?;
    text.extend_from_slice(itoa::Buffer::new().format(column_of(before)).as_bytes())
}

/// Adds the position of a byte offset in a word.
pub(crate) fn push_position(text: &mut Vec<u8>, word: &[u8], at: u32) -> Result<(), AllocError>
    ensures { OnOk result (text.new.items ≡ text.old.items ++ decimal (position_after (take at word.now))) }
{
    text.extend_from_slice(
        itoa::Buffer::new()
            .format(position_of(before(word, at)))
            .as_bytes(),
    )
}

/// The bytes before a place.
fn before(bytes: &[u8], at: u32) -> &[u8]
    ensures { result.now ≡ take at bytes.now }
{
    if (at as usize) < bytes.len() {
        &bytes[..at as usize]
    } else {
        bytes
    }
}

/// The line of the place after these bytes.
fn line_of(before: &[u8]) -> u64
    ensures { result ≡ line_after before.now }
{
    let mut line = 1;
    for byte in before {
        if *byte == b'\n' {
            line += 1;
        }
    }
    line
}

/// The column of the place after these bytes.
fn column_of(before: &[u8]) -> u64
    ensures { result ≡ column_after before.now }
{
    let mut column = 1;
    for byte in before {
        if *byte == b'\n' {
            column = 1;
        } else if begins_character(*byte) {
            column += 1;
        }
    }
    column
}

/// The position of the place after these bytes of a word.
fn position_of(before: &[u8]) -> u64
    ensures { result ≡ position_after before.now }
{
    let mut position = 1;
    for byte in before {
        if begins_character(*byte) {
            position += 1;
        }
    }
    position
}

pub(crate) fn begins_character(byte: u8) -> bool
    ensures { result ≡ begins byte }
{
    byte < 128 || byte >= 192
}
