// A place that moves on through a text, so that to print many places in order reads the text once.
ghost use Rattle.std.specs.Prelude.{ℕ, List, ◌≡◌, ◌++◌, ◌+◌, ◌^◌, ◌<◌, ◌≤◌, IfOk, OnOk, codes, length, take};
ghost use Rattle.std.specs.Prelude.{if◌then◌else◌};
ghost use Rattle.um_reports.specs.Places.{begins_character as begins, is_line_feed, place_text};
ghost use Rattle.um_reports.specs.Cursors.{AreAt, IsAt, line_start};

use crate::place::begins_character;
use std::alloc::{AllocError, Global};

/// A byte offset into a text, with its line and its column.
#[derive(Clone, Copy)]
pub struct Cursor {
    pub at: usize,
    pub line: u64,
    pub column: u64,
}

/// The start of a text.
pub fn start_of_text() -> Cursor
    ensures start { result.at ≡ 0 }
    ensures line { result.line ≡ 1 }
    ensures column { result.column ≡ 1 }
{
    Cursor {
        at: 0,
        line: 1,
        column: 1,
    }
}

/// Adds the line and the column of a byte offset into the text, to which the cursor moves.
///
/// The bytes between the cursor and the place are read. If the place stands before the cursor, the text is read from
/// its start.
pub fn push_next_place(
    text: &mut Vec<u8>,
    bytes: &[u8],
    at: u32,
    cursor: &mut Cursor,
) -> Result<(), AllocError>
    requires { IsAt bytes.now cursor.old }
    ensures placed { OnOk result (text.new.items ≡ text.old.items ++ place_text bytes.now at) }
    ensures moved { IsAt bytes.now cursor.new }
{
    let place = place_after(bytes, *cursor, at);
    *cursor = place;
    text.extend_from_slice(itoa::Buffer::new().format(place.line).as_bytes())?;
    text.push(b':')?;
    text.extend_from_slice(itoa::Buffer::new().format(place.column).as_bytes())
}

/// The heads of lines that each tell of a place: two spaces, the place's line, a colon and its column.
///
/// The text before the column is kept as long as the line stays the same.
#[derive(Drop)]
pub struct LineHeads {
    pub cursor: Cursor,
    pub start: Vec<u8>,
}

impl LineHeads {
    /// Heads at the start of a text.
    pub fn new(alloc: Global) -> Result<LineHeads, AllocError>
        ensures { IfOk result (λ heads. (bytes : List ℕ) → AreAt bytes heads) }
    {
        let cursor = start_of_text();
        let mut start = Vec::new(alloc);
        push_start(&mut start, cursor.line)?;
        Ok(LineHeads { cursor, start })
    }

    /// Adds two spaces, and the line and the column of a byte offset into the text, to which the heads move.
    ///
    /// The bytes between the place before and this one are read. If this one stands before the other, the text is read
    /// from its start.
    pub fn push_next(&mut self, text: &mut Vec<u8>, bytes: &[u8], at: u32) -> Result<(), AllocError>
        requires { AreAt bytes.now self.old }
        ensures placed { OnOk result (text.new.items ≡ text.old.items ++ codes "  " ++ place_text bytes.now at) }
        ensures moved { OnOk result (AreAt bytes.now self.new) }
    {
        let place = place_after(bytes, self.cursor, at);
        self.move_to(place)?;
        text.extend_from_slice(&self.start)?;
        text.extend_from_slice(itoa::Buffer::new().format(place.column).as_bytes())
    }

    fn move_to(&mut self, place: Cursor) -> Result<(), AllocError>
        requires { self.old.start.items ≡ line_start self.old.cursor.line }
        ensures cursor { self.new.cursor ≡ place }
        ensures start { OnOk result (self.new.start.items ≡ line_start place.line) }
    {
        let line = self.cursor.line;
        self.cursor = place;
        if place.line != line {
            self.start.clear();
            return push_start(&mut self.start, place.line);
        }
        Ok(())
    }
}

/// Adds the start of a line about a place in this line.
fn push_start(text: &mut Vec<u8>, line: u64) -> Result<(), AllocError>
    ensures { OnOk result (text.new.items ≡ text.old.items ++ line_start line) }
{
    text.extend_from_slice(b"  ")?;
    text.extend_from_slice(itoa::Buffer::new().format(line).as_bytes())?;
    text.push(b':')?;
    Ok(())
}

/// The cursor at a byte offset, by one at another.
fn place_after(bytes: &[u8], cursor: Cursor, at: u32) -> Cursor
    requires { IsAt bytes.now cursor }
    ensures moved { IsAt bytes.now result }
    ensures place { take result.at bytes.now ≡ take at bytes.now }
{
    let end = offset(bytes, at);
    if end < cursor.at {
        return moved(bytes, start_of_text(), end);
    }
    moved(bytes, cursor, end)
}

/// The offset, or the text's end if it stands after that.
fn offset(bytes: &[u8], at: u32) -> usize
    ensures within { result ≤ length bytes.now }
    ensures same { take result bytes.now ≡ take at bytes.now }
{
    if (at as usize) < bytes.len() {
        at as usize
    } else {
        bytes.len()
    }
}

/// The cursor moved on to this offset.
fn moved(bytes: &[u8], cursor: Cursor, end: usize) -> Cursor
    requires cursor { IsAt bytes.now cursor }
    requires behind { cursor.at ≤ end }
    requires within { end ≤ length bytes.now }
    ensures moved { IsAt bytes.now result }
    ensures at { result.at ≡ end }
{
    let mut line = cursor.line;
    let mut column = cursor.column;
    for k in cursor.at..end {
        if bytes[k] >= b' ' && bytes[k] < 128 {
            column += 1;
        } else {
            (line, column) = place_past(bytes[k], line, column);
        }
    }
    Cursor {
        at: end,
        line,
        column,
    }
}

/// The line and the column after this byte, which stands at these.
// Most bytes are characters of their own that end no line. They don't come here.
#[inline(never)]
fn place_past(byte: u8, line: u64, column: u64) -> (u64, u64)
    requires line { line + 1 < 2 ^ 64 }
    requires column { column + 1 < 2 ^ 64 }
    ensures line { result.0 ≡ (if is_line_feed byte then line + 1 else line) }
    ensures column { result.1 ≡ (if is_line_feed byte then 1 else if begins byte then column + 1 else column) }
{
    if byte == b'\n' {
        return (line + 1, 1);
    }
    if begins_character(byte) {
        return (line, column + 1);
    }
    (line, column)
}
