//! Lines and columns of places.
ghost use Rattle.std.specs.Prelude.{◌≡◌, ◌<◌, ◌≤◌, length, take};
ghost use Rattle.std.specs.Str.{IsUtf8};
ghost use Rattle.um_syntax.specs.LineColumn.{line_after, column_after};

use std::str;

/// The line and the column of the place `at`, a byte offset into the text, both counted from 1.
///
/// The line is 1 plus the number of line feeds before the place. The column is 1 plus the number of characters between
/// the last of these and the place. Takes no memory.
pub fn line_column(text: &[u8], at: u32) -> (u32, u32)
    requires below_limit { at < 4294967295 }
    requires within { at ≤ length text.now }
    requires utf8 { IsUtf8 (take at text.now) }
    ensures line { result.0 ≡ line_after (take at text.now) }
    ensures column { result.1 ≡ column_after (take at text.now) }
{
    let Ok(before) = str::from_utf8(&text[..at as usize]) else {
        unreachable!()
    };
    end_of(before)
}

// The line and the column after a text.
fn end_of(text: &str) -> (u32, u32)
    requires { length text.now < 4294967295 }
    ensures line { result.0 ≡ line_after text.now }
    ensures column { result.1 ≡ column_after text.now }
{
    let mut line = 1;
    let mut column = 1;
    for c in text.chars() {
        if c == '\n' {
            line += 1;
            column = 1;
        } else {
            column += 1;
        }
    }
    (line, column)
}
