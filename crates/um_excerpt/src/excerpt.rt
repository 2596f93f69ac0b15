//! A source line with a caret.
ghost use Rattle.std.specs.Prelude.{◌≡◌, ◌++◌, ◌<◌, ◌≤◌, ◌-◌, OnOk, codes, drop, length, map, take};
ghost use Rattle.std.specs.Char.{encode_utf8};
ghost use Rattle.std.specs.Fmt.{decimal};
ghost use Rattle.std.specs.Str.{encode_utf8_all, IsUtf8};
ghost use Rattle.um_excerpt.specs.Excerpt.{blank, excerpt, excerpt_at, excerpt_of_end, left_out, margin, shown, window};

use crate::line::{line_before, push_first_line, without_return};
use std::alloc::{AllocError, Global};
use std::str;
use um_syntax::line_column;

/// Adds the two lines that show a place of a text, a byte offset: the number of its line, ` | ` and the line; and under
/// it ` | ` and a caret below the place.
///
/// Of a long line a window of 120 characters is shown, from 80 before the place on. A control character other than a
/// tab is shown as U+FFFD. The form is this project's own. Want of memory is the one error.
pub fn push_excerpt(
    alloc: Global,
    text: &mut Vec<u8>,
    bytes: &[u8],
    at: u32,
) -> Result<(), AllocError>
    requires below_limit { at < 4294967295 }
    requires within { at ≤ length bytes.now }
    requires before { IsUtf8 (take at bytes.now) }
    requires after { IsUtf8 (drop at bytes.now) }
    ensures excerpt { OnOk result (text.new.items ≡ text.old.items ++ excerpt bytes.now at) }
{
    let Ok(before) = str::from_utf8(&bytes[..at as usize]) else {
        unreachable!()
    };
    let Ok(after) = str::from_utf8(&bytes[at as usize..]) else {
        unreachable!()
    };
    let mut line = line_before(alloc, before)?;
    let column = line.len();
    push_first_line(&mut line, after)?;
    let (number, _) = line_column(bytes, at);
    push_lines(text, number, column, without_return(&line))
}

/// Adds the same two lines for the end of bytes that are UTF-8 up to there, as those before a byte that is none. The
/// line is all that stands before.
pub fn push_excerpt_of_end(
    alloc: Global,
    text: &mut Vec<u8>,
    bytes: &[u8],
) -> Result<(), AllocError>
    requires below_limit { length bytes.now < 4294967295 }
    requires utf8 { IsUtf8 bytes.now }
    ensures excerpt { OnOk result (text.new.items ≡ text.old.items ++ excerpt_of_end bytes.now) }
{
    let Ok(before) = str::from_utf8(bytes) else {
        unreachable!()
    };
    let line = line_before(alloc, before)?;
    let (number, _) = line_column(bytes, bytes.len() as u32);
    push_lines(text, number, line.len(), &line)
}

/// Adds the two lines of this source line, of which so many characters stand before the place.
fn push_lines(
    text: &mut Vec<u8>,
    number: u32,
    column: usize,
    line: &[char],
) -> Result<(), AllocError>
    ensures { OnOk result (text.new.items ≡ text.old.items ++ excerpt_at number column line.now) }
{
    let left = left_out(column);
    let part = window(column, line);
    let mut buffer = itoa::Buffer::new();
    let digits = buffer.format(number).as_bytes();
    text.extend_from_slice(digits)?;
    text.extend_from_slice(b" | ")?;
    push_shown(text, part)?;
    text.push(b'\n')?;
    push_margin(text, digits)?;
    text.extend_from_slice(b" | ")?;
    push_blanks(text, front(part, column - left))?;
    text.extend_from_slice(b"^\n")
}

/// How many characters of the line are left out at the left.
fn left_out(column: usize) -> usize
    ensures exact { result ≡ left_out column }
    ensures within { result ≤ column }
{
    if column < 100 { 0 } else { column - 80 }
}

/// At most so many characters of the front.
fn front(line: &[char], count: usize) -> &[char]
    ensures { result.now ≡ take count line.now }
{
    if count < line.len() {
        &line[..count]
    } else {
        line
    }
}

/// The characters of the line that are shown.
fn window(column: usize, line: &[char]) -> &[char]
    ensures { result.now ≡ window column line.now }
{
    let left = left_out(column);
    if left < line.len() {
        front(&line[left..], 120)
    } else {
        &[]
    }
}

/// The character that is shown for this one.
fn shown(c: char) -> char
    ensures { result ≡ shown c }
{
    if (c <= '\u{1f}' || (c >= '\u{7f}' && c <= '\u{9f}')) && c != '\t' {
        return '\u{fffd}';
    }
    c
}

fn push_char(text: &mut Vec<u8>, c: char) -> Result<(), AllocError>
    ensures { OnOk result (text.new.items ≡ text.old.items ++ encode_utf8 c) }
{
    let mut bytes = [0; 4];
    text.extend_from_slice(c.encode_utf8(&mut bytes).as_bytes())
}

/// Adds the characters as they are shown, in UTF-8.
fn push_shown(text: &mut Vec<u8>, part: &[char]) -> Result<(), AllocError>
    ensures { OnOk result (text.new.items ≡ text.old.items ++ encode_utf8_all (map shown part.now)) }
{
    for c in part {
        push_char(text, shown(*c))?;
    }
    Ok(())
}

/// Adds a space for each digit.
fn push_margin(text: &mut Vec<u8>, digits: &[u8]) -> Result<(), AllocError>
    ensures { OnOk result (text.new.items ≡ text.old.items ++ map (λ _. 32) digits.now) }
{
    for _digit in digits {
        text.push(b' ')?;
    }
    Ok(())
}

/// What stands under a character left of the caret.
fn blank(c: char) -> u8
    ensures { result ≡ blank c }
{
    if c == '\t' { b'\t' } else { b' ' }
}

/// Adds what stands under the characters left of the caret.
fn push_blanks(text: &mut Vec<u8>, part: &[char]) -> Result<(), AllocError>
    ensures { OnOk result (text.new.items ≡ text.old.items ++ map blank part.now) }
{
    for c in part {
        text.push(blank(*c))?;
    }
    Ok(())
}
