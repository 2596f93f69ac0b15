//! The line of a text at a place.
ghost use Rattle.std.specs.Prelude.{◌≡◌, ◌++◌, ◌≤◌, IfOk, OnOk, length};
ghost use Rattle.std.specs.Str.{chars};
ghost use Rattle.um_excerpt.specs.SourceLine.{first_line, line_before, without_return};

use std::alloc::{AllocError, Global};

/// The characters of the text since its last line feed, without a byte order mark, U+FEFF, that the text may begin
/// with.
pub fn line_before(alloc: Global, text: &str) -> Result<Vec<char>, AllocError>
    ensures { IfOk result (λ line. line.items ≡ line_before (chars text.now)) }
{
    let mut line = Vec::new(alloc);
    let mut first = true;
    for c in text.chars() {
        if c == '\n' {
            line.clear();
        } else if !first || c != '\u{feff}' {
            line.push(c)?;
        }
        first = false;
    }
    Ok(line)
}

/// Adds the characters of the text up to its first line feed.
pub fn push_first_line(line: &mut Vec<char>, text: &str) -> Result<(), AllocError>
    ensures { OnOk result (line.new.items ≡ line.old.items ++ first_line (chars text.now)) }
{
    for c in text.chars() {
        if c == '\n' {
            return Ok(());
        }
        line.push(c)?;
    }
    Ok(())
}

/// The line less one carriage return at its end.
pub fn without_return(line: &[char]) -> &[char]
    ensures { result.now ≡ without_return line.now }
{
    let len = line.len();
    if len > 0 && line[len - 1] == '\r' {
        return &line[..len - 1];
    }
    line
}
