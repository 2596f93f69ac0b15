//! The lines of calls, one after another.
ghost use Rattle.std.specs.Prelude.{◌≡◌, ◌<◌, ◌∷◌, [], IfSome, MatchOption, length};
ghost use Rattle.um_lines.specs.Sources.{call_lines, without_return};

use crate::cut::cut_line;

/// The first line of calls, without its line feed and one carriage return before that, and what stands after it.
/// Nothing if there is no line.
///
/// A line ends at a line feed or at the end; nothing stands after the last line feed of whole lines. It takes time
/// linear in the line, and no memory.
pub fn next_line(calls: &[u8]) -> Option<(&[u8], &[u8])>
    ensures lines { MatchOption result (call_lines calls.now ≡ [])
        (λ parts. call_lines calls.now ≡ parts.0.now ∷ call_lines parts.1.now) }
    ensures shorter { IfSome result (λ parts. length parts.1.now < length calls.now) }
{
    if calls.is_empty() {
        return None;
    }
    match cut_line(calls) {
        Some((line, after)) => Some((without_return(line), after)),
        None => Some((without_return(calls), &[])),
    }
}

/// The line without a carriage return at its end.
fn without_return(line: &[u8]) -> &[u8]
    ensures { result.now ≡ without_return line.now }
{
    let count = line.len();
    if count > 0 && line[count - 1] == b'\r' {
        &line[..count - 1]
    } else {
        line
    }
}
