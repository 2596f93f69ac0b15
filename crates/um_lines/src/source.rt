//! The text and the calls of a source.
ghost use Rattle.std.specs.Prelude.{◌≡◌, ◌≤◌, length};
ghost use Rattle.std.specs.Str.{bytes_eq};
ghost use Rattle.um_lines.specs.Sources.{lines_between, is_ended_mark, is_mark, text_in, calls_in, whole_lines};

use crate::cut::cut_line;

/// A source in two: the text of a program, and the lines of its calls.
#[derive(Clone, Copy)]
pub struct Source<'a> {
    pub text: &'a [u8],
    pub calls: &'a [u8],
}

/// The text of a program before the first line that is `---` alone, and what stands after that line; all is text if
/// there is no such line.
///
/// It takes time linear in the bytes, and no memory. The form is this project's own.
pub fn cut_source(bytes: &[u8]) -> Source<'_>
    ensures text { result.text.now ≡ text_in (lines_between bytes.now) }
    ensures calls { whole_lines (lines_between result.calls.now)
        ≡ whole_lines (calls_in (lines_between bytes.now)) }
    ensures size { length result.text.now ≤ length bytes.now }
{
    let mut rest = bytes;
    'lines: while let Some((line, after)) = cut_line(rest) {
        if is_ended_mark(line) {
            return Source {
                text: &bytes[..bytes.len() - rest.len()],
                calls: after,
            };
        }
        rest = after;
    }
    if rest == b"---".as_slice() {
        Source {
            text: &bytes[..bytes.len() - rest.len()],
            calls: &[],
        }
    } else {
        Source {
            text: bytes,
            calls: &[],
        }
    }
}

/// Whether a line with a line feed after it is `---` alone.
fn is_ended_mark(line: &[u8]) -> bool
    ensures { result ≡ is_ended_mark line.now }
{
    line == b"---".as_slice() || line == b"---\r".as_slice()
}
