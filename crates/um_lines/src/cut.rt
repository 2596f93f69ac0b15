//! Bytes in two at their first line feed.
ghost use Rattle.std.specs.Prelude.{◌≡◌, ◌+◌, ◌∷◌, ◌++◌, [], IfSome, MatchOption, length};
ghost use Rattle.um_lines.specs.Sources.{lines_between};

use memchr::memchr;

/// What stands before the first line feed and what stands after it, if there is one. Takes no memory.
pub(crate) fn cut_line(bytes: &[u8]) -> Option<(&[u8], &[u8])>
    ensures lines { MatchOption result (lines_between bytes.now ≡ bytes.now ∷ [])
        (λ parts. lines_between bytes.now ≡ parts.0.now ∷ lines_between parts.1.now) }
    ensures whole { IfSome result (λ parts. bytes.now ≡ parts.0.now ++ 10 ∷ parts.1.now) }
    ensures size { IfSome result (λ parts. length parts.0.now + 1 + length parts.1.now ≡ length bytes.now) }
{
    match memchr(b'\n', bytes) {
        Some(at) => Some((&bytes[..at], &bytes[at + 1..])),
        None => None,
    }
}
