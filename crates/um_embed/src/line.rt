// The words of a command line that the host hands in.
ghost use Rattle.std.specs.Prelude.{◌≡◌, IfOk};
ghost use Rattle.um_embed.specs.CommandLine.{words_in};
ghost use Rattle.um_embed.specs.Embedded.{words_between};

use std::alloc::{AllocError, Global};
use std::str;
use um_tool::Words;

/// The words in these bytes; if they aren't UTF-8, the one word `?`.
pub(crate) fn words_of_line(alloc: Global, bytes: &[u8]) -> Result<Words, AllocError>
    ensures { IfOk result (λ words. words ≡ words_in bytes.now) }
{
    match str::from_utf8(bytes) {
        Ok(text) => parts_of(alloc, text),
        Err(_) => parts_of(alloc, "?"),
    }
}

/// The parts of a text between its zero bytes.
fn parts_of(alloc: Global, text: &str) -> Result<Words, AllocError>
    ensures { IfOk result (λ words. words ≡ words_between text.now) }
{
    let mut words = Words::new(alloc);
    let mut rest = text;
    while let Some((word, after)) = rest.split_once('\0') {
        words.push(alloc, word)?;
        rest = after;
    }
    words.push(alloc, rest)?;
    Ok(words)
}
