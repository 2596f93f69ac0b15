//! The words of a line.
ghost use Rattle.std.specs.Prelude.{◌≡◌, ◌<◌, ◌∷◌, ◌++◌, [], IfOk, OnOk, length, map, string_bytes};
ghost use Rattle.um_lines.specs.Sources.{words_in};

use std::alloc::{AllocError, Global};

/// The words of a line: what stands between its tabs, one word at least. Takes time and memory linear in the line, and
/// want of memory is its one error.
pub fn words_of(alloc: Global, line: &str) -> Result<Vec<String>, AllocError>
    ensures exact { IfOk result (λ words. map string_bytes words.items ≡ words_in line.now) }
    ensures some { IfOk result (λ words. 0 < length words.items) }
{
    let mut words = Vec::new(alloc);
    let mut rest = line;
    while let Some((word, after)) = rest.split_once('\t') {
        add_word(alloc, word, &mut words)?;
        rest = after;
    }
    add_word(alloc, rest, &mut words)?;
    Ok(words)
}

/// Adds a word at the end.
fn add_word(alloc: Global, word: &str, words: &mut Vec<String>) -> Result<(), AllocError>
    ensures { OnOk result (map string_bytes words.new.items ≡ map string_bytes words.old.items ++ word.now ∷ []) }
{
    let owned = String::from_str(alloc, word)?;
    words.push(owned)?;
    Ok(())
}
