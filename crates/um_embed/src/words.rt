// The words of a call that the host hands in.
ghost use Rattle.std.specs.Prelude.{◌≡◌, ◌<◌, ◌++◌, ◌∷◌, [], IfOk, OnOk, length, map, string_bytes};
ghost use Rattle.um_embed.specs.Embedded.{words_between};

use std::alloc::{AllocError, Global};

/// What stands between the zero bytes of a text, one word at least.
pub(crate) fn words_of(alloc: Global, text: &str) -> Result<Vec<String>, AllocError>
    ensures exact { IfOk result (λ words. map string_bytes words.items ≡ words_between text.now) }
    ensures some { IfOk result (λ words. 0 < length words.items) }
{
    let mut words = Vec::new(alloc);
    let mut rest = text;
    while let Some((word, after)) = rest.split_once('\0') {
        add_word(alloc, word, &mut words)?;
        rest = after;
    }
    add_word(alloc, rest, &mut words)?;
    Ok(words)
}

/// Adds a word at the end.
fn add_word(alloc: Global, word: &str, words: &mut Vec<String>) -> Result<(), AllocError>
    ensures { OnOk result (map string_bytes words.new.items ≡ map string_bytes words.old.items ++ word.now ∷ []) }
{
    let owned = String::from_str(alloc, word)?;
    words.push(owned)?;
    Ok(())
}
