//! Sizes as one word.
ghost use Rattle.std.specs.Prelude.{◌≡◌, IfOk, Some, None, cond, is_some};
ghost use Rattle.um_sizes.specs.Parts.{parts_of};
ghost use Rattle.um_sizes.specs.ScaleWords.{is_scales};
ghost use Rattle.um_sizes.specs.Adding.{name_after, names_after};

use crate::cut::cut;
use crate::part::size_in;
use std::alloc::{AllocError, Global};
use um_measures::{NameDigest, NameTable};

/// Whether the word states sizes of base units: `NAME=NUMBER`, and more of these after commas, without spaces.
///
/// Each name is a name of the language and stands once. Each number is written as in a program, has a value in the
/// range of numbers, and is above 0. It takes time linear in the word. Want of memory is its one error.
pub fn is_scales(alloc: Global, word: &str) -> Result<bool, AllocError>
    ensures { IfOk result (λ b. b ≡ is_scales word.now) }
{
    let mut digest = NameDigest::new();
    digest.add(word.as_bytes());
    let mut names = NameTable::with_digest(alloc, digest);
    let answer = add_sizes(alloc, word, &mut names);
    drop(names);
    answer
}

/// Whether each part of the word is a size of a name that stands once and isn't in the table. Then the names are
/// added.
fn add_sizes(alloc: Global, word: &str, names: &mut NameTable) -> Result<bool, AllocError>
    ensures { IfOk result (λ b. b ≡ is_some (names_after names.old (parts_of word.now))) }
{
    let mut rest = word;
    'parts: while let Some((part, more)) = cut(rest, ',') {
        if !add_size(alloc, part, names)? {
            return Ok(false);
        }
        rest = more;
    }
    add_size(alloc, rest, names)
}

/// Whether the part is a size of a name that isn't in the table. Then the name is added.
fn add_size(alloc: Global, part: &str, names: &mut NameTable) -> Result<bool, AllocError>
    ensures { IfOk result (λ b. name_after names.old part.now ≡ cond b (Some names.new) None) }
{
    let Some((name, _)) = size_in(part) else {
        return Ok(false);
    };
    if names.has(name.as_bytes()) {
        return Ok(false);
    }
    names.add(alloc, name.as_bytes())?;
    Ok(true)
}
