//! The letters of variables without a name.

ghost use Rattle.std.specs.Prelude.{◌≡◌, ◌≤◌, ◌*◌, ◌++◌, [], ◌∷◌, cond, IfOk, OnOk, map};
ghost use Rattle.um_unit_reasons.specs.VariableNames.{written, letter, is_free, letters};

use std::alloc::{AllocError, Global};
use um_measures::NameTable;
use um_tree::Name;

/// So many letters, or more, that are none of the names, as they are written.
pub(crate) fn letters(alloc: Global, names: &NameTable, count: u64) -> Result<Vec<Name>, AllocError>
    requires { count ≤ 2 * 4294967295 }
    ensures { IfOk result (λ texts. texts.items ≡ map written (letters names.now count)) }
{
    let end = count + u64::from(names.count());
    let mut texts = Vec::new(alloc);
    for k in 0..end {
        push_free(alloc, names, k, &mut texts)?;
    }
    Ok(texts)
}

/// Adds letter k, unless it is a name.
fn push_free(
    alloc: Global,
    names: &NameTable,
    k: u64,
    texts: &mut Vec<Name>,
) -> Result<(), AllocError>
    ensures { OnOk result (texts.new.items
        ≡ texts.old.items ++ cond (is_free names.now (letter k)) (written (letter k) ∷ []) []) }
{
    let letter = letter(alloc, k)?;
    if names.has(&letter) {
        return Ok(());
    }
    texts.push(written(alloc, &letter)?)?;
    Ok(())
}

/// Letter k, and after 26 of them a letter with a number.
fn letter(alloc: Global, k: u64) -> Result<Vec<u8>, AllocError>
    ensures { IfOk result (λ text. text.items ≡ letter k) }
{
    let mut text = Vec::new(alloc);
    text.push(b'a' + (k % 26) as u8)?;
    if k >= 26 {
        text.extend_from_slice(itoa::Buffer::new().format(k / 26).as_bytes())?;
    }
    Ok(text)
}

/// A variable as it is written: its name with a quote before it (F# specification, Units Of Measure).
pub(crate) fn written(alloc: Global, name: &[u8]) -> Result<Name, AllocError>
    ensures { IfOk result (λ text. text ≡ written name.now) }
{
    let mut text = Vec::new(alloc);
    text.push(b'\'')?;
    text.extend_from_slice(name)?;
    Name::from_slice(alloc, &text)
}
