//! Lines of units and of rows.

ghost use Rattle.std.specs.Prelude.{◌≡◌, ◌++◌, OnOk};
ghost use Rattle.std.specs.Fmt.{decimal, signed_decimal};
ghost use Rattle.um_certificates.specs.CertificateText.{numbered, part_text, parts_text as text_of_parts, rows_line};
ghost use Rattle.um_certificates.specs.CertificateText.{unit_line};

use std::alloc::{AllocError, Global};
use um_check::{Part, Parts};
use um_show::unit_text;
use um_tree::Names;
use um_units::Unit;

/// Adds a line for each unit, which begins with the word.
pub fn push_units(
    alloc: Global,
    text: &mut Vec<u8>,
    word: &[u8],
    bases: &Names,
    units: &[Unit],
) -> Result<(), AllocError>
    ensures { OnOk result (text.new.items ≡ text.old.items ++ numbered (unit_line word.now bases.now) 0 units.now) }
{
    for k in 0..units.len() {
        push_unit(alloc, text, word, k, bases, &units[k])?;
    }
    Ok(())
}

fn push_unit(
    alloc: Global,
    text: &mut Vec<u8>,
    word: &[u8],
    k: usize,
    bases: &Names,
    unit: &Unit,
) -> Result<(), AllocError>
    ensures { OnOk result (text.new.items ≡ text.old.items ++ unit_line word.now bases.now k unit.now) }
{
    let written = unit_text(alloc, unit, bases)?;
    text.extend_from_slice(word)?;
    push_number(text, k)?;
    text.extend_from_slice(b": ")?;
    text.extend_from_slice(&written)?;
    text.push(b'\n')?;
    Ok(())
}

/// Adds a line for each slot that has parts.
pub fn push_rows(text: &mut Vec<u8>, lists: &[Parts]) -> Result<(), AllocError>
    ensures { OnOk result (text.new.items ≡ text.old.items ++ numbered rows_line 0 lists.now) }
{
    for k in 0..lists.len() {
        push_slot(text, k, lists[k].as_slice())?;
    }
    Ok(())
}

fn push_slot(text: &mut Vec<u8>, k: usize, parts: &[Part]) -> Result<(), AllocError>
    ensures { OnOk result (text.new.items ≡ text.old.items ++ rows_line k parts.now) }
{
    if parts.is_empty() {
        return Ok(());
    }
    text.extend_from_slice(b"  rows ")?;
    push_number(text, k)?;
    text.extend_from_slice(b": ")?;
    push_parts(text, parts)?;
    text.push(b'\n')?;
    Ok(())
}

/// Adds rows with their powers, a space between each two.
pub fn push_parts(text: &mut Vec<u8>, parts: &[Part]) -> Result<(), AllocError>
    ensures { OnOk result (text.new.items ≡ text.old.items ++ text_of_parts parts.now) }
{
    let Some((first, rest)) = parts.split_first() else {
        return Ok(());
    };
    push_part(text, *first)?;
    for part in rest {
        text.push(b' ')?;
        push_part(text, *part)?;
    }
    Ok(())
}

fn push_part(text: &mut Vec<u8>, part: Part) -> Result<(), AllocError>
    ensures { OnOk result (text.new.items ≡ text.old.items ++ part_text part) }
{
    push_number(text, part.row as usize)?;
    text.push(b'*')?;
    push_integer(text, part.times)
}

/// Puts a number in base 10 after a text.
pub fn push_number(text: &mut Vec<u8>, n: usize) -> Result<(), AllocError>
    ensures { OnOk result (text.new.items ≡ text.old.items ++ decimal n) }
{
    text.extend_from_slice(itoa::Buffer::new().format(n).as_bytes())
}

/// Puts an integer in base 10 after a text.
pub fn push_integer(text: &mut Vec<u8>, n: i64) -> Result<(), AllocError>
    ensures { OnOk result (text.new.items ≡ text.old.items ++ signed_decimal n) }
{
    text.extend_from_slice(itoa::Buffer::new().format(n).as_bytes())
}
