//! The text of what is told.

ghost use Rattle.std.specs.Prelude.{◌≡◌, ◌++◌, [], false, OnOk, IfOk, codes, cond, decimal, filter, length, nat_lt};
ghost use Rattle.std.specs.Str.{chars, is_utf8};
ghost use Rattle.um_similar.specs.SimilarNames.{looked_at, looked_at_all, similar_names};
ghost use Rattle.um_sites.specs.NameDetails.{line, names_text, written_name, similar_to, similar_line};
ghost use Rattle.um_sites.specs.NameDetails.{twice_line, detail_text, first_text, place_in, earlier_place};

use crate::detail::{NameDetail, NameDetails};
use std::alloc::{AllocError, Global};
use std::str;
use um_similar::Similar;
use um_similar::laws::edits;
use um_tree::{Name, Names};

/// Looks at a name, if it is in UTF-8.
fn look_at(alloc: Global, similar: &mut Similar, name: &Name) -> Result<(), AllocError>
    ensures { OnOk result (similar.new ≡ cond (is_utf8 name.now) (looked_at similar.old name.now) similar.old) }
{
    match str::from_utf8(name.as_slice()) {
        Ok(_) => similar.look_at(alloc, name),
        Err(_) => Ok(()),
    }
}

/// Looks at the names in UTF-8.
fn look_at_all(alloc: Global, similar: &mut Similar, known: &[Name]) -> Result<(), AllocError>
    ensures { OnOk result (similar.new ≡ looked_at_all similar.old (filter is_utf8 known.now)) }
{
    for name in known {
        look_at(alloc, similar, name)?;
    }
    Ok(())
}

/// The names that are similar to a word.
fn similar_to(alloc: Global, word: &str, known: &[Name]) -> Result<Similar, AllocError>
    ensures { IfOk result (λ similar. similar.found ≡ similar_names (chars word.now) (filter is_utf8 known.now)) }
{
    edits();
    let mut similar = Similar::of(alloc, word)?;
    look_at_all(alloc, &mut similar, known)?;
    Ok(similar)
}

/// Adds a name; a variable of a unit text has its quote.
fn push_written(text: &mut Vec<u8>, quoted: bool, name: &Name) -> Result<(), AllocError>
    ensures { OnOk result (text.new.items ≡ text.old.items ++ written_name quoted name.now) }
{
    if quoted {
        text.push(b'\'')?;
    }
    text.extend_from_slice(name.as_slice())
}

/// Adds names, each after a space.
fn push_names(text: &mut Vec<u8>, quoted: bool, names: &[Name]) -> Result<(), AllocError>
    ensures { OnOk result (text.new.items ≡ text.old.items ++ names_text quoted names.now) }
{
    for name in names {
        text.push(b' ')?;
        push_written(text, quoted, name)?;
    }
    Ok(())
}

/// Adds the line of similar names, if there are any.
fn push_similar_line(text: &mut Vec<u8>, quoted: bool, names: &[Name]) -> Result<(), AllocError>
    ensures { OnOk result (text.new.items ≡ text.old.items ++ similar_line quoted names.now) }
{
    if names.is_empty() {
        return Ok(());
    }
    text.extend_from_slice(b"similar:")?;
    push_names(text, quoted, names)?;
    text.push(b'\n')?;
    Ok(())
}

/// Whether a word has at least two characters.
fn has_similar(word: &str) -> bool
    ensures { result ≡ nat_lt 1 (length (chars word.now)) }
{
    word.chars().count() > 1
}

/// Adds the similar names of a word that isn't known.
fn push_similar_to(
    alloc: Global,
    text: &mut Vec<u8>,
    word: &str,
    quoted: bool,
    known: &[Name],
) -> Result<(), AllocError>
    ensures { OnOk result (text.new.items ≡ text.old.items ++ similar_line quoted
        (cond (nat_lt 1 (length (chars word.now))) (similar_names (chars word.now) (filter is_utf8 known.now)) [])) }
{
    if !has_similar(word) {
        return Ok(());
    }
    let similar = similar_to(alloc, word, known)?;
    push_similar_line(text, quoted, similar.names())
}

/// Adds the similar names of a name that isn't known.
fn push_similar(
    alloc: Global,
    text: &mut Vec<u8>,
    name: &[u8],
    quoted: bool,
    known: &[Name],
) -> Result<(), AllocError>
    ensures { OnOk result (text.new.items ≡ text.old.items ++ similar_line quoted (similar_to name.now known.now)) }
{
    match str::from_utf8(name) {
        Ok(word) => push_similar_to(alloc, text, word, quoted, known),
        Err(_) => Ok(()),
    }
}

fn push_number(text: &mut Vec<u8>, number: usize) -> Result<(), AllocError>
    ensures { OnOk result (text.new.items ≡ text.old.items ++ decimal number) }
{
    text.extend_from_slice(itoa::Buffer::new().format(number).as_bytes())
}

fn push_own(text: &mut Vec<u8>, name: &Name) -> Result<(), AllocError>
    ensures { OnOk result (text.new.items ≡ text.old.items
        ++ line (name.now ++ codes " is known in its own body after let rec")) }
{
    text.extend_from_slice(name.as_slice())?;
    text.extend_from_slice(b" is known in its own body after let rec\n")
}

/// Adds the line of the earlier declaration, whose place has this text.
fn push_twice(text: &mut Vec<u8>, earlier: &[u8], at: Option<u32>) -> Result<(), AllocError>
    ensures { OnOk result (text.new.items ≡ text.old.items ++ twice_line earlier.now at) }
{
    if at.is_none() {
        return Ok(());
    }
    text.extend_from_slice(b"declared before at ")?;
    text.extend_from_slice(earlier)?;
    text.push(b'\n')?;
    Ok(())
}

fn push_counts(text: &mut Vec<u8>, expected: usize, found: usize) -> Result<(), AllocError>
    ensures { OnOk result (text.new.items ≡ text.old.items
        ++ line (codes "expected " ++ decimal expected ++ codes ", found " ++ decimal found)) }
{
    text.extend_from_slice(b"expected ")?;
    push_number(text, expected)?;
    text.extend_from_slice(b", found ")?;
    push_number(text, found)?;
    text.push(b'\n')?;
    Ok(())
}

fn push_fields(text: &mut Vec<u8>, label: &[u8], fields: &Names) -> Result<(), AllocError>
    ensures { OnOk result (text.new.items ≡ text.old.items ++ line (label.now ++ names_text false fields.now)) }
{
    text.extend_from_slice(label)?;
    push_names(text, false, fields.as_slice())?;
    text.push(b'\n')?;
    Ok(())
}

fn push_both_fields(text: &mut Vec<u8>, expected: &Names, found: &Names) -> Result<(), AllocError>
    ensures { OnOk result (text.new.items ≡ text.old.items
        ++ (line (codes "expected:" ++ names_text false expected.now)
        ++ line (codes "found:" ++ names_text false found.now))) }
{
    push_fields(text, b"expected:", expected)?;
    push_fields(text, b"found:", found)
}

/// Adds the text of a detail.
fn push_detail(
    alloc: Global,
    text: &mut Vec<u8>,
    earlier: &[u8],
    detail: &NameDetail,
) -> Result<(), AllocError>
    ensures { OnOk result (text.new.items ≡ text.old.items ++ detail_text earlier.now detail.now) }
{
    match detail {
        NameDetail::Unknown {
            name,
            quoted,
            known,
        } => push_similar(alloc, text, name.as_slice(), *quoted, known.as_slice()),
        NameDetail::Own { name } => push_own(text, name),
        NameDetail::Twice { earlier: at } => push_twice(text, earlier, *at),
        NameDetail::Counts { expected, found } => push_counts(text, *expected, *found),
        NameDetail::Fields { expected, found } => push_both_fields(text, expected, found),
        NameDetail::FieldHole => text.extend_from_slice(b"a field's type has no hole\n"),
        NameDetail::NumberHole => text.extend_from_slice(b"only 0 has every unit\n"),
        NameDetail::Powers => {
            text.extend_from_slice(b"powers go from -2147483647 to 2147483647\n")
        }
    }
}

/// The place of the earlier declaration of a detail.
fn place_in(detail: &NameDetail) -> Option<u32>
    ensures { result ≡ place_in detail.now }
{
    match detail {
        NameDetail::Twice { earlier } => *earlier,
        NameDetail::Unknown { .. } | NameDetail::Own { .. } | NameDetail::Counts { .. } => None,
        NameDetail::Fields { .. } | NameDetail::FieldHole => None,
        NameDetail::NumberHole | NameDetail::Powers => None,
    }
}

impl NameDetails {
    /// The place of the earlier declaration, a byte offset in the text, if one is told. Takes no memory.
    pub fn earlier(&self) -> Option<u32>
        ensures earlier { result ≡ earlier_place self.now }
    {
        match self.as_slice() {
            [] => None,
            [first, ..] => place_in(first),
        }
    }

    /// Adds the lines of what is told, each with a line feed; `earlier` is the text of the place of the earlier
    /// declaration, as `2:5`, if one is told. Fails for want of memory alone. Similar names are those at one edit
    /// (Damerau 1964).
    pub fn push(&self, alloc: Global, earlier: &[u8], text: &mut Vec<u8>) -> Result<(), AllocError>
        ensures lines { OnOk result (text.new.items ≡ text.old.items ++ first_text earlier.now self.now) }
    {
        match self.as_slice() {
            [] => Ok(()),
            [first, ..] => push_detail(alloc, text, earlier, first),
        }
    }
}
