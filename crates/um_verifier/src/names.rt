//! The test of names, and the names that are taken.
ghost use Rattle.std.specs.Prelude.{◌≡◌, ◌∷◌, ◌&&◌, [], false, not, map, IfOk};
ghost use Rattle.std.specs.Bool.{MatchBool};
ghost use Rattle.std.specs.Str.{chars};
ghost use Rattle.um_tree.specs.Formed.{IsNameBytes};
ghost use Rattle.um_verifier.specs.Names.{goes_on, reads, no_names, is_one_of, Takes};

use std::alloc::{AllocError, Global};
use std::str;
use um_measures::{NameDigest, NameTable};
use um_tree::{FieldDecl, Name, Record};
use um_verify::Head;
use unicode_ident::{is_xid_continue, is_xid_start};

/// Whether an identifier goes on with the character, if it has some before it.
fn goes_on(some: bool, c: char) -> bool
    ensures { result ≡ goes_on some c }
{
    if some {
        is_xid_continue(c)
    } else {
        c == '_' || is_xid_start(c)
    }
}

/// Whether the text is an identifier.
fn is_identifier(text: &str) -> bool
    ensures { result ≡ reads false (chars text.now) }
{
    let mut some = false;
    for c in text.chars() {
        if !goes_on(some, c) {
            return false;
        }
        some = true;
    }
    some
}

/// Whether the text is `_` or a reserved word.
fn is_reserved(text: &str) -> bool
    ensures { result ≡ is_one_of no_names text.now }
{
    match text {
        "_" => true,
        "let" => true,
        "rec" => true,
        "in" => true,
        "if" => true,
        "then" => true,
        "else" => true,
        "match" => true,
        "with" => true,
        "type" => true,
        "true" => true,
        "false" => true,
        "not" => true,
        "num" => true,
        "bool" => true,
        "list" => true,
        "Measure" => true,
        "pown" => true,
        _ => false,
    }
}

/// Whether the text is an identifier that is neither `_` nor a reserved word.
fn is_name_text(text: &str) -> bool
    ensures { result ≡ (reads false (chars text.now) && not (is_one_of no_names text.now)) }
{
    is_identifier(text) && !is_reserved(text)
}

/// Whether the bytes are a name.
pub(crate) fn is_name(bytes: &[u8]) -> bool
    ensures { MatchBool result (IsNameBytes bytes.now) (IsNameBytes bytes.now → ⊥) }
{
    match str::from_utf8(bytes) {
        Ok(text) => is_name_text(text),
        Err(_) => false,
    }
}

/// The digest of the names of records and of their fields.
pub(crate) fn records_digest(declared: &[Record]) -> NameDigest {
    let mut digest = NameDigest::new();
    for record in declared {
        digest.add(record.name.as_slice());
        add_fields(&mut digest, &record.fields.items);
    }
    digest
}

fn add_fields(digest: &mut NameDigest, fields: &[FieldDecl]) {
    for field in fields {
        digest.add(field.name.as_slice());
    }
}

/// The digest of the names of functions.
pub(crate) fn heads_digest(heads: &[Head]) -> NameDigest {
    let mut digest = NameDigest::new();
    for head in heads {
        digest.add(head.name.as_slice());
    }
    digest
}

/// Takes a name, if it is one and isn't taken.
pub(crate) fn take_name(
    alloc: Global,
    taken: &mut NameTable,
    name: &Name,
) -> Result<bool, AllocError>
    ensures { IfOk result (λ holds. Takes holds taken.old (name.now ∷ []) taken.new) }
{
    let bytes = name.as_slice();
    if !is_name(bytes) {
        return Ok(false);
    }
    if taken.has(bytes) {
        return Ok(false);
    }
    taken.add(alloc, bytes)?;
    Ok(true)
}

/// Takes the names of the fields, if each is one and isn't taken.
pub(crate) fn take_field_names(
    alloc: Global,
    taken: &mut NameTable,
    fields: &[FieldDecl],
) -> Result<bool, AllocError>
    ensures { IfOk result (λ holds. Takes holds taken.old (map (λ f. f.name) fields.now) taken.new) }
{
    for i in 0..fields.len() {
        let holds = take_name(alloc, taken, &fields[i].name)?;
        if !holds {
            return Ok(false);
        }
    }
    Ok(true)
}
