//! Units as one word.
ghost use Rattle.std.specs.Prelude.{◌≤◌, ◌↔◌, IfOk, IsTrue, List, MatchOption, length};
ghost use Rattle.um_display.specs.UnitWords.{PartSyntax, ArePartsOf, IsUnitWord, texts_in};
ghost use Rattle.um_display.specs.PartView.{parts_syntax, list_syntax, AddsPart, AddsParts};

use crate::part::{Part, read_part};
use std::alloc::{AllocError, Global};

/// The parts of a word, in order.
#[derive(Drop)]
pub struct Parts {
    pub items: Vec<Part>,
}

/// Whether the word states units: `-`, or parts with commas between them. Takes time linear in the word.
pub fn is_units(alloc: Global, word: &str) -> Result<bool, AllocError>
    requires { length word.now ≤ 1048576 }
    ensures { IfOk result (λ b. IsTrue b ↔ ((parts : List PartSyntax) × IsUnitWord word.now parts)) }
{
    let parts = read_parts(alloc, word)?;
    let stated = parts.is_some();
    drop(parts);
    Ok(stated)
}

/// The parts that the word states, if it states units.
///
/// `-` states none. A part is a unit text, or NAME=NUMBER<unit> with a number above 0; no unit text is higher than 400,
/// and no part has a comment, white space but spaces, or a space at its ends. It takes time linear in the word. Want of
/// memory is its one error. Unit texts are those of the F# specification, chapter Units Of Measure.
pub fn read_parts(alloc: Global, word: &str) -> Result<Option<Parts>, AllocError>
    requires { length word.now ≤ 1048576 }
    ensures { IfOk result (λ r. MatchOption r ((parts : List PartSyntax) → ¬ IsUnitWord word.now parts)
        (λ parts. IsUnitWord word.now (parts_syntax parts))) }
{
    if word == "-" {
        return Ok(Some(Parts {
            items: Vec::new(alloc),
        }));
    }
    read_list(alloc, word)
}

/// The parts between the commas, if each text there is one.
fn read_list(alloc: Global, word: &str) -> Result<Option<Parts>, AllocError>
    requires { length word.now ≤ 1048576 }
    ensures { IfOk result (λ r. MatchOption r ((parts : List PartSyntax) → ¬ ArePartsOf (texts_in word.now) parts)
        (λ parts. ArePartsOf (texts_in word.now) (parts_syntax parts))) }
{
    let mut items = Vec::new(alloc);
    match add_parts(alloc, word, &mut items) {
        Ok(true) => Ok(Some(Parts { items })),
        Ok(false) => {
            drop(items);
            Ok(None)
        }
        Err(error) => {
            drop(items);
            Err(error)
        }
    }
}

/// Adds the parts between the commas; whether each text there is one.
fn add_parts(alloc: Global, word: &str, items: &mut Vec<Part>) -> Result<bool, AllocError>
    requires { length word.now ≤ 1048576 }
    ensures { IfOk result (λ all. AddsParts (list_syntax items.old.items) (list_syntax items.new.items)
        (texts_in word.now) all) }
{
    let mut rest = word;
    'parts: while let Some((text, more)) = rest.split_once(',') {
        if !add_part(alloc, text, items)? {
            return Ok(false);
        }
        rest = more;
    }
    add_part(alloc, rest, items)
}

/// Adds the part that the text is; whether it is one.
fn add_part(alloc: Global, text: &str, items: &mut Vec<Part>) -> Result<bool, AllocError>
    requires { length text.now ≤ 1048576 }
    ensures { IfOk result (λ one. AddsPart (list_syntax items.old.items) (list_syntax items.new.items) text.now one) }
{
    match read_part(alloc, text)? {
        Some(part) => {
            items.push(part)?;
            Ok(true)
        }
        None => Ok(false),
    }
}
