//! The names that are similar to an unknown one.
ghost use Rattle.std.specs.Prelude.{◌≡◌, [], IfOk, OnOk};
ghost use Rattle.std.specs.List.{list_any};
ghost use Rattle.std.specs.Str.{bytes_eq, chars, IsUtf8};
ghost use Rattle.um_similar.specs.SimilarNames.{Search, is_kept, is_similar, looked_at};

use crate::edit::is_one_edit;
use std::alloc::{AllocError, Global};
use std::marker::Model;
use std::str;
use um_tree::Name;

/// The search for names that are similar to an unknown one.
///
/// Contracts see the characters of the unknown name, and the names that were found: of those that were looked at the
/// first four at one edit, each once, in order.
#[derive(Drop)]
pub struct Similar {
    unknown: Vec<char>,
    found: Vec<Name>,
}

impl Model for Similar {
    ghost use Rattle.um_similar.specs.SimilarNames.{Search};

    ghost Value = { Search };

    ghost view = { λ similar. record { unknown = similar.unknown.items; found = similar.found.items } };
}

impl Similar {
    /// No name was looked at.
    pub fn of(alloc: Global, unknown: &str) -> Result<Similar, AllocError>
        ensures none { IfOk result (λ similar. similar ≡ record { unknown = chars unknown.now; found = [] }) }
    {
        let unknown = characters(alloc, unknown)?;
        Ok(Similar {
            unknown,
            found: Vec::new(alloc),
        })
    }

    /// Looks at a name that is known. It is kept if it is at one edit from the unknown one and wasn't found before, and
    /// if there are fewer than four.
    pub fn look_at(&mut self, alloc: Global, name: &Name) -> Result<(), AllocError>
        requires utf8 { IsUtf8 name.now }
        ensures looked { OnOk result (self.new ≡ looked_at self.old name.now) }
    {
        if !is_kept(alloc, &self.unknown, &self.found, name)? {
            return Ok(());
        }
        let copy = Name::from_slice(alloc, name.as_slice())?;
        self.found.push(copy)?;
        Ok(())
    }

    /// The names that were found, in order. Takes no memory.
    pub fn names(&self) -> &[Name]
        ensures found { result.now ≡ self.now.found }
    {
        &self.found
    }
}

/// The characters of a word.
fn characters(alloc: Global, word: &str) -> Result<Vec<char>, AllocError>
    ensures { IfOk result (λ characters. characters.items ≡ chars word.now) }
{
    let mut characters = Vec::new(alloc);
    for c in word.chars() {
        characters.push(c)?;
    }
    Ok(characters)
}

/// Whether the name goes to those that were found.
fn is_kept(alloc: Global, unknown: &[char], found: &[Name], name: &Name) -> Result<bool, AllocError>
    requires utf8 { IsUtf8 name.now }
    ensures { IfOk result (λ kept. kept ≡ is_kept unknown.now found.now name.now) }
{
    if found.len() < 4 && !is_found(found, name) {
        return is_similar(alloc, unknown, name);
    }
    Ok(false)
}

/// Whether the name was found before.
fn is_found(found: &[Name], name: &Name) -> bool
    ensures { result ≡ list_any (bytes_eq name.now) found.now }
{
    for other in found {
        if name.as_slice() == other.as_slice() {
            return true;
        }
    }
    false
}

/// Whether the name is at one edit from the unknown one.
fn is_similar(alloc: Global, unknown: &[char], name: &Name) -> Result<bool, AllocError>
    requires utf8 { IsUtf8 name.now }
    ensures { IfOk result (λ similar. similar ≡ is_similar unknown.now name.now) }
{
    let Ok(word) = str::from_utf8(name.as_slice()) else {
        unreachable!()
    };
    let characters = characters(alloc, word)?;
    Ok(is_one_edit(unknown, &characters))
}
