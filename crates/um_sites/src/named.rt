//! Names with their places.

ghost use Rattle.std.specs.Prelude.{◌≡◌, ◌∷◌, ◌++◌, [], IfOk, OnOk};
ghost use Rattle.um_sites.specs.Spaces.{taking, named, names_of, is_named, place_of, parts_of, bound};
ghost use Rattle.um_tree.specs.RawTree.{binder_syntax};

use std::alloc::{AllocError, Global};
use um_tree::{Binder, Name, Names};

/// A name with its place, and how many units or arguments it takes.
#[derive(Drop)]
pub(crate) struct Named {
    pub at: u32,
    pub name: Name,
    pub parts: usize,
}

/// Adds a name that takes so many parts.
pub(crate) fn push_taking(
    alloc: Global,
    names: &mut Vec<Named>,
    at: u32,
    name: &Name,
    parts: usize,
) -> Result<(), AllocError>
    ensures { OnOk result (names.new.items ≡ names.old.items ++ taking parts at name.now ∷ []) }
{
    let name = Name::from_slice(alloc, name.as_slice())?;
    names.push(Named { at, name, parts })?;
    Ok(())
}

/// Adds a name that takes no parts.
pub(crate) fn push_named(
    alloc: Global,
    names: &mut Vec<Named>,
    at: u32,
    name: &Name,
) -> Result<(), AllocError>
    ensures { OnOk result (names.new.items ≡ names.old.items ++ named at name.now ∷ []) }
{
    push_taking(alloc, names, at, name, 0)
}

/// Adds the variable that is bound, if any.
pub(crate) fn push_bound(
    alloc: Global,
    names: &mut Vec<Named>,
    binder: &Binder,
) -> Result<(), AllocError>
    ensures { OnOk result (names.new.items ≡ names.old.items ++ bound (binder_syntax binder.now)) }
{
    match &binder.name {
        None => Ok(()),
        Some(name) => push_named(alloc, names, binder.at, name),
    }
}

/// The names alone.
pub(crate) fn names_of(alloc: Global, names: &[Named]) -> Result<Names, AllocError>
    ensures { IfOk result (λ copies. copies ≡ names_of names.now) }
{
    let mut copies = Vec::new(alloc);
    for named in names {
        copies.push(Name::from_slice(alloc, named.name.as_slice())?)?;
    }
    Ok(Names::from_vec(copies))
}

/// Whether one has the name.
pub(crate) fn is_named(names: &[Named], name: &Name) -> bool
    ensures { result ≡ is_named names.now name.now }
{
    for named in names {
        if name.as_slice() == named.name.as_slice() {
            return true;
        }
    }
    false
}

/// The place of the first that has the name.
pub(crate) fn place_of(names: &[Named], name: &Name) -> Option<u32>
    ensures { result ≡ place_of names.now name.now }
{
    for named in names {
        if name.as_slice() == named.name.as_slice() {
            return Some(named.at);
        }
    }
    None
}

/// How many parts the first takes that has the name.
pub(crate) fn parts_of(names: &[Named], name: &Name) -> Option<usize>
    ensures { result ≡ parts_of names.now name.now }
{
    for named in names {
        if name.as_slice() == named.name.as_slice() {
            return Some(named.parts);
        }
    }
    None
}
