//! What is told at a place of a name.

ghost use Rattle.std.specs.Prelude.{◌≡◌, ◌∷◌, ◌++◌, [], true, false, OnOk, map};
ghost use Rattle.um_tree.specs.RawTree.{decl_syntax, var_syntax, field_decl_syntax, param_syntax, binder_syntax};
ghost use Rattle.um_sites.specs.declared.detail.NameDetail.TheVariants.{Unknown, Twice, FieldHole, NumberHole};
ghost use Rattle.um_sites.specs.declared.spaces.Space.TheVariants.{Fields, Records};
ghost use Rattle.um_sites.specs.Spaces.{names_of, place_of, parts_of, bound, variable_named, field_named};
ghost use Rattle.um_sites.specs.Spaces.{parameter_named, declared};
ghost use Rattle.um_sites.specs.Sites.{told_if, is_hole, counts, counted, used, declared_after, bound_after};
ghost use Rattle.um_sites.specs.Sites.{variable_told};
ghost use Rattle.std.specs.List.{flat_map};

use crate::detail::NameDetail;
use crate::fault::{is_hole, is_twice, is_unknown, is_wrong_count};
use crate::named::{Named, names_of, parts_of, place_of, push_bound};
use crate::spaces::{Space, declared, push_fields, push_parameters, push_variables};
use std::alloc::{AllocError, Global};
use um_measures::NameStop;
use um_tree::{Binder, Name, RawDecl, RawFieldDecl, RawParam, RawVar};

/// What is asked of a declaration: what is told of this fault, and the declarations before it.
#[derive(Drop)]
pub(crate) struct Asked<'a> {
    pub(crate) alloc: Global,
    pub(crate) fault: NameStop,
    pub(crate) before: &'a [RawDecl],
}

/// A name that isn't known, where these are.
pub(crate) fn push_unknown(
    alloc: Global,
    told: &mut Vec<NameDetail>,
    name: &Name,
    quoted: bool,
    known: &[Named],
) -> Result<(), AllocError>
    ensures { OnOk result (told.new.items ≡ told.old.items ++ Unknown name.now quoted (names_of known.now) ∷ []) }
{
    let known = names_of(alloc, known)?;
    let name = Name::from_slice(alloc, name.as_slice())?;
    told.push(NameDetail::Unknown {
        name,
        quoted,
        known,
    })?;
    Ok(())
}

/// A name that is declared after these.
fn push_twice(told: &mut Vec<NameDetail>, before: &[Named], name: &Name) -> Result<(), AllocError>
    ensures { OnOk result (told.new.items ≡ told.old.items ++ Twice (place_of before.now name.now) ∷ []) }
{
    let earlier = place_of(before, name);
    told.push(NameDetail::Twice { earlier })?;
    Ok(())
}

/// So many parts are expected and found.
pub(crate) fn push_counts(
    told: &mut Vec<NameDetail>,
    expected: Option<usize>,
    found: usize,
) -> Result<(), AllocError>
    ensures { OnOk result (told.new.items ≡ told.old.items ++ counts expected found) }
{
    match expected {
        None => Ok(()),
        Some(expected) => {
            told.push(NameDetail::Counts { expected, found })?;
            Ok(())
        }
    }
}

/// A name of a space that is used.
pub(crate) fn tell_used(
    told: &mut Vec<NameDetail>,
    asked: &Asked,
    space: Space,
    at: u32,
    name: &Name,
) -> Result<(), AllocError>
    ensures { OnOk result (told.new.items ≡ told.old.items
        ++ used asked.now.fault at name.now false (declared space (map decl_syntax asked.now.before.now))) }
{
    if !is_unknown(asked.fault, at) {
        return Ok(());
    }
    let known = declared(asked.alloc, space, asked.before)?;
    push_unknown(asked.alloc, told, name, false, &known)
}

/// A variable of a unit text, where these are known.
fn tell_quoted(
    told: &mut Vec<NameDetail>,
    asked: &Asked,
    variables: &[RawVar],
    at: u32,
    name: &Name,
) -> Result<(), AllocError>
    ensures { OnOk result (told.new.items ≡ told.old.items
        ++ used asked.now.fault at name.now true (map variable_named (map var_syntax variables.now))) }
{
    if !is_unknown(asked.fault, at) {
        return Ok(());
    }
    let mut known = Vec::new(asked.alloc);
    push_variables(asked.alloc, &mut known, variables)?;
    push_unknown(asked.alloc, told, name, true, &known)
}

/// A variable of a unit text.
pub(crate) fn tell_variable(
    told: &mut Vec<NameDetail>,
    asked: &Asked,
    free: bool,
    variables: &[RawVar],
    at: u32,
    name: &Name,
) -> Result<(), AllocError>
    ensures { OnOk result (told.new.items ≡ told.old.items ++ variable_told asked.now.fault
        (map decl_syntax asked.now.before.now) free (map variable_named (map var_syntax variables.now)) at name.now) }
{
    if free {
        return Ok(());
    }
    tell_quoted(told, asked, variables, at, name)
}

/// The units of a record.
pub(crate) fn tell_units(
    told: &mut Vec<NameDetail>,
    asked: &Asked,
    at: u32,
    name: &Name,
    found: usize,
) -> Result<(), AllocError>
    ensures { OnOk result (told.new.items ≡ told.old.items ++ counted asked.now.fault at
        (parts_of (declared Records (map decl_syntax asked.now.before.now)) name.now) found) }
{
    if !is_wrong_count(asked.fault, at) {
        return Ok(());
    }
    let records = declared(asked.alloc, Space::Records, asked.before)?;
    push_counts(told, parts_of(&records, name), found)
}

/// A hole in a type.
pub(crate) fn tell_field_hole(
    told: &mut Vec<NameDetail>,
    fault: NameStop,
    at: u32,
) -> Result<(), AllocError>
    ensures { OnOk result (told.new.items ≡ told.old.items ++ told_if (is_hole fault at) FieldHole) }
{
    if is_hole(fault, at) {
        told.push(NameDetail::FieldHole)?;
    }
    Ok(())
}

/// A hole on a number.
pub(crate) fn tell_number_hole(
    told: &mut Vec<NameDetail>,
    fault: NameStop,
    at: u32,
) -> Result<(), AllocError>
    ensures { OnOk result (told.new.items ≡ told.old.items ++ told_if (is_hole fault at) NumberHole) }
{
    if is_hole(fault, at) {
        told.push(NameDetail::NumberHole)?;
    }
    Ok(())
}

/// A name that is declared in a space.
pub(crate) fn tell_declared(
    told: &mut Vec<NameDetail>,
    asked: &Asked,
    space: Space,
    at: u32,
    name: &Name,
) -> Result<(), AllocError>
    ensures { OnOk result (told.new.items ≡ told.old.items
        ++ declared_after asked.now.fault (declared space (map decl_syntax asked.now.before.now)) at name.now) }
{
    if !is_twice(asked.fault, at) {
        return Ok(());
    }
    let before = declared(asked.alloc, space, asked.before)?;
    push_twice(told, &before, name)
}

/// A field that is declared after others of its record.
pub(crate) fn tell_field(
    told: &mut Vec<NameDetail>,
    asked: &Asked,
    fields: &[RawFieldDecl],
    at: u32,
    name: &Name,
) -> Result<(), AllocError>
    ensures { OnOk result (told.new.items ≡ told.old.items ++ declared_after asked.now.fault
        (declared Fields (map decl_syntax asked.now.before.now) ++ map field_named (map field_decl_syntax fields.now))
        at name.now) }
{
    if !is_twice(asked.fault, at) {
        return Ok(());
    }
    let mut before = declared(asked.alloc, Space::Fields, asked.before)?;
    push_fields(asked.alloc, &mut before, fields)?;
    push_twice(told, &before, name)
}

/// A unit parameter after others.
pub(crate) fn tell_unit_parameter(
    told: &mut Vec<NameDetail>,
    asked: &Asked,
    variables: &[RawVar],
    at: u32,
    name: &Name,
) -> Result<(), AllocError>
    ensures { OnOk result (told.new.items ≡ told.old.items
        ++ declared_after asked.now.fault (map variable_named (map var_syntax variables.now)) at name.now) }
{
    if !is_twice(asked.fault, at) {
        return Ok(());
    }
    let mut before = Vec::new(asked.alloc);
    push_variables(asked.alloc, &mut before, variables)?;
    push_twice(told, &before, name)
}

/// A parameter's name after those of others.
fn tell_parameter_name(
    told: &mut Vec<NameDetail>,
    asked: &Asked,
    parameters: &[RawParam],
    at: u32,
    name: &Name,
) -> Result<(), AllocError>
    ensures { OnOk result (told.new.items ≡ told.old.items
        ++ declared_after asked.now.fault (flat_map parameter_named (map param_syntax parameters.now)) at name.now) }
{
    if !is_twice(asked.fault, at) {
        return Ok(());
    }
    let mut before = Vec::new(asked.alloc);
    push_parameters(asked.alloc, &mut before, parameters)?;
    push_twice(told, &before, name)
}

/// A parameter after others.
pub(crate) fn tell_parameter(
    told: &mut Vec<NameDetail>,
    asked: &Asked,
    parameters: &[RawParam],
    binder: &Binder,
) -> Result<(), AllocError>
    ensures { OnOk result (told.new.items ≡ told.old.items ++ bound_after asked.now.fault
        (flat_map parameter_named (map param_syntax parameters.now))
        (binder_syntax binder.now).at (binder_syntax binder.now).name) }
{
    match &binder.name {
        None => Ok(()),
        Some(name) => tell_parameter_name(told, asked, parameters, binder.at, name),
    }
}

/// A variable's name after that of another.
fn tell_second_name(
    told: &mut Vec<NameDetail>,
    asked: &Asked,
    first: &Binder,
    at: u32,
    name: &Name,
) -> Result<(), AllocError>
    ensures { OnOk result (told.new.items ≡ told.old.items
        ++ declared_after asked.now.fault (bound (binder_syntax first.now)) at name.now) }
{
    if !is_twice(asked.fault, at) {
        return Ok(());
    }
    let mut before = Vec::new(asked.alloc);
    push_bound(asked.alloc, &mut before, first)?;
    push_twice(told, &before, name)
}

/// A variable after another.
pub(crate) fn tell_second(
    told: &mut Vec<NameDetail>,
    asked: &Asked,
    first: &Binder,
    second: &Binder,
) -> Result<(), AllocError>
    ensures { OnOk result (told.new.items ≡ told.old.items ++ bound_after asked.now.fault
        (bound (binder_syntax first.now)) (binder_syntax second.now).at (binder_syntax second.now).name) }
{
    match &second.name {
        None => Ok(()),
        Some(name) => tell_second_name(told, asked, first, second.at, name),
    }
}
