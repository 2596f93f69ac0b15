//! The names that declarations declare.

ghost use Rattle.std.specs.Prelude.{◌≡◌, ◌∷◌, ◌++◌, [], IfOk, OnOk, map};
ghost use Rattle.std.specs.List.{flat_map};
ghost use Rattle.um_tree.specs.RawTree.{decl_syntax, field_decl_syntax, param_syntax, var_syntax};
ghost use Rattle.um_tree.specs.RawTree.{whole_function_syntax};
ghost use Rattle.um_sites.specs.Spaces.{measure_in, head_in, function_in, declared_in, declared, fields_with};
ghost use Rattle.um_sites.specs.Spaces.{variable_named, field_named, fields_in, parameter_named, function_named};
ghost use Rattle.um_sites.specs.Spaces.{callable};
ghost use Rattle.um_sites.specs.declared.spaces.Space.TheVariants.{Fields};

use crate::named::{Named, is_named, push_bound, push_named, push_taking};
use std::alloc::{AllocError, Global};
use um_tree::{Name, RawDecl, RawFieldDecl, RawFunction, RawParam, RawVar};

/// A space of names. Measures, abbreviations and records share the space of types.
#[derive(Clone, Copy)]
pub(crate) enum Space {
    Types,
    Measures,
    Records,
    Fields,
    Functions,
}

/// Adds the names of unit parameters.
pub(crate) fn push_variables(
    alloc: Global,
    names: &mut Vec<Named>,
    variables: &[RawVar],
) -> Result<(), AllocError>
    ensures { OnOk result (names.new.items ≡ names.old.items ++ map variable_named (map var_syntax variables.now)) }
{
    for variable in variables {
        push_named(alloc, names, variable.at, &variable.name)?;
    }
    Ok(())
}

/// Adds the names of fields.
pub(crate) fn push_fields(
    alloc: Global,
    names: &mut Vec<Named>,
    fields: &[RawFieldDecl],
) -> Result<(), AllocError>
    ensures { OnOk result (names.new.items ≡ names.old.items ++ map field_named (map field_decl_syntax fields.now)) }
{
    for field in fields {
        push_named(alloc, names, field.at, &field.name)?;
    }
    Ok(())
}

/// Adds the names of parameters.
pub(crate) fn push_parameters(
    alloc: Global,
    names: &mut Vec<Named>,
    parameters: &[RawParam],
) -> Result<(), AllocError>
    ensures { OnOk result (names.new.items
        ≡ names.old.items ++ flat_map parameter_named (map param_syntax parameters.now)) }
{
    for parameter in parameters {
        push_bound(alloc, names, &parameter.binder)?;
    }
    Ok(())
}

/// Adds a measure or an abbreviation.
fn push_measure(
    alloc: Global,
    names: &mut Vec<Named>,
    space: Space,
    at: u32,
    name: &Name,
) -> Result<(), AllocError>
    ensures { OnOk result (names.new.items ≡ names.old.items ++ measure_in space at name.now) }
{
    match space {
        Space::Types | Space::Measures => push_named(alloc, names, at, name),
        Space::Records | Space::Fields | Space::Functions => Ok(()),
    }
}

/// Adds a record with so many units.
fn push_head(
    alloc: Global,
    names: &mut Vec<Named>,
    space: Space,
    at: u32,
    name: &Name,
    units: usize,
) -> Result<(), AllocError>
    ensures { OnOk result (names.new.items ≡ names.old.items ++ head_in space at name.now units) }
{
    match space {
        Space::Types => push_named(alloc, names, at, name),
        Space::Records => push_taking(alloc, names, at, name, units),
        Space::Measures | Space::Fields | Space::Functions => Ok(()),
    }
}

/// Adds the fields of a record.
fn push_fields_in(
    alloc: Global,
    names: &mut Vec<Named>,
    space: Space,
    fields: &[RawFieldDecl],
) -> Result<(), AllocError>
    ensures { OnOk result (names.new.items
        ≡ names.old.items ++ fields_in space (map field_decl_syntax fields.now)) }
{
    match space {
        Space::Fields => push_fields(alloc, names, fields),
        Space::Types | Space::Measures | Space::Records | Space::Functions => Ok(()),
    }
}

fn push_itself(
    alloc: Global,
    names: &mut Vec<Named>,
    function: &RawFunction,
) -> Result<(), AllocError>
    ensures { OnOk result (names.new.items
        ≡ names.old.items ++ function_named (whole_function_syntax function.now) ∷ []) }
{
    push_taking(
        alloc,
        names,
        function.at,
        &function.name,
        function.params.items.len(),
    )
}

/// Adds a function.
fn push_function(
    alloc: Global,
    names: &mut Vec<Named>,
    space: Space,
    function: &RawFunction,
) -> Result<(), AllocError>
    ensures { OnOk result (names.new.items
        ≡ names.old.items ++ function_in space (whole_function_syntax function.now)) }
{
    match space {
        Space::Functions => push_itself(alloc, names, function),
        Space::Types | Space::Measures | Space::Records | Space::Fields => Ok(()),
    }
}

/// Adds what a declaration declares in a space.
fn push_declared_in(
    alloc: Global,
    names: &mut Vec<Named>,
    space: Space,
    decl: &RawDecl,
) -> Result<(), AllocError>
    ensures { OnOk result (names.new.items ≡ names.old.items ++ declared_in space (decl_syntax decl.now)) }
{
    match decl {
        RawDecl::Base(at, name) | RawDecl::Short(at, name, _) => {
            push_measure(alloc, names, space, *at, name)
        }
        RawDecl::Record(at, name, units, fields) => {
            push_head(alloc, names, space, *at, name, units.items.len())?;
            push_fields_in(alloc, names, space, &fields.items)
        }
        RawDecl::Function(function) => push_function(alloc, names, space, function),
    }
}

/// Adds what declarations declare in a space, in order.
pub(crate) fn push_declared(
    alloc: Global,
    names: &mut Vec<Named>,
    space: Space,
    decls: &[RawDecl],
) -> Result<(), AllocError>
    ensures { OnOk result (names.new.items ≡ names.old.items ++ declared space (map decl_syntax decls.now)) }
{
    for decl in decls {
        push_declared_in(alloc, names, space, decl)?;
    }
    Ok(())
}

/// What declarations declare in a space, in order.
pub(crate) fn declared(
    alloc: Global,
    space: Space,
    decls: &[RawDecl],
) -> Result<Vec<Named>, AllocError>
    ensures { IfOk result (λ names. names.items ≡ declared space (map decl_syntax decls.now)) }
{
    let mut names = Vec::new(alloc);
    push_declared(alloc, &mut names, space, decls)?;
    Ok(names)
}

/// The fields of a declaration.
fn fields_of(alloc: Global, decl: &RawDecl) -> Result<Vec<Named>, AllocError>
    ensures { IfOk result (λ names. names.items ≡ declared_in Fields (decl_syntax decl.now)) }
{
    let mut names = Vec::new(alloc);
    push_declared_in(alloc, &mut names, Space::Fields, decl)?;
    Ok(names)
}

/// The fields of the first record that has a field of the name.
pub(crate) fn fields_with(
    alloc: Global,
    decls: &[RawDecl],
    name: &Name,
) -> Result<Vec<Named>, AllocError>
    ensures { IfOk result (λ names. names.items ≡ fields_with (map decl_syntax decls.now) name.now) }
{
    for decl in decls {
        let fields = fields_of(alloc, decl)?;
        if is_named(&fields, name) {
            return Ok(fields);
        }
        drop(fields);
    }
    Ok(Vec::new(alloc))
}

/// Adds the functions before a function, and the function itself if it is `rec`.
pub(crate) fn push_callable(
    alloc: Global,
    names: &mut Vec<Named>,
    before: &[RawDecl],
    function: &RawFunction,
) -> Result<(), AllocError>
    ensures { OnOk result (names.new.items
        ≡ names.old.items ++ callable (map decl_syntax before.now) (whole_function_syntax function.now)) }
{
    push_declared(alloc, names, Space::Functions, before)?;
    if !function.recursive {
        return Ok(());
    }
    push_itself(alloc, names, function)
}
