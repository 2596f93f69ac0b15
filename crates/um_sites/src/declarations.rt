//! Declarations.

ghost use Rattle.std.specs.Prelude.{◌≡◌, ◌++◌, [], IfOk, OnOk, map};
ghost use Rattle.std.specs.List.{flat_map};
ghost use Rattle.um_tree.specs.RawTree.{decl_syntax, var_syntax, field_decl_syntax, param_syntax, unit_syntax};
ghost use Rattle.um_tree.specs.RawTree.{whole_function_syntax, record_decl_syntax, short_syntax, program_syntax};
ghost use Rattle.um_sites.specs.Spaces.{parameter_named};
ghost use Rattle.um_sites.specs.Sites.{told_each, variable_after, field_told, parameter_told, function_told, decl_told};
ghost use Rattle.um_sites.specs.Sites.{expr_told};
ghost use Rattle.um_sites.specs.Sites.{range_told, program_told};

use crate::detail::{NameDetail, NameDetails};
use crate::expr::{Body, expr};
use crate::fault::is_range;
use crate::sites::{Asked, tell_declared, tell_field, tell_parameter, tell_unit_parameter};
use crate::spaces::{Space, push_parameters};
use crate::types::{closed_unit, free_type, result_type, type_text};
use std::alloc::{AllocError, Global};
use um_measures::NameStop;
use um_tree::{Name, RawDecl, RawFieldDecl, RawFunction, RawParam, RawProgram, RawUnit, RawVar};

/// The unit parameters of a record or a function.
fn unit_parameters(
    told: &mut Vec<NameDetail>,
    asked: &Asked,
    variables: &[RawVar],
) -> Result<(), AllocError>
    ensures { OnOk result (told.new.items ≡ told.old.items
        ++ told_each (variable_after asked.now.fault) [] (map var_syntax variables.now)) }
{
    for i in 0..variables.len() {
        let variable = &variables[i];
        tell_unit_parameter(told, asked, &variables[..i], variable.at, &variable.name)?;
    }
    Ok(())
}

/// A field of a record with these unit parameters, after others.
fn field(
    told: &mut Vec<NameDetail>,
    asked: &Asked,
    units: &[RawVar],
    before: &[RawFieldDecl],
    field: &RawFieldDecl,
) -> Result<(), AllocError>
    ensures { OnOk result (told.new.items ≡ told.old.items ++ field_told asked.now.fault
        (map decl_syntax asked.now.before.now) (map var_syntax units.now) (map field_decl_syntax before.now)
        (field_decl_syntax field.now)) }
{
    tell_field(told, asked, before, field.at, &field.name)?;
    type_text(told, asked, false, units, &field.ty)
}

/// The fields of a record with these unit parameters.
fn fields(
    told: &mut Vec<NameDetail>,
    asked: &Asked,
    units: &[RawVar],
    fields: &[RawFieldDecl],
) -> Result<(), AllocError>
    ensures { OnOk result (told.new.items ≡ told.old.items ++ told_each (field_told asked.now.fault
        (map decl_syntax asked.now.before.now) (map var_syntax units.now)) [] (map field_decl_syntax fields.now)) }
{
    for i in 0..fields.len() {
        field(told, asked, units, &fields[..i], &fields[i])?;
    }
    Ok(())
}

/// A record: its name, its unit parameters, its fields.
fn record_decl(
    told: &mut Vec<NameDetail>,
    asked: &Asked,
    at: u32,
    name: &Name,
    units: &[RawVar],
    all: &[RawFieldDecl],
) -> Result<(), AllocError>
    ensures { OnOk result (told.new.items ≡ told.old.items ++ decl_told asked.now.fault
        (map decl_syntax asked.now.before.now)
        (record_decl_syntax at name.now (map var_syntax units.now) (map field_decl_syntax all.now))) }
{
    tell_declared(told, asked, Space::Types, at, name)?;
    unit_parameters(told, asked, units)?;
    fields(told, asked, units, all)
}

/// A parameter after others.
fn parameter(
    told: &mut Vec<NameDetail>,
    asked: &Asked,
    before: &[RawParam],
    parameter: &RawParam,
) -> Result<(), AllocError>
    ensures { OnOk result (told.new.items ≡ told.old.items ++ parameter_told asked.now.fault
        (map decl_syntax asked.now.before.now) (map param_syntax before.now) (param_syntax parameter.now)) }
{
    tell_parameter(told, asked, before, &parameter.binder)?;
    free_type(told, asked, &parameter.ty)
}

/// The parameters of a function.
fn parameters(
    told: &mut Vec<NameDetail>,
    asked: &Asked,
    parameters: &[RawParam],
) -> Result<(), AllocError>
    ensures { OnOk result (told.new.items ≡ told.old.items ++ told_each (parameter_told asked.now.fault
        (map decl_syntax asked.now.before.now)) [] (map param_syntax parameters.now)) }
{
    for i in 0..parameters.len() {
        parameter(told, asked, &parameters[..i], &parameters[i])?;
    }
    Ok(())
}

/// The body of a function, with its parameters in scope.
fn body(told: &mut Vec<NameDetail>, asked: &Asked, function: &RawFunction) -> Result<(), AllocError>
    ensures { OnOk result (told.new.items ≡ told.old.items ++ expr_told asked.now.fault
        (map decl_syntax asked.now.before.now) (whole_function_syntax function.now)
        (flat_map parameter_named (whole_function_syntax function.now).params)
        (whole_function_syntax function.now).body) }
{
    let mut scope = Vec::new(asked.alloc);
    push_parameters(asked.alloc, &mut scope, &function.params.items)?;
    expr(told, &Body { asked, function }, &mut scope, &function.body)
}

/// A function: its name, its unit parameters, its parameters, its result, its body.
fn function(
    told: &mut Vec<NameDetail>,
    asked: &Asked,
    function: &RawFunction,
) -> Result<(), AllocError>
    ensures { OnOk result (told.new.items ≡ told.old.items ++ function_told asked.now.fault
        (map decl_syntax asked.now.before.now) (whole_function_syntax function.now)) }
{
    tell_declared(told, asked, Space::Functions, function.at, &function.name)?;
    unit_parameters(told, asked, &function.units.items)?;
    parameters(told, asked, &function.params.items)?;
    result_type(told, asked, &function.result)?;
    body(told, asked, function)
}

/// An abbreviation.
fn short(
    told: &mut Vec<NameDetail>,
    asked: &Asked,
    at: u32,
    name: &Name,
    unit: &RawUnit,
) -> Result<(), AllocError>
    ensures { OnOk result (told.new.items ≡ told.old.items ++ decl_told asked.now.fault
        (map decl_syntax asked.now.before.now) (short_syntax at name.now (unit_syntax unit.now))) }
{
    tell_declared(told, asked, Space::Types, at, name)?;
    closed_unit(told, asked, unit)
}

/// A declaration after those before it.
fn declaration(told: &mut Vec<NameDetail>, asked: &Asked, decl: &RawDecl) -> Result<(), AllocError>
    ensures { OnOk result (told.new.items ≡ told.old.items ++ decl_told asked.now.fault
        (map decl_syntax asked.now.before.now) (decl_syntax decl.now)) }
{
    match decl {
        RawDecl::Base(at, name) => tell_declared(told, asked, Space::Types, *at, name),
        RawDecl::Short(at, name, unit) => short(told, asked, *at, name, unit),
        RawDecl::Record(at, name, units, all) => {
            record_decl(told, asked, *at, name, &units.items, &all.items)
        }
        RawDecl::Function(all) => function(told, asked, all),
    }
}

/// The declarations, one after another.
fn declarations(
    alloc: Global,
    told: &mut Vec<NameDetail>,
    fault: NameStop,
    decls: &[RawDecl],
) -> Result<(), AllocError>
    ensures { OnOk result (told.new.items ≡ told.old.items
        ++ told_each (decl_told fault) [] (map decl_syntax decls.now)) }
{
    for i in 0..decls.len() {
        let asked = Asked {
            alloc,
            fault,
            before: &decls[..i],
        };
        declaration(told, &asked, &decls[i])?;
    }
    Ok(())
}

fn push_range(told: &mut Vec<NameDetail>, fault: NameStop) -> Result<(), AllocError>
    ensures { OnOk result (told.new.items ≡ told.old.items ++ range_told fault) }
{
    if is_range(fault) {
        told.push(NameDetail::Powers)?;
    }
    Ok(())
}

/// What is told of a fault of a name, of the program as it is written.
///
/// `fault` is the refusal of [`um_names::resolve`], whose place tells at which name of the tree it stands; of a fault
/// for which the tree has no name nothing is told. It takes time linear in the text. Spaces of names and their order
/// are the F# specification's, Name Resolution. Fails for want of memory alone.
pub fn name_details(
    alloc: Global,
    raw: &RawProgram,
    fault: NameStop,
) -> Result<NameDetails, AllocError>
    ensures told { IfOk result (λ details. details ≡ program_told fault (program_syntax raw.now)) }
{
    let mut told = Vec::new(alloc);
    push_range(&mut told, fault)?;
    declarations(alloc, &mut told, fault, &raw.items)?;
    Ok(NameDetails::from_vec(told))
}
