//! The texts of types.
ghost use Rattle.std.specs.Prelude.{◌≡◌, ◌++◌, IfOk, OnOk};
ghost use Rattle.um_tree.specs.TypeTree.{type_tree};
ghost use Rattle.um_tree.specs.ProgramTree.{program_tree};
ghost use Rattle.um_show.specs.UnitText.{variable_by, named_unit_text};
ghost use Rattle.um_show.specs.SchemeText.{type_text, named_type_text, num_text, record_name, units_text};

use crate::printed_unit::{Texts, Variables, push_named_unit};
use std::alloc::{AllocError, Global};
use um_tree::{Program, Record, Ty};
use um_units::{NoMemory, Unit};

/// The text of a type over the base units and records of the program: `bool`, `num` with its unit where that isn't 1,
/// the item's type and `list`, a record's name with its units in angle brackets.
///
/// `NoMemory` is its one error. The form is this project's own.
pub fn type_text(alloc: Global, ty: &Ty, program: &Program) -> Result<Vec<u8>, NoMemory>
    ensures { IfOk result (λ text. text.items ≡ type_text (program_tree program.now) (type_tree ty.now)) }
{
    let mut text = Vec::new(alloc);
    push_type(alloc, &mut text, program, ty)?;
    Ok(text)
}

/// Adds the text of a type as `type_text` gives it, with the variables printed as they are told to be.
///
/// `NoMemory` is its one error. The form is this project's own.
pub fn push_named_type(
    alloc: Global,
    text: &mut Vec<u8>,
    program: &Program,
    variables: Variables,
    ty: &Ty,
) -> Result<(), NoMemory>
    ensures { OnOk result (text.new.items ≡ text.old.items
        ++ named_type_text (variable_by variables.entry) (program_tree program.now) (type_tree ty.now)) }
{
    let texts = Texts {
        bases: program.bases.as_slice(),
        variables,
    };
    push_type_by(alloc, text, program, &texts, ty)
}

/// Adds the text of a type.
pub(crate) fn push_type(
    alloc: Global,
    text: &mut Vec<u8>,
    program: &Program,
    ty: &Ty,
) -> Result<(), AllocError>
    ensures { OnOk result (text.new.items ≡ text.old.items ++ type_text (program_tree program.now) (type_tree ty.now)) }
{
    push_named_type(alloc, text, program, Variables::Letters, ty)
}

/// Adds the text of a type over the base units of the program.
fn push_type_by(
    alloc: Global,
    text: &mut Vec<u8>,
    program: &Program,
    texts: &Texts,
    ty: &Ty,
) -> Result<(), AllocError>
    requires { texts.now.bases.now ≡ (program_tree program.now).bases }
    ensures { OnOk result (text.new.items ≡ text.old.items
        ++ named_type_text (variable_by texts.now.variables) (program_tree program.now) (type_tree ty.now)) }
{
    match ty {
        Ty::Bool => text.extend_from_slice(b"bool"),
        Ty::Num(unit) => push_num(alloc, text, texts, unit),
        Ty::List(item) => {
            push_type_by(alloc, text, program, texts, item)?;
            text.extend_from_slice(b" list")
        }
        Ty::Rec(record, units) => {
            push_record_name(text, program, *record)?;
            push_units(alloc, text, texts, units.as_slice())
        }
    }
}

/// Adds the text of the number type of a unit.
fn push_num(alloc: Global, text: &mut Vec<u8>, texts: &Texts, unit: &Unit) -> Result<(), AllocError>
    ensures { OnOk result (text.new.items ≡ text.old.items
        ++ num_text (named_unit_text (variable_by texts.now.variables) texts.now.bases.now unit.now) unit.now.terms) }
{
    if unit.terms().is_empty() {
        return text.extend_from_slice(b"num");
    }
    text.extend_from_slice(b"num<")?;
    push_named_unit(alloc, text, texts, unit)?;
    text.push(b'>')?;
    Ok(())
}

/// Adds the name of the record of this number.
fn push_record_name(text: &mut Vec<u8>, program: &Program, number: u32) -> Result<(), AllocError>
    ensures { OnOk result (text.new.items ≡ text.old.items ++ record_name (program_tree program.now) number) }
{
    let records: &[Record] = &program.records.items;
    match records.get(number as usize) {
        Some(declared) => text.extend_from_slice(declared.name.as_slice()),
        None => Ok(()),
    }
}

/// Adds the units of a record type, in angle brackets where there are any.
fn push_units(
    alloc: Global,
    text: &mut Vec<u8>,
    texts: &Texts,
    units: &[Unit],
) -> Result<(), AllocError>
    ensures { OnOk result (text.new.items ≡ text.old.items
        ++ units_text (variable_by texts.now.variables) texts.now.bases.now units.now) }
{
    let Some((first, rest)) = units.split_first() else {
        return Ok(());
    };
    text.push(b'<')?;
    push_named_unit(alloc, text, texts, first)?;
    for unit in rest {
        text.extend_from_slice(b", ")?;
        push_named_unit(alloc, text, texts, unit)?;
    }
    text.push(b'>')?;
    Ok(())
}
