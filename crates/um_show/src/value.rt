//! The texts of values.
ghost use Rattle.std.specs.Prelude.{◌≡◌, ◌++◌, ◌&&◌, [], List, IfOk, OnOk, map, slice_get, codes, true};
ghost use Rattle.um_units.specs.PowerMap.{PowerMap, nth};
ghost use Rattle.um_units.specs.Range.{RangeUnless};
ghost use Rattle.um_tree.specs.TypeTree.{type_tree, bool_type};
ghost use Rattle.um_tree.specs.ProgramTree.{field_tree, program_tree};
ghost use Rattle.um_tree.specs.Typing.{put};
ghost use Rattle.um_tree.specs.ValueTree.{value_tree, values_in_order};
ghost use Rattle.um_elim.specs.Application.{type_fits};
ghost use Rattle.um_show.specs.Lists.{gap_before};
ghost use Rattle.um_show.specs.ValueText.{separator, item_in, units_in, field_at, fields_in, truth_text, value_text};
ghost use Rattle.um_show.specs.ValueText.{text_by, items_by, fields_by, parts_fit, items_fit, fields_fit};

use crate::printer::{Exact, ValuePrinter};
use crate::text::{push_gap, push_name};
use std::alloc::{AllocError, Global};
use um_elim::put_in_type;
use um_frac::Frac;
use um_tree::{FieldDecl, Name, Program, Ty, Value};
use um_units::{Unit, UnitStop};

/// The text of a value at a type: `true`, `false`; a number, and directly after it its unit in angle brackets, nothing
/// at the unit 1, `<_>` at a unit with a variable; `[A; B]`; `{ f = A; g = B }`, the fields in the order of
/// declaration.
///
/// The value has the type's shape, over the records of the program. Range comes exactly where the type of a field of a
/// part, with the record's units put in, has a power outside -2147483647..2147483647. The form is this project's own.
pub fn value_text(
    alloc: Global,
    value: &Value,
    ty: &Ty,
    program: &Program,
) -> Result<Vec<u8>, UnitStop>
    ensures exact { IfOk result (λ text. text.items ≡ value_text (program_tree program.now) (value_tree value.now)
        (type_tree ty.now)) }
    ensures range { RangeUnless result (parts_fit (program_tree program.now) (value_tree value.now)
        (type_tree ty.now)) }
{
    text_by(alloc, &Exact { program }, value, ty)
}

/// The text of a value at a type with its numbers as the printer prints them, and else the text that [`value_text`]
/// gives.
///
/// The value has the type's shape, over the records of the printer's program. Range comes exactly if the type of a
/// field of a part, with the record's units put in, has a power outside -2147483647..2147483647. The form is this
/// project's own.
pub fn text_by<P: ValuePrinter>(
    alloc: Global,
    printer: &P,
    value: &Value,
    ty: &Ty,
) -> Result<Vec<u8>, UnitStop>
    ensures exact { IfOk result (λ text. text.items
        ≡ text_by (P.number printer.now) (P.tree printer.now) (value_tree value.now) (type_tree ty.now)) }
    ensures range { RangeUnless result (parts_fit (P.tree printer.now) (value_tree value.now) (type_tree ty.now)) }
{
    let mut text = Vec::new(alloc);
    push_value(alloc, &mut text, printer, value, ty)?;
    Ok(text)
}

/// Adds the text of a value at a type.
#[cycle(push_value)]
fn push_value<P: ValuePrinter>(
    alloc: Global,
    text: &mut Vec<u8>,
    printer: &P,
    value: &Value,
    ty: &Ty,
) -> Result<(), UnitStop>
    ensures exact { OnOk result (text.new.items ≡ text.old.items
        ++ text_by (P.number printer.now) (P.tree printer.now) (value_tree value.now) (type_tree ty.now)) }
    ensures range { RangeUnless result (parts_fit (P.tree printer.now) (value_tree value.now) (type_tree ty.now)) }
{
    match value {
        Value::Bool(b) => push_truth(text, *b),
        Value::Num(c) => push_number(alloc, text, printer, *c, ty),
        Value::List(values) => {
            text.push(b'[')?;
            let truth = Ty::Bool;
            let pushed = push_items(alloc, text, printer, &values.items, item_of(ty, &truth));
            drop(truth);
            pushed?;
            push_bytes(text, b"]")
        }
        Value::Rec(r, values) => {
            let fields = fields_of(printer, *r);
            text.extend_from_slice(b"{ ")?;
            push_fields(alloc, text, printer, &values.items, fields, units_of(ty))?;
            push_bytes(text, b" }")
        }
    }
}

/// Adds the texts of values of this type, `; ` between each two.
#[cycle(push_value)]
fn push_items<P: ValuePrinter>(
    alloc: Global,
    text: &mut Vec<u8>,
    printer: &P,
    values: &[Value],
    ty: &Ty,
) -> Result<(), UnitStop>
    ensures exact { OnOk result (text.new.items ≡ text.old.items
        ++ items_by (P.number printer.now) (P.tree printer.now) [] (values_in_order (map value_tree values.now))
        (type_tree ty.now)) }
    ensures range { RangeUnless result (items_fit (P.tree printer.now)
        (values_in_order (map value_tree values.now)) (type_tree ty.now)) }
{
    for i in 0..values.len() {
        push_gap(text, i, b"; ")?;
        push_value(alloc, text, printer, &values[i], ty)?;
    }
    Ok(())
}

/// Adds the texts of fields with their names, `; ` between each two.
#[cycle(push_value)]
fn push_fields<P: ValuePrinter>(
    alloc: Global,
    text: &mut Vec<u8>,
    printer: &P,
    values: &[Value],
    fields: &[FieldDecl],
    units: &[Unit],
) -> Result<(), UnitStop>
    ensures exact { OnOk result (text.new.items ≡ text.old.items
        ++ fields_by (P.number printer.now) (P.tree printer.now) [] (values_in_order (map value_tree values.now))
        (map (field_at units.now) (map field_tree fields.now))) }
    ensures range { RangeUnless result (fields_fit (P.tree printer.now)
        (values_in_order (map value_tree values.now)) (map (field_at units.now) (map field_tree fields.now))) }
{
    for i in 0..values.len() {
        let Some(field) = fields.get(i) else {
            return Ok(());
        };
        push_field_name(text, i, &field.name)?;
        push_part(alloc, text, printer, &values[i], &field.ty, units)?;
    }
    Ok(())
}

/// Adds the text of a field's value, whose type has these units put in.
#[cycle(push_value)]
fn push_part<P: ValuePrinter>(
    alloc: Global,
    text: &mut Vec<u8>,
    printer: &P,
    value: &Value,
    declared: &Ty,
    units: &[Unit],
) -> Result<(), UnitStop>
    ensures exact { OnOk result (text.new.items ≡ text.old.items
        ++ text_by (P.number printer.now) (P.tree printer.now) (value_tree value.now)
        (put (nth units.now) (type_tree declared.now))) }
    ensures range { RangeUnless result (type_fits (put (nth units.now) (type_tree declared.now))
        && parts_fit (P.tree printer.now) (value_tree value.now) (put (nth units.now) (type_tree declared.now))) }
{
    let ty = put_in_type(alloc, units, declared)?;
    let done = push_value(alloc, text, printer, value, &ty);
    drop(ty);
    done
}

/// Adds a number at a type.
fn push_number<P: ValuePrinter>(
    alloc: Global,
    text: &mut Vec<u8>,
    printer: &P,
    c: Frac,
    ty: &Ty,
) -> Result<(), UnitStop>
    ensures exact { OnOk result (text.new.items ≡ text.old.items ++ P.number printer.now c (type_tree ty.now)) }
    ensures range { RangeUnless result true }
{
    Ok(printer.push_number(alloc, text, c, ty)?)
}

fn push_truth(text: &mut Vec<u8>, b: bool) -> Result<(), UnitStop>
    ensures exact { OnOk result (text.new.items ≡ text.old.items ++ truth_text b) }
    ensures range { RangeUnless result true }
{
    match b {
        true => push_bytes(text, b"true"),
        false => push_bytes(text, b"false"),
    }
}

fn push_bytes(text: &mut Vec<u8>, bytes: &[u8]) -> Result<(), UnitStop>
    ensures exact { OnOk result (text.new.items ≡ text.old.items ++ bytes.now) }
    ensures range { RangeUnless result true }
{
    Ok(text.extend_from_slice(bytes)?)
}

/// Adds what stands before the value of the field of this index: the separator, the name and the sign.
fn push_field_name(text: &mut Vec<u8>, i: usize, name: &Name) -> Result<(), AllocError>
    ensures { OnOk result (text.new.items
        ≡ text.old.items ++ (gap_before i separator ++ name.now ++ codes " = ")) }
{
    push_gap(text, i, b"; ")?;
    push_name(text, name)?;
    text.extend_from_slice(b" = ")
}

/// The type of a list's items.
fn item_of<'a>(ty: &'a Ty, truth: &'a Ty) -> &'a Ty
    requires { type_tree truth.now ≡ bool_type }
    ensures { type_tree result.now ≡ item_in (type_tree ty.now) }
{
    match ty {
        Ty::List(item) => item,
        Ty::Bool | Ty::Num(_) | Ty::Rec(_, _) => truth,
    }
}

/// The units of a record type.
fn units_of(ty: &Ty) -> &[Unit]
    ensures { result.now ≡ units_in (type_tree ty.now) }
{
    match ty {
        Ty::Rec(_, units) => units.as_slice(),
        Ty::Bool | Ty::Num(_) | Ty::List(_) => &[],
    }
}

/// The fields of the record of this number.
fn fields_of<P: ValuePrinter>(printer: &P, r: u32) -> &[FieldDecl]
    ensures { (us : List PowerMap) → map (field_at us) (map field_tree result.now)
        ≡ fields_in (slice_get (P.tree printer.now).records r) us }
{
    match printer.program().records.items.get(r as usize) {
        Some(declared) => &declared.fields.items,
        None => &[],
    }
}
