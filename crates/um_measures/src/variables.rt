//! The unit variables of a function, numbered after its unit parameters by their first occurrence in its notes.

ghost use Rattle.std.specs.Prelude.{◌≡◌, [], OnOk, IfOk, map};
ghost use Rattle.std.specs.List.{flat_map};
ghost use Rattle.um_tree.specs.RawTree.{unit_syntax, units_in_order, note_syntax, written_note, type_syntax};
ghost use Rattle.um_tree.specs.RawTree.{written_type, expr_syntax, exprs_in_order, field_part, fields_in_order};
ghost use Rattle.um_tree.specs.RawTree.{param_syntax, whole_function_syntax};
ghost use Rattle.um_measures.specs.Variables.{unit_variables, all_unit_variables, note_variables, number_variables};
ghost use Rattle.um_measures.specs.Variables.{type_variables, expr_variables, exprs_variables, fields_variables};
ghost use Rattle.um_measures.specs.Variables.{result_variables, first_occurrences, head_variables, named_variables};

use crate::table::NameTable;
use std::alloc::{AllocError, Global};
use um_tree::{RawExpr, RawField, RawFunction, RawNode, RawNote, RawParam, RawType, RawUnit};

#[cycle(unit_variables)]
#[tactic(auto, using(crate::proofs::Occurrences::both_occur, crate::proofs::Occurrences::occurrences_append))]
fn in_unit(names: &mut NameTable, alloc: Global, raw: &RawUnit) -> Result<(), AllocError>
    ensures { OnOk result (names.new ≡ first_occurrences names.old (unit_variables (unit_syntax raw.now))) }
{
    match raw {
        RawUnit::One(_) | RawUnit::Name(_, _) => Ok(()),
        RawUnit::Var(_, name) => names.add(alloc, name.as_slice()),
        RawUnit::Power(u, _) | RawUnit::Inverse(_, u) | RawUnit::Bracket(_, u) => {
            in_unit(names, alloc, u)
        }
        RawUnit::Side(units) => in_units(names, alloc, &units.items),
        RawUnit::Times(u, v) | RawUnit::Over(u, v) => {
            in_unit(names, alloc, u)?;
            in_unit(names, alloc, v)?;
            Ok(())
        }
    }
}

#[cycle(unit_variables)]
#[tactic(auto, using(crate::proofs::Occurrences::both_occur, crate::proofs::Occurrences::occurrences_append))]
fn in_units(names: &mut NameTable, alloc: Global, units: &[RawUnit]) -> Result<(), AllocError>
    ensures { OnOk result (names.new ≡ first_occurrences names.old
        (all_unit_variables (units_in_order (map unit_syntax units.now)))) }
{
    for i in 0..units.len() {
        in_unit(names, alloc, &units[i])?;
    }
    Ok(())
}

fn in_note(names: &mut NameTable, alloc: Global, raw: &RawNote) -> Result<(), AllocError>
    ensures { OnOk result (names.new ≡ first_occurrences names.old (note_variables (note_syntax raw.now))) }
{
    match raw {
        RawNote::Hole(_) => Ok(()),
        RawNote::Unit(_, unit) => in_unit(names, alloc, unit),
    }
}

#[tactic(auto, using(crate::proofs::Occurrences::both_occur, crate::proofs::Occurrences::occurrences_append))]
fn in_notes(names: &mut NameTable, alloc: Global, raw: &[RawNote]) -> Result<(), AllocError>
    ensures { OnOk result (names.new ≡ first_occurrences names.old
        (flat_map note_variables (map note_syntax raw.now))) }
{
    for note in raw {
        in_note(names, alloc, note)?;
    }
    Ok(())
}

/// Adds the unit variables of a type text after those that are there, each once, in the order of their first
/// occurrence.
pub fn add_type_variables(
    names: &mut NameTable,
    alloc: Global,
    raw: &RawType,
) -> Result<(), AllocError>
    ensures { OnOk result (names.new ≡ first_occurrences names.old (type_variables (type_syntax raw.now))) }
{
    match raw {
        RawType::Bool | RawType::Num(None) => Ok(()),
        RawType::Num(Some(note)) => in_note(names, alloc, note),
        RawType::Name(_, _, units) => in_notes(names, alloc, &units.items),
        RawType::List(inner) | RawType::Bracket(inner) => add_type_variables(names, alloc, inner),
    }
}

#[cycle(expr_variables)]
#[tactic(auto, using(crate::proofs::Occurrences::both_occur, crate::proofs::Occurrences::occurrences_append))]
fn in_expr(names: &mut NameTable, alloc: Global, e: &RawExpr) -> Result<(), AllocError>
    ensures { OnOk result (names.new ≡ first_occurrences names.old (expr_variables (expr_syntax e.now))) }
{
    match &e.node {
        RawNode::Bool(_) | RawNode::Num(_, _) | RawNode::Name(_) => Ok(()),
        RawNode::Nil(ty) => add_type_variables(names, alloc, ty),
        RawNode::Call(_, items) | RawNode::List(items) => in_exprs(names, alloc, &items.items),
        RawNode::Rec(fields) => in_fields(names, alloc, &fields.items),
        RawNode::Neg(a)
        | RawNode::Not(a)
        | RawNode::Pow(a, _)
        | RawNode::Field(_, _, a)
        | RawNode::Bracket(a) => in_expr(names, alloc, a),
        RawNode::Arith(_, a, b)
        | RawNode::Compare(_, a, b)
        | RawNode::And(a, b)
        | RawNode::Or(a, b)
        | RawNode::Let(_, a, b)
        | RawNode::Cons(a, b) => {
            in_expr(names, alloc, a)?;
            in_expr(names, alloc, b)?;
            Ok(())
        }
        RawNode::If(a, b, c) | RawNode::Match(a, b, _, _, c) => {
            in_expr(names, alloc, a)?;
            in_expr(names, alloc, b)?;
            in_expr(names, alloc, c)?;
            Ok(())
        }
    }
}

#[cycle(expr_variables)]
#[tactic(auto, using(crate::proofs::Occurrences::both_occur, crate::proofs::Occurrences::occurrences_append))]
fn in_exprs(names: &mut NameTable, alloc: Global, items: &[RawExpr]) -> Result<(), AllocError>
    ensures { OnOk result (names.new ≡ first_occurrences names.old
        (exprs_variables (exprs_in_order (map expr_syntax items.now)))) }
{
    for i in 0..items.len() {
        in_expr(names, alloc, &items[i])?;
    }
    Ok(())
}

#[cycle(expr_variables)]
#[tactic(auto, using(crate::proofs::Occurrences::both_occur, crate::proofs::Occurrences::occurrences_append))]
fn in_fields(names: &mut NameTable, alloc: Global, fields: &[RawField]) -> Result<(), AllocError>
    ensures { OnOk result (names.new ≡ first_occurrences names.old
        (fields_variables (fields_in_order (map field_part fields.now)))) }
{
    for i in 0..fields.len() {
        in_field(names, alloc, &fields[i])?;
    }
    Ok(())
}

#[cycle(expr_variables)]
#[tactic(auto, using(crate::proofs::Occurrences::both_occur, crate::proofs::Occurrences::occurrences_append))]
fn in_field(names: &mut NameTable, alloc: Global, field: &RawField) -> Result<(), AllocError>
    ensures { OnOk result (names.new ≡ first_occurrences names.old (expr_variables (field_part field.now).part)) }
{
    in_expr(names, alloc, &field.value)
}

#[tactic(auto, using(crate::proofs::Occurrences::both_occur, crate::proofs::Occurrences::occurrences_append))]
fn in_params(names: &mut NameTable, alloc: Global, params: &[RawParam]) -> Result<(), AllocError>
    ensures { OnOk result (names.new ≡ first_occurrences names.old
        (flat_map (λ p. type_variables p.type) (map param_syntax params.now))) }
{
    for param in params {
        add_type_variables(names, alloc, &param.ty)?;
    }
    Ok(())
}

/// The named unit variables of a function's head, in the order of their numbers: its unit parameters, and after them
/// each other one that its parameters and its result name, once, by its first occurrence. They are all variables of a
/// function whose body names none. Fails for want of memory alone, or if there are 2^32 - 1 names.
#[tactic(auto, using(crate::proofs::Occurrences::both_occur))]
pub fn head_variables(
    alloc: Global,
    unit_params: NameTable,
    function: &RawFunction,
) -> Result<NameTable, AllocError>
    ensures { IfOk result (λ names. names ≡ head_variables unit_params (whole_function_syntax function.now)) }
{
    let mut names = unit_params;
    in_params(&mut names, alloc, &function.params.items)?;
    if let Some(ty) = &function.result {
        add_type_variables(&mut names, alloc, ty)?;
    }
    Ok(names)
}

/// The named unit variables of a function, in the order of their numbers: its unit parameters, and after them each
/// other one that its notes name, once, by its first occurrence in the parameters, the result and the body. A number's
/// unit is no note of the function. Fails for want of memory alone, or where there are 2^32 - 1 names. Unit parameters
/// of functions are the F# specification's, Units Of Measure.
#[tactic(auto, using(crate::proofs::Occurrences::both_occur))]
pub fn named_variables(
    alloc: Global,
    unit_params: NameTable,
    function: &RawFunction,
) -> Result<NameTable, AllocError>
    ensures { IfOk result (λ names. names ≡ named_variables unit_params (whole_function_syntax function.now)) }
{
    let mut names = head_variables(alloc, unit_params, function)?;
    in_expr(&mut names, alloc, &function.body)?;
    Ok(names)
}
