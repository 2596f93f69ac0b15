//! What single nodes of expression texts name: units, variables, functions, fields and types.

ghost use Rattle.std.specs.Prelude.{◌≡◌, Ok, IfOk, IfErr, map};
ghost use Rattle.um_tree.specs.ExprTree.{expr_tree};
ghost use Rattle.um_tree.specs.RawTree.{written_note, type_syntax, expr_syntax, exprs_in_order, field_part};
ghost use Rattle.um_tree.specs.RawTree.{fields_in_order};
ghost use Rattle.um_measures.specs.Scopes.{same_binding, local_of};
ghost use Rattle.um_measures.specs.Faults.{unless_taken};
ghost use Rattle.um_measures.specs.Stops.{IsFirst};
ghost use Rattle.um_names.specs.ExprNames.{resolved_literal, resolved_nil, resolved_fields, known_fields, found_field};
ghost use Rattle.um_names.specs.ExprNames.{field_of, length_of, named, called};
ghost use Rattle.um_names.specs.Bodies.{callables_of};
ghost use Rattle.um_names.specs.Tables.{AreTables, known_of};

use crate::callable::{Callable, FieldNumber};
use crate::known::Tables;
use crate::types::note;
use std::alloc::Global;
use um_frac::Frac;
use um_measures::{NameStop, NameTable, Scope, same_binding};
use um_tree::{Binder, Expr, Exprs, Name, Node, RawExpr, RawField, RawNote, RawType, UnitNote};
use um_units::Unit;
use um_wildcards::open_unit;

/// What is known in the body of a function beside the declarations before it: the unit variables of its notes, and
/// the function itself where it is `rec`.
#[derive(Drop)]
pub(crate) struct Body {
    pub variables: NameTable,
    pub own: Option<Callable>,
}

/// A number with its unit: the wildcard stands on 0 alone, and a written unit is closed.
pub(crate) fn literal(
    alloc: Global,
    tables: &Tables,
    at: u32,
    number: Frac,
    note: &Option<RawNote>,
) -> Result<Expr, NameStop>
    requires { AreTables tables.now }
    ensures exact { IfOk result (λ e. resolved_literal (known_of tables.now) at number (written_note note.now)
        ≡ Ok (expr_tree e)) }
    ensures faults { IfErr result (IsFirst (resolved_literal (known_of tables.now) at number (written_note note.now))) }
{
    let unit = match note {
        None => UnitNote::Written(Unit::one(alloc)),
        Some(RawNote::Hole(_)) => open_unit(number, at)?,
        Some(RawNote::Unit(_, unit)) => {
            UnitNote::Written(tables.unit(alloc, &NameTable::new(alloc), unit)?)
        }
    };
    Ok(Expr {
        at,
        node: Node::Num(number, unit),
    })
}

/// A name without arguments: a variable, or a function without parameters.
pub(crate) fn name_alone(
    alloc: Global,
    tables: &Tables,
    body: &Body,
    scope: &Scope,
    at: u32,
    name: &Name,
) -> Result<Expr, NameStop>
    requires { AreTables tables.now }
    ensures exact { IfOk result (λ e. named (callables_of tables.now body.now) (local_of scope.now name.now) name.now at
        ≡ Ok (expr_tree e)) }
    ensures faults { IfErr result (IsFirst (named (callables_of tables.now body.now)
        (local_of scope.now name.now) name.now at)) }
{
    let node = match scope.local(name.as_slice()) {
        Some(k) => Node::Local(k),
        None => {
            let function = tables.callable(&body.own, name.as_slice(), 0, at)?;
            let items = Vec::new(alloc);
            Node::Call(function, Exprs { items })
        }
    };
    Ok(Expr { at, node })
}

/// The number of a function that is called; a variable takes no arguments.
pub(crate) fn called(
    tables: &Tables,
    body: &Body,
    scope: &Scope,
    at: u32,
    name: &Name,
    arguments: usize,
) -> Result<u32, NameStop>
    requires { AreTables tables.now }
    ensures exact { IfOk result (λ j. called (callables_of tables.now body.now)
        (local_of scope.now name.now) name.now arguments at ≡ Ok j) }
    ensures faults { IfErr result (IsFirst (called (callables_of tables.now body.now)
        (local_of scope.now name.now) name.now arguments at)) }
{
    match scope.local(name.as_slice()) {
        Some(_) => Err(NameStop::WrongCount { at }),
        None => tables.callable(&body.own, name.as_slice(), arguments, at),
    }
}

/// The field that is accessed.
pub(crate) fn accessed(tables: &Tables, name: &Name, place: u32) -> Result<FieldNumber, NameStop>
    requires { AreTables tables.now }
    ensures exact { IfOk result (λ f. found_field
        (field_of (known_of tables.now).program.records name.now) place ≡ Ok f) }
    ensures faults { IfErr result (IsFirst (found_field
        (field_of (known_of tables.now).program.records name.now) place)) }
{
    match tables.field(name.as_slice()) {
        Some(field) => Ok(field),
        None => Err(NameStop::Unknown { at: place }),
    }
}

/// Head and tail have two names.
pub(crate) fn distinct(head: &Binder, tail: &Binder) -> Result<(), NameStop>
    ensures exact { IfOk result (λ done. unless_taken (same_binding head.now.name tail.now.name) tail.now.at
        ≡ Ok done) }
    ensures faults { IfErr result (IsFirst (unless_taken (same_binding head.now.name tail.now.name) tail.now.at)) }
{
    if same_binding(head, tail) {
        return Err(NameStop::Twice { at: tail.at });
    }
    Ok(())
}

/// The record of which these are, in order, all the fields.
pub(crate) fn record_of(tables: &Tables, fields: &[RawField], at: u32) -> Result<u32, NameStop>
    requires { AreTables tables.now }
    ensures exact { IfOk result (λ r. resolved_fields (known_of tables.now).program.records
        (fields_in_order (map field_part fields.now)) at ≡ Ok r) }
    ensures faults { IfErr result (IsFirst (resolved_fields (known_of tables.now).program.records
        (fields_in_order (map field_part fields.now)) at)) }
{
    known_fields(tables, fields)?;
    let [first, ..] = fields else {
        return Err(NameStop::WrongCount { at });
    };
    let Some(field) = tables.field(first.name.as_slice()) else {
        return Err(NameStop::WrongCount { at });
    };
    if !tables.has_fields(field.record_number, fields) {
        return Err(NameStop::WrongCount { at });
    }
    Ok(field.record_number)
}

/// How many arguments there are.
pub(crate) fn arity(items: &[RawExpr]) -> usize
    ensures { result ≡ length_of (exprs_in_order (map expr_syntax items.now)) }
{
    items.len()
}

/// Each of these fields is one of some record.
fn known_fields(tables: &Tables, fields: &[RawField]) -> Result<(), NameStop>
    requires { AreTables tables.now }
    ensures exact { IfOk result (λ done. known_fields (known_of tables.now).program.records
        (fields_in_order (map field_part fields.now)) ≡ Ok done) }
    ensures faults { IfErr result (IsFirst (known_fields (known_of tables.now).program.records
        (fields_in_order (map field_part fields.now)))) }
{
    for field in fields {
        if tables.field(field.name.as_slice()).is_none() {
            return Err(NameStop::Unknown { at: field.at });
        }
    }
    Ok(())
}

/// An expression at its place.
pub(crate) fn located(at: u32, node: Node) -> Result<Expr, NameStop>
    ensures { result ≡ Ok (record { at = at; node = node }) }
{
    Ok(Expr { at, node })
}

/// The empty list of a written type.
pub(crate) fn empty_list(
    alloc: Global,
    tables: &Tables,
    body: &Body,
    at: u32,
    ty: &RawType,
) -> Result<Expr, NameStop>
    requires { AreTables tables.now }
    ensures exact { IfOk result (λ r.
        resolved_nil (known_of tables.now) body.now.variables at (type_syntax ty.now) ≡ Ok (expr_tree r)) }
    ensures faults { IfErr result (IsFirst
        (resolved_nil (known_of tables.now) body.now.variables at (type_syntax ty.now))) }
{
    let note = note(alloc, tables, &body.variables, true, ty)?;
    located(at, Node::Nil(note))
}
