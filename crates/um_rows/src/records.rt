//! Values of records, and their fields.

ghost use Rattle.std.specs.Prelude.{◌≡◌, ◌+◌, ◌≤◌, ◌==◌, All, IfOk, IsTrue, Some, true, length, map, slice_get};
ghost use Rattle.um_units.specs.PowerMap.{nth};
ghost use Rattle.um_units.specs.Variables.{VariablesBelow};
ghost use Rattle.um_tree.specs.declared.program.FieldDecl.{FieldDecl};
ghost use Rattle.um_tree.specs.TypeTree.{type_tree};
ghost use Rattle.um_tree.specs.ProgramTree.{record_tree};
ghost use Rattle.um_tree.specs.Typing.{put, unit_at, field_types};
ghost use Rattle.um_tree.specs.Laws.{TypeHas};
ghost use Rattle.um_elim.specs.Application.{type_fits};
ghost use Rattle.um_slots.specs.SlotUnits.{AreVariables};
ghost use Rattle.um_equal_types.specs.Against.{types_against as types_against_steps};
ghost use Rattle.um_equal_types.specs.Pushed.{ArePushed};
ghost use Rattle.um_rows.specs.Rules.{record_rule, declared_rule, field_rule, found_rule};
ghost use Rattle.um_slots.specs.Holes.{record_holes};
ghost use Rattle.um_rows.specs.Derivation.{first_units};
ghost use Rattle.um_rows.specs.Walk.{node};
ghost use Rattle.um_rows.specs.Reached.{IsReached};
ghost use Rattle.um_rows.specs.Closed.{declared_types, IsClosedRecord};

use crate::calls::hole_units;
use crate::progress::Progress;
use crate::rules::mismatch;
use crate::value::Value;
use crate::walker::Walk;
use std::alloc::Global;
use um_elim::put_in_type;
use um_equal_types::{Row, RowStop, against, push_never};
use um_slots::{copied_units, renamed};
use um_tree::{FieldDecl, Record, Ty};
use um_units::{Unit, UnitStop};

/// Pushes the rows of fields' types, whose variables are renamed, against parts.
#[tactic(auto, using(um_equal_types::proofs::PushLaws::stops_front))]
fn fields_against(
    alloc: Global,
    at: u32,
    by: &[Unit],
    fields: &[FieldDecl],
    parts: &[Ty],
    rows: &mut Vec<Row>,
) -> Result<(), RowStop>
    requires variables { AreVariables by.now }
    requires below { All (λ (f : FieldDecl). TypeHas (VariablesBelow (length by.now)) (type_tree f.ty)) fields.now }
    ensures { ArePushed (types_against_steps at (map (put (nth by.now)) (declared_types fields.now))
        (map type_tree parts.now)) rows.old.items rows.new.items result }
{
    match fields {
        [] => match parts {
            [] => Ok(()),
            [_, ..] => push_never(alloc, at, rows),
        },
        [field, fields @ ..] => match parts {
            [] => push_never(alloc, at, rows),
            [part, parts @ ..] => {
                let declared = renamed(alloc, by, &field.ty)?;
                against(alloc, at, &declared, part, rows)?;
                fields_against(alloc, at, by, fields, parts, rows)
            }
        },
    }
}

/// Pushes the rows of the record's fields, at these units, against parts.
fn parts_against(
    alloc: Global,
    at: u32,
    value: &Value,
    parts: &[Ty],
    rows: &mut Vec<Row>,
) -> Result<(), RowStop>
    ensures { ArePushed (types_against_steps at
        (map (put (unit_at value.now.units.now)) (field_types (record_tree value.now.declaration.now)))
        (map type_tree parts.now)) rows.old.items rows.new.items result }
{
    let fields: &[FieldDecl] = &value.declaration.fields.items;
    fields_against(alloc, at, value.units, fields, parts, rows)
}

/// A value of the record.
#[tactic(auto, using(crate::proofs::NodeLaws::node_made, crate::proofs::NodeLaws::node_stops))]
fn record_of(
    alloc: Global,
    at: u32,
    value: &Value,
    parts: &[Ty],
    progress: &mut Progress,
) -> Result<Ty, RowStop>
    ensures reached { IsReached (node progress.old.rows.items progress.old.holes
        (record_rule at value.now.number value.now.units.now (Some (record_tree value.now.declaration.now))
        (map type_tree parts.now))) progress.new result }
    ensures fits { IfOk result (λ ty. IsTrue (type_fits (type_tree ty))) }
{
    parts_against(alloc, at, value, parts, &mut progress.rows)?;
    let units = copied_units(alloc, value.units)?;
    Ok(Ty::Rec(value.number, units))
}

/// The type of a field, at the units of a record.
#[tactic(auto, using(crate::proofs::NodeLaws::node_made, crate::proofs::NodeLaws::node_past))]
fn declared(
    alloc: Global,
    at: u32,
    units: &[Unit],
    field: &FieldDecl,
    progress: &mut Progress,
) -> Result<Ty, RowStop>
    requires below { TypeHas (VariablesBelow (length units.now)) (type_tree field.now.ty) }
    ensures reached { IsReached (node progress.old.rows.items progress.old.holes
        (declared_rule at units.now true (Some (type_tree field.now.ty)))) progress.new result }
    ensures fits { IfOk result (λ ty. IsTrue (type_fits (type_tree ty))) }
{
    match put_in_type(alloc, units, &field.ty) {
        Ok(ty) => Ok(ty),
        Err(UnitStop::Range) => Err(RowStop::Range { at }),
        Err(UnitStop::NoMemory) => Err(RowStop::NoMemory),
    }
}

/// A value of record r, whose holes are numbered from the first on.
pub(crate) fn record(
    walk: &Walk,
    at: u32,
    first: usize,
    r: u32,
    parts: &[Ty],
    progress: &mut Progress,
) -> Result<Ty, RowStop>
    requires room { first + record_holes (slice_get (map record_tree walk.now.records.now) r)
        ≤ length walk.now.context.holes.items }
    ensures reached { IsReached (node progress.old.rows.items progress.old.holes
        (record_rule at r (first_units (record_holes (slice_get (map record_tree walk.now.records.now) r))
        (λ k. nth walk.now.context.holes.items (first + k))) (slice_get (map record_tree walk.now.records.now) r)
        (map type_tree parts.now))) progress.new result }
    ensures fits { IfOk result (λ ty. IsTrue (type_fits (type_tree ty))) }
{
    let alloc = walk.alloc;
    match walk.records.get(r as usize) {
        Some(declaration) => {
            let units = hole_units(&walk.context, first, declaration.units as usize);
            let value = Value {
                number: r,
                declaration,
                units,
            };
            record_of(alloc, at, &value, parts, progress)
        }
        None => mismatch(alloc, at, progress),
    }
}

/// The type of the k-th field of a value of this record, at the value's units.
fn field_of(
    alloc: Global,
    at: u32,
    declaration: &Record,
    k: u32,
    units: &[Unit],
    progress: &mut Progress,
) -> Result<Ty, RowStop>
    requires closed { IsClosedRecord declaration.now }
    ensures reached { IsReached (node progress.old.rows.items progress.old.holes
        (found_rule at k units.now true (Some (record_tree declaration.now)))) progress.new result }
    ensures fits { IfOk result (λ ty. IsTrue (type_fits (type_tree ty))) }
{
    if units.len() != declaration.units as usize {
        return mismatch(alloc, at, progress);
    }
    match declaration.fields.items.get(k as usize) {
        Some(field) => declared(alloc, at, units, field, progress),
        None => mismatch(alloc, at, progress),
    }
}

/// The type of the k-th field of a part, which is a value of record r.
pub(crate) fn field(
    walk: &Walk,
    at: u32,
    r: u32,
    k: u32,
    part: &Ty,
    progress: &mut Progress,
) -> Result<Ty, RowStop>
    ensures reached { IsReached (node progress.old.rows.items progress.old.holes
        (field_rule at r k (slice_get (map record_tree walk.now.records.now) r) (type_tree part.now))) progress.new
        result }
    ensures fits { IfOk result (λ ty. IsTrue (type_fits (type_tree ty))) }
{
    let alloc = walk.alloc;
    match part {
        Ty::Rec(q, units) if *q == r => match walk.records.get(r as usize) {
            Some(record) => field_of(alloc, at, record, k, units.as_slice(), progress),
            None => mismatch(alloc, at, progress),
        },
        Ty::Rec(_, _) | Ty::Bool | Ty::Num(_) | Ty::List(_) => mismatch(alloc, at, progress),
    }
}
