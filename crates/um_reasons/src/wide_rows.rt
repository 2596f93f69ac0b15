//! Rows solved one after another with powers of 64 bits.

ghost use Rattle.std.specs.Prelude.{◌≡◌, ◌<◌, ◌≤◌, ◌+◌, ◌^◌, All, IfOk, OnOk, length};
ghost use Rattle.um_units.specs.PowerMap.{atom};
ghost use Rattle.um_units.specs.Variables.{VariablesBelow};
ghost use Rattle.um_elim.specs.Elimination.{ended};
ghost use Rattle.um_elim.specs.Instances.{IsRight};
ghost use Rattle.um_elim.specs.Solution.{parameter_rows, rigid_unit, rigid_units};
ghost use Rattle.um_equal_types.specs.declared.row.Row.{Row};
ghost use Rattle.um_equal_types.specs.Steps.{units_of};
ghost use Rattle.um_wide.specs.Room.{IsNarrow};
ghost use Rattle.um_reasons.specs.CoreLaws.{EndsUnsolvable};
ghost use Rattle.um_reasons.specs.Search.{IsNext, outcome};

use crate::powers::{all_without, put};
use crate::search::Next;
use crate::wide_step::{Stepped, has_base_unit, has_other_variable, pivot_of, take_step};
use std::alloc::{AllocError, Global};
use um_rows::Row;
use um_units::Atom;
use um_wide::WideUnit;

/// The first row with which those of the list are unsolvable, by units whose powers have 64 bits.
pub(crate) fn next_wide(
    alloc: Global,
    slots: u32,
    bases: u32,
    parameters: u32,
    rows: &[Row],
    list: &[usize],
) -> Result<Next, AllocError>
    requires parameters { parameters ≤ slots }
    requires bases { bases + parameters < 2 ^ 32 }
    requires variables { All (λ (row : Row). VariablesBelow slots row.unit) rows.now }
    requires unsolvable { EndsUnsolvable slots (parameter_rows bases parameters) (units_of rows.now) }
    requires list { All (λ k. k < length rows.now) list.now }
    ensures { IfOk result (IsNext slots bases parameters rows.now list.now) }
{
    let mut units = first_units(alloc, slots, bases, parameters)?;
    for i in 0..list.len() {
        if !eliminate(alloc, &mut units, &rows[list[i]])? {
            return Ok(Next::Unsolvable);
        }
    }
    for j in 0..rows.len() {
        if !eliminate(alloc, &mut units, &rows[j])? {
            return Ok(Next::Row(j));
        }
    }
    unreachable!()
}

/// The base units of the parameters, and the other slots' own variables.
fn first_units(
    alloc: Global,
    slots: u32,
    bases: u32,
    parameters: u32,
) -> Result<Vec<WideUnit>, AllocError>
    requires { bases + parameters < 2 ^ 32 }
    ensures exact { IfOk result (λ units. units.items ≡ rigid_units bases parameters slots) }
    ensures narrow { IfOk result (λ units. All IsNarrow units.items) }
{
    let mut units = Vec::new(alloc);
    for slot in 0..slots {
        units.push(first_unit(alloc, slot, bases, parameters)?)?;
    }
    Ok(units)
}

fn first_unit(alloc: Global, slot: u32, bases: u32, parameters: u32) -> Result<WideUnit, AllocError>
    requires { bases + parameters < 2 ^ 32 }
    ensures exact { IfOk result (λ unit. unit ≡ rigid_unit bases parameters slot) }
    ensures narrow { IfOk result IsNarrow }
{
    if slot < parameters {
        return single(alloc, Atom::Base(bases + slot));
    }
    single(alloc, Atom::Var(slot))
}

fn single(alloc: Global, a: Atom) -> Result<WideUnit, AllocError>
    ensures exact { IfOk result (λ unit. unit ≡ atom a) }
    ensures narrow { IfOk result IsNarrow }
{
    WideUnit::atom_power(alloc, a, 1)
}

/// The end of a row, in which no variable other than m is left: the row has no solution if a base unit is left, and
/// otherwise 1 is put for m.
fn end_row(
    alloc: Global,
    units: &mut Vec<WideUnit>,
    left: &WideUnit,
    m: u32,
) -> Result<bool, AllocError>
    requires { All IsNarrow units.old.items }
    ensures ended { IfOk result (λ solved. outcome solved units.new.items ≡ ended m units.old.items left.now) }
    ensures narrow { OnOk result (All IsNarrow units.new.items) }
{
    if has_base_unit(left.terms()) {
        return Ok(false);
    }
    *units = all_without(alloc, units, m)?;
    Ok(true)
}

/// The elimination of a row, which changes the units of the slots. It says whether the row has a solution.
fn eliminate(alloc: Global, units: &mut Vec<WideUnit>, row: &Row) -> Result<bool, AllocError>
    requires variables { VariablesBelow (length units.old.items) row.now.unit }
    requires narrow { All IsNarrow units.old.items }
    ensures right { IfOk result (λ solved. IsRight units.old.items row.now.unit (outcome solved units.new.items)) }
    ensures narrow { OnOk result (All IsNarrow units.new.items) }
{
    let mut r = put(alloc, &row.unit, units)?;
    loop {
        let Some(at) = pivot_of(r.terms()) else {
            return Ok(r.terms().is_empty());
        };
        let Stepped { units: next, left } = take_step(alloc, units, &r, at)?;
        *units = next;
        r = left;
        if !has_other_variable(r.terms(), at.variable) {
            return end_row(alloc, units, &r, at.variable);
        }
    }
}
