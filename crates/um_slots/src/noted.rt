//! Notes as types over slots.

ghost use Rattle.std.specs.Prelude.{◌≡◌, ◌+◌, ◌≤◌, ◌<◌, ◌++◌, IfOk, OnOk, IsTrue, length};
ghost use Rattle.std.specs.List.{list_all};
ghost use Rattle.um_units.specs.PowerMap.{nth};
ghost use Rattle.um_units.specs.Range.{fits, RangeUnless};
ghost use Rattle.um_tree.specs.TypeTree.{type_tree, note_tree};
ghost use Rattle.um_elim.specs.Application.{type_fits};
ghost use Rattle.um_uses.specs.Holes.{unit_holes as holes_of_unit, units_holes as holes_of_units};
ghost use Rattle.um_uses.specs.Holes.{note_holes as holes_of_note};
ghost use Rattle.um_slots.specs.Noted.{noted_unit as unit_noted, noted_units as units_noted, noted_type as type_noted};

use crate::context::Context;
use std::alloc::Global;
use um_tree::{Note, Ty, UnitNote};
use um_units::{Unit, UnitStop, Units};

/// How many holes a unit's note has: one, or none.
pub fn unit_holes(note: &UnitNote) -> usize
    ensures { result ≡ holes_of_unit note.now }
{
    match note {
        UnitNote::Hole => 1,
        UnitNote::Written(_) => 0,
    }
}

/// The unit of a note, whose hole has the number `n`. `Range` comes exactly if a power of it is out of range.
pub fn noted_unit(
    alloc: Global,
    context: &Context,
    n: usize,
    note: &UnitNote,
) -> Result<Unit, UnitStop>
    requires room { n + holes_of_unit note.now ≤ length context.now.holes.items }
    ensures exact { IfOk result (λ u. u ≡ unit_noted (nth context.now.holes.items)
        (nth context.now.names.items) n note.now) }
    ensures range { RangeUnless result (fits (unit_noted (nth context.now.holes.items)
        (nth context.now.names.items) n note.now)) }
{
    match note {
        UnitNote::Hole => Ok(context.holes[n].copy(alloc)?),
        UnitNote::Written(unit) => unit.replace(alloc, &context.names),
    }
}

/// How many holes the units of a note have.
fn units_holes(notes: &[UnitNote]) -> usize
    requires { holes_of_units notes.now < 18446744073709551616 }
    ensures { result ≡ holes_of_units notes.now }
{
    match notes {
        [] => 0,
        [note, rest @ ..] => unit_holes(note) + units_holes(rest),
    }
}

/// How many holes a note has.
pub fn note_holes(note: &Note) -> usize
    requires { holes_of_note (note_tree note.now) < 18446744073709551616 }
    ensures { result ≡ holes_of_note (note_tree note.now) }
{
    match note {
        Note::Bool => 0,
        Note::Num(unit) => unit_holes(unit),
        Note::List(item) => note_holes(item),
        Note::Rec(_, units) => units_holes(&units.items),
    }
}

/// Pushes the units of the notes, whose holes are numbered from n on.
fn push_noted(
    alloc: Global,
    context: &Context,
    n: usize,
    notes: &[UnitNote],
    units: &mut Vec<Unit>,
) -> Result<(), UnitStop>
    requires room { n + holes_of_units notes.now ≤ length context.now.holes.items }
    ensures exact { OnOk result (units.new.items ≡ units.old.items
        ++ units_noted (nth context.now.holes.items) (nth context.now.names.items) n notes.now) }
    ensures range { RangeUnless result (list_all fits
        (units_noted (nth context.now.holes.items) (nth context.now.names.items) n notes.now)) }
{
    match notes {
        [] => Ok(()),
        [note, rest @ ..] => {
            units.push(noted_unit(alloc, context, n, note)?)?;
            push_noted(alloc, context, n + unit_holes(note), rest, units)
        }
    }
}

/// The type of a note, whose holes are numbered from `n` on. `Range` comes exactly if a power in it is out of range.
pub fn noted_type(alloc: Global, context: &Context, n: usize, note: &Note) -> Result<Ty, UnitStop>
    requires room { n + holes_of_note (note_tree note.now) ≤ length context.now.holes.items }
    ensures exact { IfOk result (λ t. type_tree t
        ≡ type_noted (nth context.now.holes.items) (nth context.now.names.items) n (note_tree note.now)) }
    ensures range { RangeUnless result (type_fits
        (type_noted (nth context.now.holes.items) (nth context.now.names.items) n (note_tree note.now))) }
{
    match note {
        Note::Bool => Ok(Ty::Bool),
        Note::Num(unit) => Ok(Ty::Num(noted_unit(alloc, context, n, unit)?)),
        Note::List(item) => Ok(Ty::List(Box::new(alloc, noted_type(alloc, context, n, item)?)?)),
        Note::Rec(record, notes) => {
            let mut units = Vec::new(alloc);
            units.reserve(notes.items.len())?;
            push_noted(alloc, context, n, &notes.items, &mut units)?;
            Ok(Ty::Rec(*record, Units::from_vec(units)))
        }
    }
}
