//! Nodes without parts that leave units open: numbers and empty lists.

ghost use Rattle.std.specs.Prelude.{◌≡◌, ◌+◌, ◌≤◌, IfOk, IsTrue, length};
ghost use Rattle.um_units.specs.PowerMap.{nth};
ghost use Rattle.um_tree.specs.TypeTree.{type_tree, note_tree};
ghost use Rattle.um_elim.specs.Application.{type_fits};
ghost use Rattle.um_slots.specs.Holes.{unit_holes as holes_of_unit, note_holes as holes_of_note};
ghost use Rattle.um_slots.specs.Noted.{noted_unit as unit_noted, noted_type as type_noted};
ghost use Rattle.um_rows.specs.Rules.{number_rule, nil_rule};
ghost use Rattle.um_rows.specs.Walk.{node};
ghost use Rattle.um_rows.specs.Reached.{IsReached};

use crate::progress::Progress;
use crate::rules;
use std::alloc::Global;
use um_equal_types::RowStop;
use um_frac::Frac;
use um_slots::{Context, note_holes, noted_type, noted_unit, unit_holes};
use um_tree::{Note, Ty, UnitNote};
use um_units::UnitStop;

/// A number with its note.
#[tactic(auto, using(crate::proofs::NodeLaws::number_past))]
#[inline(never)]
pub(crate) fn number(
    alloc: Global,
    context: &Context,
    at: u32,
    value: Frac,
    note: &UnitNote,
    progress: &mut Progress,
) -> Result<Ty, RowStop>
    requires room { progress.old.holes + holes_of_unit note.now ≤ length context.now.holes.items }
    ensures reached { IsReached (node progress.old.rows.items (progress.old.holes + holes_of_unit note.now)
        (number_rule at value note.now (unit_noted (nth context.now.holes.items)
        (nth context.now.names.items) progress.old.holes note.now))) progress.new result }
    ensures fits { IfOk result (λ ty. IsTrue (type_fits (type_tree ty))) }
{
    match noted_unit(alloc, context, progress.holes, note) {
        Ok(unit) => {
            progress.holes += unit_holes(note);
            rules::number(alloc, at, value, note, unit, progress)
        }
        Err(UnitStop::Range) => Err(RowStop::Range { at }),
        Err(UnitStop::NoMemory) => Err(RowStop::NoMemory),
    }
}

/// The empty list of a written type.
#[tactic(auto, using(crate::proofs::NodeLaws::nil_past))]
#[inline(never)]
pub(crate) fn nil(
    alloc: Global,
    context: &Context,
    at: u32,
    note: &Note,
    progress: &mut Progress,
) -> Result<Ty, RowStop>
    requires room { progress.old.holes + holes_of_note (note_tree note.now) ≤ length context.now.holes.items }
    ensures reached { IsReached (node progress.old.rows.items (progress.old.holes + holes_of_note (note_tree note.now))
        (nil_rule at (type_noted (nth context.now.holes.items) (nth context.now.names.items) progress.old.holes
        (note_tree note.now)))) progress.new result }
    ensures fits { IfOk result (λ ty. IsTrue (type_fits (type_tree ty))) }
{
    match noted_type(alloc, context, progress.holes, note) {
        Ok(ty) => {
            progress.holes += note_holes(note);
            rules::nil(alloc, at, ty, progress)
        }
        Err(UnitStop::Range) => Err(RowStop::Range { at }),
        Err(UnitStop::NoMemory) => Err(RowStop::NoMemory),
    }
}
