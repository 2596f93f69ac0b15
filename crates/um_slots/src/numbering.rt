//! The slots of a function.

ghost use Rattle.std.specs.Prelude.{◌≡◌, ◌+◌, [], IfOk, OnOk, MatchResult, length, map};
ghost use Rattle.um_tree.specs.TypeTree.{note_tree};
ghost use Rattle.um_tree.specs.ExprTree.{expr_tree};
ghost use Rattle.um_tree.specs.ProgramTree.{result_tree};
ghost use Rattle.um_uses.specs.Holes.{notes_holes as holes_of_notes, result_holes as holes_of_result};
ghost use Rattle.um_slots.specs.Keys.{result_keys};
ghost use Rattle.um_slots.specs.Slotting.{IsTable, StopsSlots, HaveSlots, with_keys, name_unit as unit_of_name};
ghost use Rattle.um_slots.specs.Contexts.{definition_keys, holes_in};

use crate::definition::{Definition, Environment};
use crate::expressions::expr_slots;
use crate::slots::{Slots, names_slots, note_slots, notes_slots};
use crate::stop::SlotStop;
use std::alloc::{AllocError, Global};
use um_tree::Note;
use um_units::{Atom, Unit};

/// The slots of the result's note.
fn result_slots(alloc: Global, note: &Option<Note>, slots: &mut Slots) -> Result<(), SlotStop>
    ensures slots { HaveSlots (result_keys (length slots.old.holes.items) (result_tree note.now)) slots.old
        slots.new result }
    ensures counted { OnOk result (length slots.new.holes.items ≡ length slots.old.holes.items
        + holes_of_result (result_tree note.now)) }
{
    match note {
        Some(note) => note_slots(alloc, note, slots),
        None => Ok(()),
    }
}

/// The slots of a function, and how many holes come before the note of its result and before its body.
#[derive(Drop)]
pub struct Numbering {
    pub slots: Slots,
    pub params: usize,
    pub head: usize,
}

/// Gives slots to the unit parameters of a function, then to its holes and its other named variables, in the order of
/// the text (their order is this project's own). `TooMany` comes exactly if there are more than 2,000.
pub fn number_slots(
    environment: &Environment,
    definition: &Definition,
) -> Result<Numbering, SlotStop>
    ensures slots { MatchResult result
        (λ n. IsTable (with_keys [] (definition_keys environment.now definition.now)) n.slots)
        (StopsSlots (with_keys [] (definition_keys environment.now definition.now))) }
    ensures params { IfOk result (λ n. n.params ≡ holes_of_notes (map note_tree definition.now.params.now)) }
    ensures head { IfOk result (λ n. n.head ≡ holes_of_notes (map note_tree definition.now.params.now)
        + holes_of_result (result_tree definition.now.result.now)) }
    ensures counted { IfOk result (λ n. length n.slots.holes.items
        ≡ holes_of_notes (map note_tree definition.now.params.now)
        + holes_of_result (result_tree definition.now.result.now)
        + holes_in environment.now (expr_tree definition.now.body.now)) }
{
    let alloc = environment.alloc;
    let mut slots = Slots::new(alloc);
    names_slots(definition.units, &mut slots)?;
    notes_slots(alloc, definition.params, &mut slots)?;
    let params = slots.holes.len();
    result_slots(alloc, definition.result, &mut slots)?;
    let head = slots.holes.len();
    expr_slots(environment, definition.body, &mut slots)?;
    Ok(Numbering {
        slots,
        params,
        head,
    })
}

/// The unit of a named variable: its slot's variable, if it has one.
fn name_unit(alloc: Global, slot: Option<u32>) -> Result<Unit, AllocError>
    ensures { IfOk result (λ unit. unit ≡ unit_of_name slot) }
{
    match slot {
        Some(slot) => Ok(Unit::atom(alloc, Atom::Var(slot))?),
        None => Ok(Unit::one(alloc)),
    }
}

/// The unit of each named variable: the variable of its slot, and 1 if it has none. `AllocError` is the one error.
pub fn name_units(alloc: Global, names: &[Option<u32>]) -> Result<Vec<Unit>, AllocError>
    ensures { IfOk result (λ units. units.items ≡ map unit_of_name names.now) }
{
    let mut units = Vec::new(alloc);
    for slot in names {
        units.push(name_unit(alloc, *slot)?)?;
    }
    Ok(units)
}
