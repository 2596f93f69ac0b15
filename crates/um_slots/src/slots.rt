//! Slots: each unit parameter of a function has one, and then each hole and each other named variable, in the order of
//! first occurrence.

ghost use Rattle.std.specs.Prelude.{◌≡◌, ◌≢◌, ◌+◌, ◌<◌, ◌≤◌, ℕ, [], ◌∷◌, IfOk, IfErr, OnOk, None, Some, length, map};
ghost use Rattle.std.specs.Prelude.{slice_index_or};
ghost use Rattle.std.specs.List.{flat_map};
ghost use Rattle.um_units.specs.declared.Atom.TheVariants.{Var};
ghost use Rattle.um_units.specs.PowerMap.{atom};
ghost use Rattle.um_tree.specs.TypeTree.{note_tree};
ghost use Rattle.um_tree.specs.Scheme.{atom_variables, unit_variables};
ghost use Rattle.um_slots.specs.declared.stop.SlotStop.TheVariants as stop;
ghost use Rattle.um_uses.specs.Holes.{unit_holes, units_holes, note_holes, notes_holes};
ghost use Rattle.um_slots.specs.Keys.{hole, name, hole_keys, name_keys, unit_keys, units_keys, note_keys, notes_keys};
ghost use Rattle.um_slots.specs.Slotting.{IsTable, HaveSlots};

use crate::stop::SlotStop;
use std::alloc::{AllocError, Global};
use um_tree::{Note, UnitNote};
use um_units::{Atom, Term, Unit};

/// The slots that were given so far.
#[derive(Drop)]
pub struct Slots {
    /// How many they are
    pub count: u32,
    /// The unit of each hole so far, which is its slot's variable
    pub holes: Vec<Unit>,
    /// The slot of each named variable that has one
    pub names: Vec<Option<u32>>,
}

impl Slots {
    pub(crate) fn new(alloc: Global) -> Slots
        ensures table { IsTable [] result }
        ensures empty { result.holes.items ≡ [] }
    {
        Slots {
            count: 0,
            holes: Vec::new(alloc),
            names: Vec::new(alloc),
        }
    }

    /// A slot that none has. There are at most 2,000.
    fn take(&mut self) -> Result<u32, SlotStop>
        ensures taken { IfOk result (λ slot. (slot ≡ self.old.count) × (self.old.count < 2000)) }
        ensures count { OnOk result (self.new.count ≡ self.old.count + 1) }
        ensures holes { self.new.holes.items ≡ self.old.holes.items }
        ensures names { self.new.names.items ≡ self.old.names.items }
        ensures full { IfErr result (λ e. (e ≡ stop.TooMany) × (2000 ≤ self.old.count)) }
    {
        if self.count >= 2000 {
            return Err(SlotStop::TooMany);
        }
        let slot = self.count;
        self.count += 1;
        Ok(slot)
    }

    /// The next hole.
    fn add_hole(&mut self, alloc: Global) -> Result<(), SlotStop>
        ensures slots { HaveSlots (hole (length self.old.holes.items) ∷ []) self.old self.new result }
        ensures counted { OnOk result (length self.new.holes.items ≡ length self.old.holes.items + 1) }
    {
        let slot = self.take()?;
        self.holes.push(Unit::atom(alloc, Atom::Var(slot))?)?;
        Ok(())
    }

    /// So many holes.
    pub(crate) fn add_holes(&mut self, alloc: Global, many: usize) -> Result<(), SlotStop>
        ensures slots { HaveSlots (hole_keys (length self.old.holes.items) many) self.old self.new result }
        ensures counted { OnOk result (length self.new.holes.items ≡ length self.old.holes.items + many) }
    {
        if many == 0 {
            return Ok(());
        }
        self.add_hole(alloc)?;
        self.add_holes(alloc, many - 1)
    }

    /// The slot of the named variable k, if it has one.
    fn slot_of(&self, k: usize) -> Option<u32>
        ensures { result ≡ slice_index_or self.now.names.items k None }
    {
        match self.names.get(k) {
            Some(slot) => *slot,
            None => None,
        }
    }

    /// The named variable k, which may have a slot already.
    fn add_name(&mut self, k: u32) -> Result<(), SlotStop>
        ensures slots { HaveSlots (name k ∷ []) self.old self.new result }
        ensures counted { OnOk result (length self.new.holes.items ≡ length self.old.holes.items) }
    {
        if self.slot_of(k as usize).is_some() {
            return Ok(());
        }
        let slot = self.take()?;
        set_slot(&mut self.names, k as usize, slot)?;
        Ok(())
    }
}

/// Makes room for index k.
fn grow(names: &mut Vec<Option<u32>>, k: usize) -> Result<(), AllocError>
    ensures room { OnOk result (k < length names.new.items) }
    ensures same { OnOk result
        ((j : ℕ) → slice_index_or names.new.items j None ≡ slice_index_or names.old.items j None) }
{
    while names.len() <= k {
        names.push(None)?;
    }
    Ok(())
}

/// Notes the slot of the named variable k.
fn set_slot(names: &mut Vec<Option<u32>>, k: usize, slot: u32) -> Result<(), AllocError>
    ensures own { OnOk result (slice_index_or names.new.items k None ≡ Some slot) }
    ensures others { OnOk result ((j : ℕ) → j ≢ k
        → slice_index_or names.new.items j None ≡ slice_index_or names.old.items j None) }
{
    grow(names, k)?;
    names[k] = Some(slot);
    Ok(())
}

/// The first named variables, so many, in order: those of the unit parameters.
pub(crate) fn names_slots(many: u32, slots: &mut Slots) -> Result<(), SlotStop>
    ensures slots { HaveSlots (name_keys 0 many) slots.old slots.new result }
    ensures counted { OnOk result (length slots.new.holes.items ≡ length slots.old.holes.items) }
{
    for k in 0..many {
        slots.add_name(k)?;
    }
    Ok(())
}

/// The variable of a term, if its atom is one.
fn term_slots(term: &Term, slots: &mut Slots) -> Result<(), SlotStop>
    ensures slots { HaveSlots (map name (atom_variables term.now.atom)) slots.old slots.new result }
    ensures counted { OnOk result (length slots.new.holes.items ≡ length slots.old.holes.items) }
{
    match term.atom {
        Atom::Base(_) => Ok(()),
        Atom::Var(k) => slots.add_name(k),
    }
}

/// The variables of some terms, in their order.
fn terms_slots(terms: &[Term], slots: &mut Slots) -> Result<(), SlotStop>
    ensures slots { HaveSlots (map name (flat_map (λ t. atom_variables t.atom) terms.now)) slots.old slots.new result }
    ensures counted { OnOk result (length slots.new.holes.items ≡ length slots.old.holes.items) }
{
    for term in terms {
        term_slots(term, slots)?;
    }
    Ok(())
}

/// The named variables of a unit. Most units have none.
fn written_slots(unit: &Unit, slots: &mut Slots) -> Result<(), SlotStop>
    ensures slots { HaveSlots (map name (unit_variables unit.now)) slots.old slots.new result }
    ensures counted { OnOk result (length slots.new.holes.items ≡ length slots.old.holes.items) }
{
    if unit.is_closed() {
        return Ok(());
    }
    terms_slots(unit.terms(), slots)
}

/// The hole of a unit's note, or its named variables.
pub(crate) fn unit_slots(alloc: Global, note: &UnitNote, slots: &mut Slots) -> Result<(), SlotStop>
    ensures slots { HaveSlots (unit_keys (length slots.old.holes.items) note.now) slots.old slots.new result }
    ensures counted { OnOk result (length slots.new.holes.items ≡ length slots.old.holes.items + unit_holes note.now) }
{
    match note {
        UnitNote::Hole => slots.add_hole(alloc),
        UnitNote::Written(unit) => written_slots(unit, slots),
    }
}

fn units_slots(alloc: Global, notes: &[UnitNote], slots: &mut Slots) -> Result<(), SlotStop>
    ensures slots { HaveSlots (units_keys (length slots.old.holes.items) notes.now) slots.old slots.new result }
    ensures counted { OnOk result (length slots.new.holes.items ≡ length slots.old.holes.items + units_holes
        notes.now) }
{
    match notes {
        [] => Ok(()),
        [note, rest @ ..] => {
            unit_slots(alloc, note, slots)?;
            units_slots(alloc, rest, slots)
        }
    }
}

/// The holes and the named variables of a note.
pub(crate) fn note_slots(alloc: Global, note: &Note, slots: &mut Slots) -> Result<(), SlotStop>
    ensures slots { HaveSlots (note_keys (length slots.old.holes.items) (note_tree note.now)) slots.old slots.new
        result }
    ensures counted { OnOk result (length slots.new.holes.items ≡ length slots.old.holes.items
        + note_holes (note_tree note.now)) }
{
    match note {
        Note::Bool => Ok(()),
        Note::Num(unit) => unit_slots(alloc, unit, slots),
        Note::List(item) => note_slots(alloc, item, slots),
        Note::Rec(_, units) => units_slots(alloc, &units.items, slots),
    }
}

/// The holes and the named variables of some notes.
pub(crate) fn notes_slots(alloc: Global, notes: &[Note], slots: &mut Slots) -> Result<(), SlotStop>
    ensures slots { HaveSlots (notes_keys (length slots.old.holes.items) (map note_tree notes.now)) slots.old
        slots.new result }
    ensures counted { OnOk result (length slots.new.holes.items ≡ length slots.old.holes.items
        + notes_holes (map note_tree notes.now)) }
{
    match notes {
        [] => Ok(()),
        [note, rest @ ..] => {
            note_slots(alloc, note, slots)?;
            notes_slots(alloc, rest, slots)
        }
    }
}
