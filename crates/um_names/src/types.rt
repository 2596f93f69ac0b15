//! The notes of type texts, and their types.

ghost use Rattle.std.specs.Prelude.{◌≡◌, ℕ, Ok, IfOk, IfErr, map, length};
ghost use Rattle.um_tree.specs.TypeTree.{note_tree, type_tree};
ghost use Rattle.um_tree.specs.RawTree.{note_syntax, written_note, type_syntax};
ghost use Rattle.um_measures.specs.Stops.{IsFirst};
ghost use Rattle.um_names.specs.Tables.{AreTables, known_of};
ghost use Rattle.um_names.specs.TypeNames.{hole_note, resolved_note, resolved_notes, resolved_number, resolved_type};
ghost use Rattle.um_names.specs.TypeNames.{written_unit, written_units, written_type};

use crate::known::Tables;
use std::alloc::{AllocError, Global};
use std::boxed::Box;
use um_measures::{NameStop, NameTable};
use um_tree::{Note, RawNote, RawType, Ty, UnitNote, UnitNotes};
use um_units::{Unit, Units};

/// What stands between `<` and `>`; `holes` says whether it may be `_`.
fn unit_note(
    alloc: Global,
    tables: &Tables,
    variables: &NameTable,
    holes: bool,
    raw: &RawNote,
) -> Result<UnitNote, NameStop>
    requires { AreTables tables.now }
    ensures exact { IfOk result (λ note. resolved_note (known_of tables.now) variables.now holes
        (note_syntax raw.now) ≡ Ok note) }
    ensures faults { IfErr result (IsFirst (resolved_note (known_of tables.now) variables.now holes
        (note_syntax raw.now))) }
{
    match raw {
        RawNote::Hole(at) => hole(holes, *at),
        RawNote::Unit(_, unit) => Ok(UnitNote::Written(tables.unit(alloc, variables, unit)?)),
    }
}

fn hole(holes: bool, at: u32) -> Result<UnitNote, NameStop>
    ensures exact { IfOk result (λ note. hole_note holes at ≡ Ok note) }
    ensures faults { IfErr result (IsFirst (hole_note holes at)) }
{
    if holes {
        Ok(UnitNote::Hole)
    } else {
        Err(NameStop::Hole { at })
    }
}

/// Note by note.
fn unit_notes(
    alloc: Global,
    tables: &Tables,
    variables: &NameTable,
    holes: bool,
    raw: &[RawNote],
) -> Result<UnitNotes, NameStop>
    requires { AreTables tables.now }
    ensures exact { IfOk result (λ notes. resolved_notes (known_of tables.now) variables.now holes
        (map note_syntax raw.now) ≡ Ok notes.items.items) }
    ensures faults { IfErr result (IsFirst (resolved_notes (known_of tables.now) variables.now holes
        (map note_syntax raw.now))) }
{
    let mut items = Vec::new(alloc);
    items.reserve(raw.len())?;
    for text in raw {
        items.push(unit_note(alloc, tables, variables, holes, text)?)?;
    }
    Ok(UnitNotes { items })
}

/// The unit of a number; 1 where none is written.
fn number(
    alloc: Global,
    tables: &Tables,
    variables: &NameTable,
    holes: bool,
    raw: &Option<RawNote>,
) -> Result<UnitNote, NameStop>
    requires { AreTables tables.now }
    ensures exact { IfOk result (λ note. resolved_number (known_of tables.now) variables.now holes
        (written_note raw.now) ≡ Ok note) }
    ensures faults { IfErr result (IsFirst (resolved_number (known_of tables.now) variables.now holes
        (written_note raw.now))) }
{
    match raw {
        None => Ok(UnitNote::Written(Unit::one(alloc))),
        Some(note) => unit_note(alloc, tables, variables, holes, note),
    }
}

/// The note of a type text; `holes` says whether `_` may stand in it.
pub fn note(
    alloc: Global,
    tables: &Tables,
    variables: &NameTable,
    holes: bool,
    raw: &RawType,
) -> Result<Note, NameStop>
    requires { AreTables tables.now }
    ensures exact { IfOk result (λ note. resolved_type (known_of tables.now) variables.now holes (type_syntax raw.now)
        ≡ Ok (note_tree note)) }
    ensures faults { IfErr result (IsFirst (resolved_type (known_of tables.now) variables.now holes
        (type_syntax raw.now))) }
{
    match raw {
        RawType::Bool => Ok(Note::Bool),
        RawType::Num(unit) => Ok(Note::Num(number(alloc, tables, variables, holes, unit)?)),
        RawType::Name(at, name, units) => {
            let record = tables.record(name.as_slice(), units.items.len(), *at)?;
            let units = unit_notes(alloc, tables, variables, holes, &units.items)?;
            Ok(Note::Rec(record, units))
        }
        RawType::List(item) => {
            let item = note(alloc, tables, variables, holes, item)?;
            Ok(Note::List(Box::new(alloc, item)?))
        }
        RawType::Bracket(inner) => note(alloc, tables, variables, holes, inner),
    }
}

/// The type of a note without holes.
pub fn written(alloc: Global, note: &Note) -> Result<Ty, AllocError>
    ensures { IfOk result (λ ty. type_tree ty ≡ written_type (note_tree note.now)) }
{
    match note {
        Note::Bool => Ok(Ty::Bool),
        Note::Num(unit) => Ok(Ty::Num(written_unit(alloc, unit)?)),
        Note::List(item) => Ok(Ty::List(Box::new(alloc, written(alloc, item)?)?)),
        Note::Rec(record, units) => Ok(Ty::Rec(*record, written_units(alloc, &units.items)?)),
    }
}

fn written_unit(alloc: Global, note: &UnitNote) -> Result<Unit, AllocError>
    ensures { IfOk result (λ unit. unit ≡ written_unit note.now) }
{
    match note {
        UnitNote::Hole => Ok(Unit::one(alloc)),
        UnitNote::Written(unit) => unit.copy(alloc),
    }
}

fn written_units(alloc: Global, notes: &[UnitNote]) -> Result<Units, AllocError>
    ensures { IfOk result (λ units. units ≡ written_units notes.now) }
{
    let mut items = Vec::new(alloc);
    items.reserve(notes.len())?;
    for note in notes {
        items.push(written_unit(alloc, note)?)?;
    }
    Ok(Units::from_vec(items))
}
