//! The units of parts in a program.
ghost use Rattle.std.specs.Prelude.{◌≡◌, ◌∷◌, ◌++◌, [], List, IfErr, IfOk, Ok};
ghost use Rattle.um_tree.specs.ProgramTree.{program_tree};
ghost use Rattle.um_measures.specs.ClosedUnits.{given};
ghost use Rattle.um_measures.specs.Known.{short_unit};
ghost use Rattle.um_display.specs.declared.unit.DisplayUnit.{DisplayUnit};
ghost use Rattle.um_display.specs.DisplayUnits.{AreDisplayUnits, IsOr, IsStop, part_unit, part_units};
ghost use Rattle.um_display.specs.PartView.{part_syntax, list_syntax, parts_syntax, units_answer, units_stop};

use crate::part::Part;
use crate::unit::{DisplayUnit, DisplayUnits, UnitsStop};
use crate::word::Parts;
use std::alloc::Global;
use um_measures::{Abbreviations, Measures, NameStop, NameTable, measures_of, resolved_unit};
use um_tree::{Name, Program};

/// The units that the parts state in a program with its abbreviations, or why the first part that states none doesn't.
///
/// Part by part the names of a unit text come before its range: `NoUnit` if a name is that of no measure and no
/// abbreviation, or it has a variable; `PowerRange` if a part of it has a power out of range. It takes time linear in
/// the parts and in the measures. The rule of measures is the F# specification's, chapter Units Of Measure.
pub fn display_units(
    alloc: Global,
    program: &Program,
    abbreviations: &Abbreviations,
    parts: &Parts,
) -> Result<DisplayUnits, UnitsStop>
    ensures { AreDisplayUnits (given (program_tree program.now) abbreviations.now) (parts_syntax parts.now)
        (units_answer result) }
{
    let measures = measures_of(alloc, program, abbreviations)?;
    let units = units_of(alloc, &measures, &parts.items);
    drop(measures);
    units
}

/// The same with the measures.
fn units_of(alloc: Global, measures: &Measures, parts: &[Part]) -> Result<DisplayUnits, UnitsStop>
    ensures { IsOr (part_units (short_unit measures.now) (list_syntax parts.now)) (units_answer result) }
{
    let mut items = Vec::new(alloc);
    match add_units(alloc, measures, parts, &mut items) {
        Ok(()) => Ok(DisplayUnits { items }),
        Err(stop) => {
            drop(items);
            Err(stop)
        }
    }
}

/// Adds the units of the parts.
fn add_units(
    alloc: Global,
    measures: &Measures,
    parts: &[Part],
    units: &mut Vec<DisplayUnit>,
) -> Result<(), UnitsStop>
    ensures units { IfOk result (λ _. (added : List DisplayUnit) × (units.new.items ≡ units.old.items ++ added)
        × (part_units (short_unit measures.now) (list_syntax parts.now) ≡ Ok added)) }
    ensures stop { IfErr result (IsStop (part_units (short_unit measures.now) (list_syntax parts.now))) }
{
    for i in 0..parts.len() {
        add_unit(alloc, measures, &parts[i], units)?;
    }
    Ok(())
}

/// Adds the unit of a part.
fn add_unit(
    alloc: Global,
    measures: &Measures,
    part: &Part,
    units: &mut Vec<DisplayUnit>,
) -> Result<(), UnitsStop>
    ensures unit { IfOk result (λ _. (added : DisplayUnit) × (units.new.items ≡ units.old.items ++ added ∷ [])
        × (part_unit (short_unit measures.now) (part_syntax part.now) ≡ Ok added)) }
    ensures stop { IfErr result (IsStop (part_unit (short_unit measures.now) (part_syntax part.now))) }
{
    let unit = unit_of(alloc, measures, part)?;
    Ok(units.push(unit)?)
}

/// The unit of a part.
fn unit_of(alloc: Global, measures: &Measures, part: &Part) -> Result<DisplayUnit, UnitsStop>
    ensures { IsOr (part_unit (short_unit measures.now) (part_syntax part.now)) result }
{
    let label = Name::from_slice(alloc, part.label.as_slice())?;
    match resolved_unit(alloc, measures, &NameTable::new(alloc), &part.unit) {
        Ok(unit) => Ok(DisplayUnit {
            label,
            size: part.size,
            unit,
        }),
        Err(stop) => {
            drop(label);
            Err(units_stop(stop))
        }
    }
}

/// Why a unit text states no unit.
fn units_stop(stop: NameStop) -> UnitsStop
    ensures { result ≡ units_stop stop }
{
    match stop {
        NameStop::Range { at: _ } => UnitsStop::PowerRange,
        NameStop::NoMemory => UnitsStop::NoMemory,
        NameStop::Unknown { at: _ }
        | NameStop::Twice { at: _ }
        | NameStop::WrongCount { at: _ }
        | NameStop::Hole { at: _ } => UnitsStop::NoUnit,
    }
}
