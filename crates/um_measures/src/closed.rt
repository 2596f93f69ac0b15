//! The measures of a program and its abbreviations, and the units of closed unit texts.

ghost use Rattle.std.specs.Prelude.{◌≡◌, ◌∷◌, ◌++◌, [], ℕ, List, Ok, IfOk, IfErr};
ghost use Rattle.um_units.specs.declared.Atom.TheVariants.{Base};
ghost use Rattle.um_units.specs.PowerMap.{atom};
ghost use Rattle.um_tree.specs.ProgramTree.{program_tree};
ghost use Rattle.um_tree.specs.RawTree.{unit_syntax};
ghost use Rattle.um_measures.specs.Known.{number_of, short_unit, measure_unit};
ghost use Rattle.um_measures.specs.ClosedUnits.{base_unit, first_of_both, given, closed_note};
ghost use Rattle.um_measures.specs.Stops.{IsFirst};

use crate::abbreviation::{Abbreviation, Abbreviations};
use crate::digest::NameDigest;
use crate::digests::program_digest;
use crate::measures::Measures;
use crate::stop::NameStop;
use crate::table::NameTable;
use crate::unit::resolved_unit;
use std::alloc::{AllocError, Global};
use um_tree::{Name, Program, RawUnit, UnitNote};
use um_units::{Atom, Unit};

/// The base units of these names as measures, with the digest of all names that may be added.
fn base_measures(alloc: Global, digest: NameDigest, bases: &[Name]) -> Result<Measures, AllocError>
    ensures { IfOk result (λ measures. (x : List ℕ) → short_unit measures x ≡ base_unit (number_of bases.now x)) }
{
    if bases.len() >= u32::MAX as usize {
        return Err(AllocError);
    }
    let mut measures = Measures::new(alloc, digest);
    for i in 0..bases.len() {
        measures = with_base(alloc, measures, &bases[i], i as u32)?;
    }
    Ok(measures)
}

/// These measures, and after them the base unit of this number.
fn with_base(
    alloc: Global,
    measures: Measures,
    name: &Name,
    number: u32,
) -> Result<Measures, AllocError>
    ensures { IfOk result (λ more. (x : List ℕ)
        → short_unit more x ≡ short_unit (measures ++ record { name = name.now; unit = atom (Base number) } ∷ []) x) }
{
    let unit = Unit::atom(alloc, Atom::Base(number))?;
    measures.with(alloc, name.as_slice(), unit)
}

/// These measures, and after them the abbreviation.
fn with_abbreviation(
    alloc: Global,
    measures: Measures,
    short: &Abbreviation,
) -> Result<Measures, AllocError>
    ensures { IfOk result (λ more. (x : List ℕ) → short_unit more x ≡ short_unit (measures ++ short.now ∷ []) x) }
{
    let unit = short.unit.copy(alloc)?;
    measures.with(alloc, short.name.as_slice(), unit)
}

/// These measures, and after them the abbreviations.
fn with_abbreviations(
    alloc: Global,
    bases: Measures,
    shorts: &[Abbreviation],
) -> Result<Measures, AllocError>
    ensures { IfOk result (λ measures. (x : List ℕ)
        → short_unit measures x ≡ first_of_both (short_unit bases x) (short_unit shorts.now x)) }
{
    let mut measures = bases;
    for i in 0..shorts.len() {
        measures = with_abbreviation(alloc, measures, &shorts[i])?;
    }
    Ok(measures)
}

/// The measures of a program and its abbreviations: the base units, and after them the abbreviations, so that the
/// first of a name counts.
///
/// It takes time for all of them. The one error is that memory is wanting, also where the base units are so many that
/// no numbers of 32 bits are left for them.
pub fn measures_of(
    alloc: Global,
    program: &Program,
    abbreviations: &Abbreviations,
) -> Result<Measures, AllocError>
    ensures { IfOk result (λ measures. (x : List ℕ)
        → short_unit measures x ≡ measure_unit (given (program_tree program.now) abbreviations.now) x) }
{
    let digest = program_digest(program, abbreviations);
    let bases = base_measures(alloc, digest, program.bases.as_slice())?;
    with_abbreviations(alloc, bases, abbreviations.as_slice())
}

/// The unit of a text in which no unit variable is known, as a note.
///
/// A measure stands for the first of its name among the program's base units and then the abbreviations. Unknown comes
/// at the first name or variable that isn't known, and Range at the text's first token where each is known and a part
/// has a power out of range. It takes time for all of them; the rule of measures is the F# specification's, Units Of
/// Measure, and that abbreviations are replaced is this project's own.
pub fn closed_unit(
    alloc: Global,
    program: &Program,
    abbreviations: &Abbreviations,
    raw: &RawUnit,
) -> Result<UnitNote, NameStop>
    ensures exact { IfOk result (λ note. closed_note (program_tree program.now) abbreviations.now
        (unit_syntax raw.now) ≡ Ok note) }
    ensures faults { IfErr result (IsFirst (closed_note (program_tree program.now) abbreviations.now
        (unit_syntax raw.now))) }
{
    let measures = measures_of(alloc, program, abbreviations)?;
    let unit = resolved_unit(alloc, &measures, &NameTable::new(alloc), raw)?;
    Ok(UnitNote::Written(unit))
}
