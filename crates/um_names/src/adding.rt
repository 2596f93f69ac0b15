//! What a declaration adds to the tables.

ghost use Rattle.std.specs.Prelude.{◌≡◌, ℕ, false, List, [], ◌∷◌, ◌++◌, IfOk, OnOk};
ghost use Rattle.um_tree.specs.ProgramTree.{function_tree};
ghost use Rattle.um_measures.specs.Known.{is_taken, is_among, short_unit, function_names};
ghost use Rattle.um_names.specs.Resolution.{with_base, with_short, with_function};
ghost use Rattle.um_names.specs.Tables.{AreTables, known_of};

use crate::known::Tables;
use std::alloc::{AllocError, Global};
use std::mem;
use um_measures::{Abbreviation, Measures, NameDigest};
use um_tree::{Function, Name};
use um_units::{Atom, Unit};

/// A copy of a name.
pub fn copied(alloc: Global, name: &Name) -> Result<Name, AllocError>
    ensures { IfOk result (λ copy. copy ≡ name.now) }
{
    Name::from_slice(alloc, name.as_slice())
}

// One more measure, after those before.
fn add_measure(
    alloc: Global,
    measures: &mut Measures,
    name: &Name,
    unit: Unit,
) -> Result<(), AllocError>
    ensures { OnOk result ((x : List ℕ)
        → short_unit measures.new x ≡ short_unit (measures.old ++ record { name = name.now; unit = unit } ∷ []) x) }
{
    let before = mem::replace(measures, Measures::new(alloc, NameDigest::new()));
    let more = before.with(alloc, name.as_slice(), unit)?;
    drop(mem::replace(measures, more));
    Ok(())
}

/// One more base unit, whose name is new.
pub fn add_base(alloc: Global, tables: &mut Tables, name: &Name) -> Result<(), AllocError>
    requires tables { AreTables tables.old }
    requires new { is_taken (known_of tables.old) name.now ≡ false }
    ensures tables { OnOk result (AreTables tables.new) }
    ensures known { OnOk result (known_of tables.new ≡ with_base (known_of tables.old) name.now) }
{
    if tables.bases.len() >= u32::MAX as usize {
        return Err(AllocError);
    }
    let unit = Unit::atom(alloc, Atom::Base(tables.bases.len() as u32))?;
    add_measure(alloc, &mut tables.measures, name, unit)?;
    let name = copied(alloc, name)?;
    Ok(tables.bases.push(name)?)
}

/// One more abbreviation.
pub fn add_short(
    alloc: Global,
    tables: &mut Tables,
    name: &Name,
    unit: Unit,
) -> Result<(), AllocError>
    requires tables { AreTables tables.old }
    ensures tables { OnOk result (AreTables tables.new) }
    ensures known { OnOk result (known_of tables.new ≡ with_short (known_of tables.old) name.now unit) }
{
    let measure = unit.copy(alloc)?;
    add_measure(alloc, &mut tables.measures, name, measure)?;
    let name = copied(alloc, name)?;
    Ok(tables.shorts.push(Abbreviation { name, unit })?)
}

/// One more function, whose name is new.
pub fn add_function(
    alloc: Global,
    tables: &mut Tables,
    function: Function,
) -> Result<(), AllocError>
    requires tables { AreTables tables.old }
    requires new { is_among (function_names (known_of tables.old).program.functions) function.name ≡ false }
    ensures tables { OnOk result (AreTables tables.new) }
    ensures known { OnOk result (known_of tables.new ≡ with_function (known_of tables.old) (function_tree function)) }
{
    match tables.function_names.add(alloc, function.name.as_slice()) {
        Ok(()) => Ok(tables.functions.push(function)?),
        Err(error) => {
            drop(function);
            Err(error)
        }
    }
}
