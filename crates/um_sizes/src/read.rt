//! The sizes of a program's base units.
ghost use Rattle.std.specs.Prelude.{◌≡◌, [], IsTrue, None, OnOk, Some, cond, length};
ghost use Rattle.um_tree.specs.Formed.{AreDistinct, IsFormed};
ghost use Rattle.um_tree.specs.ProgramTree.{program_tree};
ghost use Rattle.um_sizes.specs.BaseSizes.{AreScalesRead};
ghost use Rattle.um_sizes.specs.Parts.{parts_of};
ghost use Rattle.um_sizes.specs.ScaleWords.{is_scales};
ghost use Rattle.um_sizes.specs.Setting.{size_set, sizes_set};

use crate::cut::cut;
use crate::part::size_in;
use std::alloc::{AllocError, Global};
use um_measures::{NameTable, names_digest};
use um_scale::Scales;
use um_tree::{Name, Program};

/// Why a program's base units have no sizes by a word.
#[derive(Clone, Copy)]
pub enum ScalesRefusal {
    /// A name of the word is that of no base unit.
    NoBaseUnit,
    /// No memory was left.
    NoMemory,
}

impl From<AllocError> for ScalesRefusal {
    ghost use Rattle.std.specs.Prelude.{◌≡◌};
    ghost use Rattle.um_sizes.specs.declared.read.ScalesRefusal.TheVariants.{NoMemory};

    ghost from_gives = { λ _ refusal. refusal ≡ NoMemory };

    fn from(_error: AllocError) -> ScalesRefusal {
        ScalesRefusal::NoMemory
    }
}

/// The sizes that the word states of the program's base units; one that isn't named keeps the size 1.
///
/// The word states sizes, as [`crate::is_scales`] says. `NoBaseUnit` exactly if a name is that of no base unit, as
/// that of an abbreviation is none.
///
/// It takes time linear in the word and in the base units.
pub fn read_scales(alloc: Global, word: &str, program: &Program) -> Result<Scales, ScalesRefusal>
    requires word { IsTrue (is_scales word.now) }
    requires formed { IsFormed (program_tree program.now) }
    ensures { AreScalesRead (program_tree program.now).bases word.now result }
{
    let names = program.bases.as_slice();
    let digest = names_digest(names);
    let mut bases = NameTable::with_digest(alloc, digest);
    let answer = read_beside(alloc, word, names, &mut bases);
    drop(bases);
    answer
}

/// The sizes beside an empty table, to which the names of the base units are added.
fn read_beside(
    alloc: Global,
    word: &str,
    names: &[Name],
    bases: &mut NameTable,
) -> Result<Scales, ScalesRefusal>
    requires empty { bases.old ≡ [] }
    requires word { IsTrue (is_scales word.now) }
    requires once { AreDistinct names.now }
    ensures { AreScalesRead names.now word.now result }
{
    add_names(alloc, names, bases)?;
    let mut scales = Scales::ones(alloc, bases.count())?;
    if set_sizes(word, bases, &mut scales) {
        Ok(scales)
    } else {
        drop(scales);
        Err(ScalesRefusal::NoBaseUnit)
    }
}

/// Adds names, of which no two are equal, to an empty table.
fn add_names(alloc: Global, names: &[Name], table: &mut NameTable) -> Result<(), AllocError>
    requires empty { table.old ≡ [] }
    requires once { AreDistinct names.now }
    ensures { OnOk result (table.new ≡ names.now) }
{
    for name in names {
        table.add(alloc, name.as_slice())?;
    }
    Ok(())
}

/// Sets the size that each part of the word states; whether each is that of a base unit.
fn set_sizes(word: &str, bases: &NameTable, scales: &mut Scales) -> bool
    requires many { length scales.old ≡ length bases.now }
    ensures { sizes_set bases.now scales.old (parts_of word.now) ≡ cond result (Some scales.new) None }
{
    let mut rest = word;
    'parts: while let Some((part, more)) = cut(rest, ',') {
        if !set_size(part, bases, scales) {
            return false;
        }
        rest = more;
    }
    set_size(rest, bases, scales)
}

/// Sets the size that the part states; whether it is that of a base unit.
fn set_size(part: &str, bases: &NameTable, scales: &mut Scales) -> bool
    requires many { length scales.old ≡ length bases.now }
    ensures set { size_set bases.now scales.old part.now ≡ cond result (Some scales.new) None }
    ensures many { length scales.new ≡ length bases.now }
{
    let Some((name, number)) = size_in(part) else {
        return false;
    };
    match bases.number(name.as_bytes()) {
        Some(base) => {
            scales.set(base, number);
            true
        }
        None => false,
    }
}
