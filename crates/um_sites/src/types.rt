//! Unit texts and type texts.

ghost use Rattle.std.specs.Prelude.{◌≡◌, ◌++◌, [], true, false, OnOk, map};
ghost use Rattle.std.specs.List.{flat_map};
ghost use Rattle.um_tree.specs.RawTree.{decl_syntax, var_syntax, unit_syntax, units_in_order, note_syntax};
ghost use Rattle.um_tree.specs.RawTree.{written_note, type_syntax, written_type};
ghost use Rattle.um_sites.specs.Spaces.{variable_named};
ghost use Rattle.um_sites.specs.Sites.{unit_told, units_told, note_told, written_told, type_told, result_told};
ghost use Rattle.um_sites.specs.Sites.{number_told};

use crate::detail::NameDetail;
use crate::sites::{
    Asked, tell_field_hole, tell_number_hole, tell_units, tell_used, tell_variable,
};
use crate::spaces::Space;
use std::alloc::AllocError;
use um_tree::{RawNote, RawType, RawUnit, RawVar};

#[cycle(unit)]
fn unit(
    told: &mut Vec<NameDetail>,
    asked: &Asked,
    free: bool,
    variables: &[RawVar],
    raw: &RawUnit,
) -> Result<(), AllocError>
    ensures { OnOk result (told.new.items ≡ told.old.items ++ unit_told asked.now.fault
        (map decl_syntax asked.now.before.now) free (map variable_named (map var_syntax variables.now))
        (unit_syntax raw.now)) }
{
    match raw {
        RawUnit::One(_) => Ok(()),
        RawUnit::Name(at, name) => tell_used(told, asked, Space::Measures, *at, name),
        RawUnit::Var(at, name) => tell_variable(told, asked, free, variables, *at, name),
        RawUnit::Power(u, _) | RawUnit::Inverse(_, u) | RawUnit::Bracket(_, u) => {
            unit(told, asked, free, variables, u)
        }
        RawUnit::Side(all) => units(told, asked, free, variables, &all.items),
        RawUnit::Times(u, v) | RawUnit::Over(u, v) => two(told, asked, free, variables, u, v),
    }
}

#[cycle(unit)]
fn two(
    told: &mut Vec<NameDetail>,
    asked: &Asked,
    free: bool,
    variables: &[RawVar],
    u: &RawUnit,
    v: &RawUnit,
) -> Result<(), AllocError>
    ensures { OnOk result (told.new.items ≡ told.old.items ++ (unit_told asked.now.fault
        (map decl_syntax asked.now.before.now) free (map variable_named (map var_syntax variables.now))
        (unit_syntax u.now)
        ++ unit_told asked.now.fault (map decl_syntax asked.now.before.now) free
        (map variable_named (map var_syntax variables.now)) (unit_syntax v.now))) }
{
    unit(told, asked, free, variables, u)?;
    unit(told, asked, free, variables, v)
}

#[cycle(unit)]
fn units(
    told: &mut Vec<NameDetail>,
    asked: &Asked,
    free: bool,
    variables: &[RawVar],
    raw: &[RawUnit],
) -> Result<(), AllocError>
    ensures { OnOk result (told.new.items ≡ told.old.items ++ units_told asked.now.fault
        (map decl_syntax asked.now.before.now) free (map variable_named (map var_syntax variables.now))
        (units_in_order (map unit_syntax raw.now))) }
{
    for i in 0..raw.len() {
        unit(told, asked, free, variables, &raw[i])?;
    }
    Ok(())
}

/// The unit of an abbreviation or of a number, in which no variable is known.
pub(crate) fn closed_unit(
    told: &mut Vec<NameDetail>,
    asked: &Asked,
    raw: &RawUnit,
) -> Result<(), AllocError>
    ensures { OnOk result (told.new.items ≡ told.old.items ++ unit_told asked.now.fault
        (map decl_syntax asked.now.before.now) false [] (unit_syntax raw.now)) }
{
    unit(told, asked, false, &[], raw)
}

fn note(
    told: &mut Vec<NameDetail>,
    asked: &Asked,
    free: bool,
    variables: &[RawVar],
    raw: &RawNote,
) -> Result<(), AllocError>
    ensures { OnOk result (told.new.items ≡ told.old.items ++ note_told asked.now.fault
        (map decl_syntax asked.now.before.now) free (map variable_named (map var_syntax variables.now))
        (note_syntax raw.now)) }
{
    match raw {
        RawNote::Hole(at) => tell_field_hole(told, asked.fault, *at),
        RawNote::Unit(_, u) => unit(told, asked, free, variables, u),
    }
}

fn notes(
    told: &mut Vec<NameDetail>,
    asked: &Asked,
    free: bool,
    variables: &[RawVar],
    raw: &[RawNote],
) -> Result<(), AllocError>
    ensures { OnOk result (told.new.items ≡ told.old.items ++ flat_map (note_told asked.now.fault
        (map decl_syntax asked.now.before.now) free (map variable_named (map var_syntax variables.now)))
        (map note_syntax raw.now)) }
{
    for item in raw {
        note(told, asked, free, variables, item)?;
    }
    Ok(())
}

/// A type text. `free`: each unit variable is known; otherwise these are.
pub(crate) fn type_text(
    told: &mut Vec<NameDetail>,
    asked: &Asked,
    free: bool,
    variables: &[RawVar],
    raw: &RawType,
) -> Result<(), AllocError>
    ensures { OnOk result (told.new.items ≡ told.old.items ++ type_told asked.now.fault
        (map decl_syntax asked.now.before.now) free (map variable_named (map var_syntax variables.now))
        (type_syntax raw.now)) }
{
    match raw {
        RawType::Bool | RawType::Num(None) => Ok(()),
        RawType::Num(Some(unit)) => note(told, asked, free, variables, unit),
        RawType::Name(at, name, units) => {
            tell_used(told, asked, Space::Records, *at, name)?;
            tell_units(told, asked, *at, name, units.items.len())?;
            notes(told, asked, free, variables, &units.items)
        }
        RawType::List(inner) | RawType::Bracket(inner) => {
            type_text(told, asked, free, variables, inner)
        }
    }
}

/// A type text of a function, in which each unit variable is known.
pub(crate) fn free_type(
    told: &mut Vec<NameDetail>,
    asked: &Asked,
    raw: &RawType,
) -> Result<(), AllocError>
    ensures { OnOk result (told.new.items ≡ told.old.items ++ type_told asked.now.fault
        (map decl_syntax asked.now.before.now) true [] (type_syntax raw.now)) }
{
    type_text(told, asked, true, &[], raw)
}

/// The type text of a function's result.
pub(crate) fn result_type(
    told: &mut Vec<NameDetail>,
    asked: &Asked,
    raw: &Option<RawType>,
) -> Result<(), AllocError>
    ensures { OnOk result (told.new.items ≡ told.old.items ++ result_told asked.now.fault
        (map decl_syntax asked.now.before.now) true [] (written_type raw.now)) }
{
    match raw {
        None => Ok(()),
        Some(ty) => free_type(told, asked, ty),
    }
}

/// The unit of a number at this place.
pub(crate) fn number_unit(
    told: &mut Vec<NameDetail>,
    asked: &Asked,
    at: u32,
    raw: &Option<RawNote>,
) -> Result<(), AllocError>
    ensures { OnOk result (told.new.items ≡ told.old.items ++ number_told asked.now.fault
        (map decl_syntax asked.now.before.now) at (written_note raw.now)) }
{
    match raw {
        None => Ok(()),
        Some(RawNote::Hole(_)) => tell_number_hole(told, asked.fault, at),
        Some(RawNote::Unit(_, u)) => closed_unit(told, asked, u),
    }
}
