//! The parts of declarations.

ghost use Rattle.std.specs.Prelude.{◌≡◌, ◌∷◌, ◌++◌, [], true, Ok, IfOk, IfErr, OnOk, map};
ghost use Rattle.um_tree.specs.TypeTree.{note_tree};
ghost use Rattle.um_tree.specs.ProgramTree.{result_tree};
ghost use Rattle.um_tree.specs.RawTree.{var_syntax, binder_syntax, param_syntax, type_syntax, written_type};
ghost use Rattle.um_measures.specs.Faults.{and_then};
ghost use Rattle.um_names.specs.TypeNames.{resolved_type};
ghost use Rattle.um_names.specs.Resolution.{resolved_parameters, unless_repeated, resolved_result};
ghost use Rattle.um_measures.specs.Stops.{IsFirst};
ghost use Rattle.um_names.specs.Tables.{AreTables, known_of};

use crate::known::Tables;
use crate::types::note;
use std::alloc::Global;
use um_measures::{NameStop, NameTable, Scope};
use um_tree::{Note, RawParam, RawType, RawVar};

/// Adds the unit parameters of a record or a function, each once, in the order of their numbers.
pub fn add_unit_parameters(
    alloc: Global,
    names: &mut NameTable,
    raw: &[RawVar],
) -> Result<(), NameStop>
    ensures exact { OnOk result (resolved_parameters names.old (map var_syntax raw.now) ≡ Ok names.new) }
    ensures faults { IfErr result (IsFirst (resolved_parameters names.old (map var_syntax raw.now))) }
{
    for var in raw {
        if names.has(var.name.as_slice()) {
            return Err(NameStop::Twice { at: var.at });
        }
        names.add(alloc, var.name.as_slice())?;
    }
    Ok(())
}

/// The note of a parameter, whose name is looked at before its type; it is known from here on.
pub fn param(
    alloc: Global,
    tables: &Tables,
    variables: &NameTable,
    scope: &mut Scope,
    raw: &RawParam,
) -> Result<Note, NameStop>
    requires { AreTables tables.now }
    ensures exact { IfOk result (λ n. and_then (unless_repeated scope.old (binder_syntax raw.now.binder))
        (λ _. resolved_type (known_of tables.now) variables.now true (type_syntax raw.now.ty)) ≡ Ok (note_tree n)) }
    ensures faults { IfErr result (IsFirst (and_then (unless_repeated scope.old (binder_syntax raw.now.binder))
        (λ _. resolved_type (known_of tables.now) variables.now true (type_syntax raw.now.ty)))) }
    ensures scope { OnOk result (scope.new ≡ scope.old ++ raw.now.binder.name ∷ []) }
{
    if scope.repeats(&raw.binder) {
        return Err(NameStop::Twice { at: raw.binder.at });
    }
    scope.push(alloc, &raw.binder)?;
    note(alloc, tables, variables, true, &raw.ty)
}

/// The note of a result, where one is written.
pub fn result_note(
    alloc: Global,
    tables: &Tables,
    variables: &NameTable,
    raw: &Option<RawType>,
) -> Result<Option<Note>, NameStop>
    requires { AreTables tables.now }
    ensures exact { IfOk result (λ n. resolved_result (known_of tables.now) variables.now (written_type raw.now)
        ≡ Ok (result_tree n)) }
    ensures faults { IfErr result (IsFirst (resolved_result (known_of tables.now) variables.now
        (written_type raw.now))) }
{
    match raw {
        None => Ok(None),
        Some(ty) => Ok(Some(note(alloc, tables, variables, true, ty)?)),
    }
}
