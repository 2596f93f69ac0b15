//! The parameters of functions.

ghost use Rattle.std.specs.Prelude.{◌≡◌, [], Ok, IfOk, IfErr, map};
ghost use Rattle.um_tree.specs.TypeTree.{note_tree};
ghost use Rattle.um_tree.specs.RawTree.{param_syntax};
ghost use Rattle.um_names.specs.Resolution.{resolved_params};
ghost use Rattle.um_measures.specs.Stops.{IsFirst};
ghost use Rattle.um_names.specs.Tables.{AreTables, known_of};

use crate::known::Tables;
use crate::parts::param;
use std::alloc::Global;
use um_measures::{NameStop, NameTable, Scope};
use um_tree::{Note, RawParam};

/// The notes of parameters, and the scope of their names.
#[derive(Drop)]
pub(crate) struct Parameters {
    pub notes: Vec<Note>,
    pub scope: Scope,
}

/// The parameters of a function, each looked at after those before it.
pub fn params(
    alloc: Global,
    tables: &Tables,
    variables: &NameTable,
    raw: &[RawParam],
) -> Result<Parameters, NameStop>
    requires { AreTables tables.now }
    ensures exact { IfOk result (λ p. resolved_params (known_of tables.now) variables.now [] (map param_syntax raw.now)
        ≡ Ok (map note_tree p.notes.items)) }
    ensures faults { IfErr result (IsFirst (resolved_params (known_of tables.now) variables.now []
        (map param_syntax raw.now))) }
    ensures scope { IfOk result (λ p. p.scope ≡ map (λ q. q.binder.name) (map param_syntax raw.now)) }
{
    let mut scope = Scope::new(alloc);
    let mut notes = Vec::new(alloc);
    notes.reserve(raw.len())?;
    for p in raw {
        notes.push(param(alloc, tables, variables, &mut scope, p)?)?;
    }
    Ok(Parameters { notes, scope })
}
