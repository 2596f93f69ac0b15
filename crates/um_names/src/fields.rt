//! The fields of records.

ghost use Rattle.std.specs.Prelude.{◌≡◌, [], Ok, IfOk, IfErr, map};
ghost use Rattle.um_tree.specs.ProgramTree.{field_tree};
ghost use Rattle.um_tree.specs.RawTree.{field_decl_syntax};
ghost use Rattle.um_names.specs.Resolution.{resolved_field_decls};
ghost use Rattle.um_names.specs.Parts.{resolved_field_decl};
ghost use Rattle.um_measures.specs.Stops.{IsFirst};
ghost use Rattle.um_names.specs.Tables.{AreTables, known_of};

use crate::adding::copied;
use crate::known::Tables;
use crate::types::{note, written};
use std::alloc::Global;
use um_measures::{NameStop, NameTable, fields_digest};
use um_tree::{FieldDecl, RawFieldDecl};

/// A field, whose name is new among all fields and among those of its own record.
#[tactic(auto, using(crate::proofs::FieldDecls::field_known))]
fn field_decl(
    alloc: Global,
    tables: &Tables,
    variables: &NameTable,
    own: &NameTable,
    raw: &RawFieldDecl,
) -> Result<FieldDecl, NameStop>
    requires { AreTables tables.now }
    ensures exact { IfOk result (λ f. resolved_field_decl (known_of tables.now) variables.now own.now
        (field_decl_syntax raw.now) ≡ Ok (field_tree f)) }
    ensures faults { IfErr result (IsFirst (resolved_field_decl (known_of tables.now) variables.now own.now
        (field_decl_syntax raw.now))) }
{
    if tables.field(raw.name.as_slice()).is_some() || own.has(raw.name.as_slice()) {
        return Err(NameStop::Twice { at: raw.at });
    }
    let note = note(alloc, tables, variables, false, &raw.ty)?;
    let ty = written(alloc, &note)?;
    Ok(FieldDecl {
        name: copied(alloc, &raw.name)?,
        ty,
    })
}

/// The fields of a record.
pub fn field_decls(
    alloc: Global,
    tables: &Tables,
    variables: &NameTable,
    raw: &[RawFieldDecl],
) -> Result<Vec<FieldDecl>, NameStop>
    requires { AreTables tables.now }
    ensures exact { IfOk result (λ fs. resolved_field_decls (known_of tables.now) variables.now []
        (map field_decl_syntax raw.now) ≡ Ok (map field_tree fs.items)) }
    ensures faults { IfErr result (IsFirst (resolved_field_decls (known_of tables.now) variables.now []
        (map field_decl_syntax raw.now))) }
{
    let mut own = NameTable::with_digest(alloc, fields_digest(raw));
    let mut fields = Vec::new(alloc);
    fields.reserve(raw.len())?;
    for text in raw {
        fields.push(field_decl(alloc, tables, variables, &own, text)?)?;
        own.add(alloc, text.name.as_slice())?;
    }
    Ok(fields)
}
