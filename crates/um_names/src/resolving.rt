//! The program of a raw tree.

ghost use Rattle.std.specs.Prelude.{◌≡◌, Ok, IfOk, IfErr, OnOk, map};
ghost use Rattle.um_tree.specs.ProgramTree.{program_tree};
ghost use Rattle.um_tree.specs.RawTree.{decl_syntax, program_syntax};
ghost use Rattle.um_names.specs.Resolution.{resolved_program, resolved_abbreviations};
ghost use Rattle.um_names.specs.Resolution.{resolution, resolved_decl, resolved_decls};
ghost use Rattle.um_tree.specs.Formed.{IsFormed};
ghost use Rattle.um_names.specs.Readable.{IsReadable};
ghost use Rattle.um_measures.specs.Stops.{IsFirst};
ghost use Rattle.um_names.specs.Tables.{AreTables, known_of};

use crate::declare::{declare, declare_last};
use crate::known::Tables;
use std::alloc::{AllocError, Global};
use um_measures::{Abbreviations, NameStop, declarations_digest};
use um_tree::{Functions, Names, Program, RawDecl, RawProgram, Records};

/// Takes these declarations into the tables, one after another.
fn declare_all(alloc: Global, tables: &mut Tables, raw: &[RawDecl]) -> Result<(), NameStop>
    requires { AreTables tables.old }
    ensures exact { OnOk result (resolved_decls (known_of tables.old) (map decl_syntax raw.now)
        ≡ Ok (known_of tables.new)) }
    ensures faults { IfErr result (IsFirst (resolved_decls (known_of tables.old) (map decl_syntax raw.now))) }
{
    for decl in raw {
        declare(alloc, tables, decl)?;
    }
    Ok(())
}

/// The tables after these declarations.
fn declarations(alloc: Global, raw: &[RawDecl]) -> Result<Tables, NameStop>
    ensures exact { IfOk result (λ t. resolution (map decl_syntax raw.now) ≡ Ok (known_of t)) }
    ensures faults { IfErr result (IsFirst (resolution (map decl_syntax raw.now))) }
{
    let mut tables = Tables::new(alloc, declarations_digest(raw));
    match declare_all(alloc, &mut tables, raw) {
        Ok(()) => Ok(tables),
        Err(stop) => {
            drop(tables);
            Err(stop)
        }
    }
}

/// Takes these declarations into the tables, one after another. The memory of each serves the program of the next.
fn declare_each(alloc: Global, tables: &mut Tables, raw: Vec<RawDecl>) -> Result<(), NameStop>
    requires { AreTables tables.old }
    ensures exact { OnOk result (resolved_decls (known_of tables.old) (map decl_syntax raw.items)
        ≡ Ok (known_of tables.new)) }
    ensures faults { IfErr result (IsFirst (resolved_decls (known_of tables.old) (map decl_syntax raw.items))) }
{
    for decl in raw {
        declare_last(alloc, tables, decl)?;
    }
    Ok(())
}

/// The tables after these declarations, which are handed over.
fn tables_of(alloc: Global, raw: Vec<RawDecl>) -> Result<Tables, NameStop>
    ensures exact { IfOk result (λ t. resolution (map decl_syntax raw.items) ≡ Ok (known_of t)) }
    ensures faults { IfErr result (IsFirst (resolution (map decl_syntax raw.items))) }
{
    let mut tables = Tables::new(alloc, declarations_digest(&raw));
    match declare_each(alloc, &mut tables, raw) {
        Ok(()) => Ok(tables),
        Err(stop) => {
            drop(tables);
            Err(stop)
        }
    }
}

/// The program of a raw tree, with its abbreviations.
#[derive(Drop)]
pub struct Resolved {
    pub program: Program,
    /// In order of declaration, each with its closed unit.
    pub abbreviations: Abbreviations,
}

/// The program and the abbreviations of these tables.
fn known_parts(tables: Tables) -> Resolved
    ensures program { program_tree result.program ≡ (known_of tables).program }
    ensures abbreviations { result.abbreviations ≡ (known_of tables).shorts }
{
    Resolved {
        program: Program {
            bases: Names::from_vec(tables.bases),
            records: Records {
                items: tables.records,
            },
            functions: Functions {
                items: tables.functions,
            },
        },
        abbreviations: Abbreviations::from_vec(tables.shorts),
    }
}

impl Resolved {
    /// Gives its memory back. A crate that calls this has no proof of its own of how the trees are let go.
    pub fn discard(self) {
        drop(self);
    }
}

/// The program of a raw tree, each of whose names is known where it stands, and its abbreviations.
///
/// It takes time linear in the text, and refuses what [`resolve`] refuses.
pub fn resolve_all(alloc: Global, raw: &RawProgram) -> Result<Resolved, NameStop>
    ensures exact { IfOk result (λ all. resolved_program (program_syntax raw.now) ≡ Ok (program_tree all.program)) }
    ensures formed { IfOk result (λ all. IsReadable (program_syntax raw.now) → IsFormed (program_tree all.program)) }
    ensures abbreviated { IfOk result (λ all. resolved_abbreviations (program_syntax raw.now)
        ≡ Ok all.abbreviations) }
    ensures faults { IfErr result (IsFirst (resolved_program (program_syntax raw.now))) }
{
    let tables = declarations(alloc, &raw.items)?;
    Ok(known_parts(tables))
}

/// The same of a raw tree that is handed over. Each declaration is let go after it was resolved, so that a tree and its
/// program don't stand side by side.
pub fn resolve_tree(alloc: Global, raw: RawProgram) -> Result<Resolved, NameStop>
    ensures exact { IfOk result (λ all. resolved_program (program_syntax raw) ≡ Ok (program_tree all.program)) }
    ensures formed { IfOk result (λ all. IsReadable (program_syntax raw) → IsFormed (program_tree all.program)) }
    ensures abbreviated { IfOk result (λ all. resolved_abbreviations (program_syntax raw) ≡ Ok all.abbreviations) }
    ensures faults { IfErr result (IsFirst (resolved_program (program_syntax raw))) }
{
    let tables = tables_of(alloc, raw.items)?;
    Ok(known_parts(tables))
}

/// The program of a raw tree, each of whose names is known where it stands.
///
/// A name is known from the end of its declaration on, and a `rec` function in its own body too. Measures,
/// abbreviations and records share one space of names. A refusal is the first in the order of the text, with its
/// place: Unknown at a name that isn't known, Twice at one that is declared again, WrongCount at a name with another
/// number of parts than declared, Hole at `_` where none may stand, Range at the first token of a unit text with a
/// part out of range. It takes time linear in the text. Measures and their spaces of names are the F#
/// specification's, Units Of Measure.
pub fn resolve(alloc: Global, raw: &RawProgram) -> Result<Program, NameStop>
    ensures exact { IfOk result (λ program. resolved_program (program_syntax raw.now) ≡ Ok (program_tree program)) }
    ensures formed { IfOk result (λ program. IsReadable (program_syntax raw.now) → IsFormed (program_tree program)) }
    ensures faults { IfErr result (IsFirst (resolved_program (program_syntax raw.now))) }
{
    match resolve_all(alloc, raw) {
        Ok(all) => Ok(all.program),
        Err(stop) => Err(stop),
    }
}

/// The abbreviations of a raw tree with their closed units, in order of declaration.
///
/// The program is the one that `resolve` gives for the tree. It takes time linear in the text.
pub fn abbreviations(
    alloc: Global,
    raw: &RawProgram,
    program: &Program,
) -> Result<Abbreviations, AllocError>
    requires given { resolved_program (program_syntax raw.now) ≡ Ok (program_tree program.now) }
    ensures exact { IfOk result (λ shorts. resolved_abbreviations (program_syntax raw.now) ≡ Ok shorts) }
{
    match declarations(alloc, &raw.items) {
        Ok(tables) => Ok(Abbreviations::from_vec(tables.shorts)),
        // The tree has a program, so memory alone can be wanting.
        Err(_) => Err(AllocError),
    }
}
