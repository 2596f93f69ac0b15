//! The types of signature texts.

ghost use Rattle.std.specs.Prelude.{◌≡◌, ◌≢◌, ℕ, false, Ok, IfOk, IfErr, map};
ghost use Rattle.std.specs.List.{flat_map};
ghost use Rattle.um_tree.specs.Formed.{IsFormed};
ghost use Rattle.um_tree.specs.ProgramTree.{program_tree};
ghost use Rattle.um_tree.specs.RawTree.{note_syntax, written_note, type_syntax, type_syntaxes};
ghost use Rattle.um_tree.specs.TypeTree.{type_tree, type_trees};
ghost use Rattle.um_measures.specs.ClosedUnits.{given};
ghost use Rattle.um_sig.specs.SignatureNames.{SignatureTypes, note_names, all_note_names, number_names, type_names};
ghost use Rattle.um_sig.specs.SignatureNames.{all_type_names, one_type, resolved_types, signature_variables};
ghost use Rattle.um_sig.specs.SignatureNames.{resolved_signature};
ghost use Rattle.um_measures.specs.declared.stop.NameStop.TheVariants.{Twice};
ghost use Rattle.um_measures.specs.Stops.{IsFirst};
ghost use Rattle.um_names.specs.Tables.{AreTables, known_of};

use crate::heads::heads;
use std::alloc::{AllocError, Global};
use um_measures::{Abbreviations, NameStop, NameTable, add_type_variables, types_digest};
use um_names::{Tables, note, written};
use um_tree::{Program, RawNote, RawType, RawTypes, Ty, Types};

/// The first fault of what stands between `<` and `>` besides a range.
fn note_names(tables: &Tables, variables: &NameTable, raw: &RawNote) -> Result<(), NameStop>
    requires { AreTables tables.now }
    ensures exact { IfOk result (λ done. note_names (known_of tables.now) variables.now (note_syntax raw.now)
        ≡ Ok done) }
    ensures faults { IfErr result (IsFirst (note_names (known_of tables.now) variables.now (note_syntax raw.now))) }
{
    match raw {
        RawNote::Hole(at) => Err(NameStop::Hole { at: *at }),
        RawNote::Unit(_, unit) => match tables.unknown(variables, unit) {
            Some(at) => Err(NameStop::Unknown { at }),
            None => Ok(()),
        },
    }
}

/// Note by note.
fn all_note_names(tables: &Tables, variables: &NameTable, raw: &[RawNote]) -> Result<(), NameStop>
    requires { AreTables tables.now }
    ensures exact { IfOk result (λ done. all_note_names (known_of tables.now) variables.now
        (map note_syntax raw.now) ≡ Ok done) }
    ensures faults { IfErr result (IsFirst (all_note_names (known_of tables.now) variables.now
        (map note_syntax raw.now))) }
{
    for text in raw {
        note_names(tables, variables, text)?;
    }
    Ok(())
}

/// The first fault of a type text besides a range.
fn type_names(tables: &Tables, variables: &NameTable, raw: &RawType) -> Result<(), NameStop>
    requires { AreTables tables.now }
    ensures exact { IfOk result (λ done. type_names (known_of tables.now) variables.now (type_syntax raw.now)
        ≡ Ok done) }
    ensures faults { IfErr result (IsFirst (type_names (known_of tables.now) variables.now (type_syntax raw.now))) }
{
    match raw {
        RawType::Bool | RawType::Num(None) => Ok(()),
        RawType::Num(Some(unit)) => note_names(tables, variables, unit),
        RawType::Name(at, name, units) => {
            tables.record(name.as_slice(), units.items.len(), *at)?;
            all_note_names(tables, variables, &units.items)
        }
        RawType::List(inner) | RawType::Bracket(inner) => type_names(tables, variables, inner),
    }
}

/// Type by type.
fn all_type_names(tables: &Tables, variables: &NameTable, raw: &[RawType]) -> Result<(), NameStop>
    requires { AreTables tables.now }
    ensures exact { IfOk result (λ done. all_type_names (known_of tables.now) variables.now
        (map type_syntax raw.now) ≡ Ok done) }
    ensures faults { IfErr result (IsFirst (all_type_names (known_of tables.now) variables.now
        (map type_syntax raw.now))) }
{
    for text in raw {
        type_names(tables, variables, text)?;
    }
    Ok(())
}

/// The unit variables of type texts, in the order of their numbers.
#[tactic(auto, using(um_measures::proofs::Occurrences::both_occur, um_measures::proofs::Occurrences::occurrences_append))]
fn signature_variables(alloc: Global, raw: &[RawType]) -> Result<NameTable, AllocError>
    ensures { IfOk result (λ names. names ≡ signature_variables (map type_syntax raw.now)) }
{
    let mut names = NameTable::with_digest(alloc, types_digest(raw));
    for ty in raw {
        add_type_variables(&mut names, alloc, ty)?;
    }
    Ok(names)
}

/// The types of type texts.
fn types(
    alloc: Global,
    tables: &Tables,
    variables: &NameTable,
    raw: &[RawType],
) -> Result<Vec<Ty>, NameStop>
    requires { AreTables tables.now }
    ensures exact { IfOk result (λ types. resolved_types (known_of tables.now) variables.now (map type_syntax raw.now)
        ≡ Ok (map type_tree types.items)) }
    ensures faults { IfErr result (IsFirst (resolved_types (known_of tables.now) variables.now
        (map type_syntax raw.now))) }
{
    let mut types = Vec::new(alloc);
    for text in raw {
        types.push(type_of(alloc, tables, variables, text)?)?;
    }
    Ok(types)
}

/// The type of a type text.
fn type_of(
    alloc: Global,
    tables: &Tables,
    variables: &NameTable,
    raw: &RawType,
) -> Result<Ty, NameStop>
    requires { AreTables tables.now }
    ensures exact { IfOk result (λ ty. one_type (known_of tables.now) variables.now (type_syntax raw.now)
        ≡ Ok (type_tree ty)) }
    ensures faults { IfErr result (IsFirst (one_type (known_of tables.now) variables.now (type_syntax raw.now))) }
{
    let note = note(alloc, tables, variables, false, raw)?;
    Ok(written(alloc, &note)?)
}

/// The types of type texts and the number of their unit variables, with these tables.
fn signature(alloc: Global, tables: &Tables, raw: &[RawType]) -> Result<(Types, u32), NameStop>
    requires { AreTables tables.now }
    ensures exact { IfOk result (λ found. resolved_signature (known_of tables.now) (map type_syntax raw.now)
        ≡ Ok (record { types = type_trees found.0; vars = found.1 })) }
    ensures faults { IfErr result (IsFirst (resolved_signature (known_of tables.now) (map type_syntax raw.now))) }
{
    let variables = signature_variables(alloc, raw)?;
    all_type_names(tables, &variables, raw)?;
    let items = types(alloc, tables, &variables, raw)?;
    Ok((Types { items }, variables.count()))
}

/// The types of a signature text and the number of their unit variables, which are numbered by first occurrence.
///
/// Measures stand for the first of their name among the program's base units and then the abbreviations. First comes
/// the first fault of the whole text besides a range, with its place: Unknown at a measure or record that isn't known,
/// WrongCount at the name of a record with another number of units than declared, Hole at `_`. Else Range comes at the
/// first token of the first unit text with a part out of range. Twice never comes, since a text declares nothing. It
/// takes time linear in the program and the text.
pub fn types_of(
    alloc: Global,
    program: &Program,
    abbreviations: &Abbreviations,
    raw: &RawTypes,
) -> Result<(Types, u32), NameStop>
    requires formed { IsFormed (program_tree program.now) }
    ensures exact { IfOk result (λ found. resolved_signature (given (program_tree program.now) abbreviations.now)
        (type_syntaxes raw.now) ≡ Ok (record { types = type_trees found.0; vars = found.1 })) }
    ensures faults { IfErr result (IsFirst (resolved_signature (given (program_tree program.now) abbreviations.now)
        (type_syntaxes raw.now))) }
    ensures never_twice { IfErr result (λ stop. (at : ℕ) → stop ≢ Twice at) }
{
    let tables = heads(alloc, program, abbreviations)?;
    let found = signature(alloc, &tables, &raw.items);
    tables.discard();
    found
}
