//! Calls by their words, of a program with its tables of names.
ghost use Rattle.std.specs.Prelude.{◌≡◌, ◌≤◌, ℕ, All, IfOk, List, length, map, string_bytes};
ghost use Rattle.um_tree.specs.Formed.{AreDistinct};
ghost use Rattle.um_tree.specs.ProgramTree.{function_tree, program_tree};
ghost use Rattle.um_measures.specs.Known.{function_names};
ghost use Rattle.um_value.specs.KnownNames.{known_in};
ghost use Rattle.um_infer.specs.Answers.{scheme_trees};
ghost use Rattle.um_infer.specs.Inference.{all_schemes, infer};
ghost use Rattle.um_run.specs.Calls.{AreClosedUnits, IsCallOf, call_tree, call_answer};
ghost use Rattle.um_run.specs.Callable.{AreTablesOf, IsCallable};
ghost use Rattle.um_run.specs.Laws.{IsTypedCall};

use crate::callable::{CallTables, Callable};
use crate::read::read_known_call;
use crate::{Call, CallRefusal};
use std::alloc::{AllocError, Global};
use um_measures::{Abbreviations, NameDigest, NameTable, measures_of};
use um_shape::Shaped;
use um_tree::{Function, Schemes};
use um_value::known_names;

/// The tables of the names of a program and its abbreviations. It takes time for all of them. Want of memory is the one
/// error.
pub fn tables_of(
    alloc: Global,
    shaped: &Shaped,
    abbreviations: &Abbreviations,
) -> Result<CallTables, AllocError>
    ensures { IfOk result (λ tables. AreTablesOf (program_tree shaped.now) abbreviations.now tables) }
{
    let program = shaped.program();
    let functions = function_table(alloc, &program.functions.items)?;
    match measures_of(alloc, program, abbreviations) {
        Ok(measures) => Ok(CallTables {
            measures,
            functions,
        }),
        Err(error) => {
            drop(functions);
            Err(error)
        }
    }
}

/// The program with the tables of its names, which must be those of [`tables_of`]. Takes no memory.
pub fn callable_of<'a>(
    shaped: &'a Shaped,
    schemes: &'a Schemes,
    abbreviations: &'a Abbreviations,
    tables: &'a CallTables,
) -> Callable<'a>
    requires inferred { infer (program_tree shaped.now) ≡ all_schemes (scheme_trees schemes.now) }
    requires closed { AreClosedUnits (length (program_tree shaped.now).bases) abbreviations.now }
    requires tables { AreTablesOf (program_tree shaped.now) abbreviations.now tables.now }
    ensures callable { IsCallable result }
    ensures program { result.shaped.now ≡ shaped.now }
    ensures schemes { result.schemes.now ≡ schemes.now }
    ensures abbreviations { (known_in result.names).shorts ≡ abbreviations.now }
{
    let names = known_names(shaped.program(), abbreviations, &tables.measures);
    Callable {
        shaped,
        schemes,
        names,
        functions: &tables.functions,
    }
}

/// The table of the functions' names, of which no two are equal.
fn function_table(alloc: Global, functions: &[Function]) -> Result<NameTable, AllocError>
    requires once { AreDistinct (function_names (map function_tree functions.now)) }
    ensures { IfOk result (λ names. names ≡ function_names (map function_tree functions.now)) }
{
    let mut names = NameTable::with_digest(alloc, functions_digest(functions));
    for function in functions {
        names.add(alloc, function.name.as_slice())?;
    }
    Ok(names)
}

/// The digest of the functions' names.
fn functions_digest(functions: &[Function]) -> NameDigest {
    let mut digest = NameDigest::new();
    for function in functions {
        digest.add(function.name.as_slice());
    }
    digest
}

/// The call of the function of this name with the arguments that the texts are.
///
/// As [`crate::read_call`], which has the errors; its time depends on the words and the function alone.
pub fn read_call_of(
    alloc: Global,
    callable: &Callable,
    name: &str,
    texts: &[String],
) -> Result<Call, CallRefusal>
    requires callable { IsCallable callable.now }
    requires short { All (λ (text : List ℕ). length text ≤ 1048576) (map string_bytes texts.now) }
    ensures exact { IsCallOf (program_tree callable.now.shaped.now) (known_in callable.now.names).shorts
        (scheme_trees callable.now.schemes.now) name.now (map string_bytes texts.now) (call_answer result) }
    ensures typed { IfOk result (λ call. IsTypedCall (program_tree callable.now.shaped.now) (call_tree call)) }
{
    match callable.functions.number(name.as_bytes()) {
        Some(function) => read_known_call(
            alloc,
            callable.shaped,
            callable.schemes,
            &callable.names,
            function,
            texts,
        ),
        None => Err(CallRefusal::NoFunction),
    }
}
