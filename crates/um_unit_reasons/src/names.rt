//! The names of a function's named unit variables, as it is written.

ghost use Rattle.std.specs.Prelude.{◌≡◌, ◌-◌, IfOk, length, map, slice_get};
ghost use Rattle.std.specs.Option.{option_map};
ghost use Rattle.um_tree.specs.RawTree.{decl_syntax, program_syntax, whole_function_syntax};
ghost use Rattle.um_unit_reasons.specs.VariableNames.{function_of, functions_of, variables_of, function_variables};

use std::alloc::{AllocError, Global};
use um_measures::{NameTable, function_names, named_variables};
use um_tree::{RawDecl, RawFunction, RawProgram};

/// The names of the named variables of function `i`, in the order of their numbers.
pub(crate) fn function_variables(
    alloc: Global,
    raw: &RawProgram,
    i: u32,
) -> Result<NameTable, AllocError>
    ensures { IfOk result (λ names. names ≡ function_variables (program_syntax raw.now) i) }
{
    match function_at(&raw.items, i) {
        Some(function) => variables_of(alloc, function),
        None => Ok(NameTable::new(alloc)),
    }
}

/// Function `i` of these declarations, if there is one.
fn function_at(items: &[RawDecl], i: u32) -> Option<&RawFunction>
    ensures { option_map (λ f. whole_function_syntax f.now) result
        ≡ slice_get (functions_of (map decl_syntax items.now)) i }
{
    let mut left = i;
    for decl in items {
        match function_in(decl, left) {
            Some(function) => return Some(function),
            None => left -= functions_in(decl),
        }
    }
    None
}

/// The function that is declared, if none is left to be passed.
fn function_in(decl: &RawDecl, left: u32) -> Option<&RawFunction>
    ensures { option_map (λ f. whole_function_syntax f.now) result
        ≡ slice_get (function_of (decl_syntax decl.now)) left }
{
    match decl {
        RawDecl::Base(_, _) | RawDecl::Short(_, _, _) | RawDecl::Record(_, _, _, _) => None,
        RawDecl::Function(function) => {
            if left == 0 {
                return Some(function);
            }
            None
        }
    }
}

/// How many functions are declared: one or none.
fn functions_in(decl: &RawDecl) -> u32
    ensures { result ≡ length (function_of (decl_syntax decl.now)) }
{
    match decl {
        RawDecl::Base(_, _) | RawDecl::Short(_, _, _) | RawDecl::Record(_, _, _, _) => 0,
        RawDecl::Function(_) => 1,
    }
}

fn variables_of(alloc: Global, function: &RawFunction) -> Result<NameTable, AllocError>
    ensures { IfOk result (λ names. names ≡ variables_of (Some (whole_function_syntax function.now))) }
{
    let mut parameters = NameTable::with_digest(alloc, function_names(function).digest);
    for variable in &function.units.items {
        parameters.add(alloc, variable.name.as_slice())?;
    }
    named_variables(alloc, parameters, function)
}
