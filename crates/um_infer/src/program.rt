//! The schemes of a program.
ghost use Rattle.std.specs.Prelude.{◌≡◌, ◌<◌, ◌≤◌, length, slice_get, Some};
ghost use Rattle.um_tree.specs.ProgramTree.{FunctionTree, program_tree};
ghost use Rattle.um_tree.specs.Formed.{IsFormed};
ghost use Rattle.um_rows.specs.Judgement.{judge};
ghost use Rattle.um_rows.specs.Solutions.{HaveSchemes};
ghost use Rattle.um_infer.specs.Answers.{IsFirstInferred, IsInferred, SaysOfTypings, scheme_trees};
ghost use Rattle.um_infer.specs.Forming.{IsAnswer};
ghost use Rattle.um_infer.specs.Refusals.{stop_of};

use crate::InferStop;
use crate::forming::formed_scheme;
use std::alloc::Global;
use um_rows::rows;
use um_shape::Shaped;
use um_solving::Refusal;
use um_tree::{Scheme, Schemes};

/// The schemes of the program's functions, or the first function that has none.
///
/// The functions are taken in order, each with the schemes of those before it. Of one function it comes first that it
/// has more than 2,000 slots, then that a power of its equations is out of range, then its rows one by one, and then
/// that a power of its scheme is out of range, at its name. Each unit parameter is a unit of its own (F# specification,
/// Units Of Measure). A row that no units satisfy then together with those before it is NotGeneral if some units do
/// with the unit parameters as unknown units, and otherwise Units, and a power that is out of range while a row is
/// added is PowerRange, all at the row's place. The instances of each scheme are exactly the function's typings, and
/// its variables are numbered in the order of their first occurrence (Kennedy 1996; the order and the limits are this
/// project's own).
pub fn infer(alloc: Global, shaped: &Shaped) -> Result<Schemes, InferStop>
    ensures inferred { IsInferred (program_tree shaped.now) result }
    ensures typings { SaysOfTypings (program_tree shaped.now) result }
{
    let functions = function_count(shaped);
    infer_first(alloc, shaped, functions)
}

/// The schemes of the first functions of the program, as many as are asked for, or the first of these that has none, as
/// `infer` says.
pub fn infer_first(alloc: Global, shaped: &Shaped, functions: u32) -> Result<Schemes, InferStop>
    requires { functions ≤ length (program_tree shaped.now).functions }
    ensures { IsFirstInferred (program_tree shaped.now) functions result }
{
    prove!(functions <= function_count(shaped));
    let mut schemes = Schemes {
        items: Vec::new(alloc),
    };
    for i in 0..functions {
        let scheme = match function_scheme(alloc, shaped, i, &schemes) {
            Ok(scheme) => scheme,
            Err(refusal) => return Err(stop_of(i, refusal)),
        };
        schemes.items.push(scheme)?;
    }
    Ok(schemes)
}

/// The scheme of function `i`, given those of the functions before it.
fn function_scheme(
    alloc: Global,
    shaped: &Shaped,
    i: u32,
    schemes: &Schemes,
) -> Result<Scheme, Refusal>
    requires declared { i < length (program_tree shaped.now).functions }
    requires before { HaveSchemes (program_tree shaped.now) (scheme_trees schemes.now) i }
    ensures { (f : FunctionTree) → slice_get (program_tree shaped.now).functions i ≡ Some f
        → IsAnswer (judge (length (program_tree shaped.now).bases) (program_tree shaped.now).records
        (scheme_trees schemes.now) i f) result }
{
    let equations = rows(alloc, shaped, i, schemes)?;
    let (parameters, at) = head_of(shaped, i);
    formed_scheme(alloc, &equations, base_count(shaped), parameters, at)
}

/// How many functions the program has, which is formed.
pub(crate) fn function_count(shaped: &Shaped) -> u32
    ensures count { result ≡ length (program_tree shaped.now).functions }
    ensures formed { IsFormed (program_tree shaped.now) }
{
    shaped.program().functions.items.len() as u32
}

/// How many unit parameters function `i` has, and the place of its name.
pub(crate) fn head_of(shaped: &Shaped, i: u32) -> (u32, u32)
    requires { i < length (program_tree shaped.now).functions }
    ensures { (f : FunctionTree) → slice_get (program_tree shaped.now).functions i ≡ Some f → (result.0 ≡ f.units)
        × (result.1 ≡ f.at) }
{
    let function = &shaped.program().functions.items[i as usize];
    (function.units, function.at)
}

/// How many base units the program declares.
pub(crate) fn base_count(shaped: &Shaped) -> u32
    ensures count { result ≡ length (program_tree shaped.now).bases }
    ensures few { result ≤ 16777216 }
{
    shaped.program().bases.as_slice().len() as u32
}

/// The refusal of function `i` as the program's.
pub(crate) fn stop_of(i: u32, refusal: Refusal) -> InferStop
    ensures { result ≡ stop_of i refusal }
{
    match refusal {
        Refusal::Units { at } => InferStop::Units { function: i, at },
        Refusal::NotGeneral { at } => InferStop::NotGeneral { function: i, at },
        Refusal::PowerRange { at } => InferStop::PowerRange { function: i, at },
        Refusal::Slots => InferStop::Slots { function: i },
        Refusal::NoMemory => InferStop::NoMemory,
    }
}
