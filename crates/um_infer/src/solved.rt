//! The schemes of a program, with what solved the equations of its functions.
ghost use Rattle.std.specs.Prelude.{◌≡◌, ◌<◌, ◌≤◌, ◌+◌, ◌^◌, ◌++◌, ◌∷◌, [], All, Err, IfErr, IfOk, OnOk, length};
ghost use Rattle.um_units.specs.Variables.{VariablesBelow};
ghost use Rattle.um_tree.specs.ProgramTree.{program_tree, scheme_tree};
ghost use Rattle.um_tree.specs.Formed.{IsFormed};
ghost use Rattle.um_tree.specs.Scheme.{signature_types, variables};
ghost use Rattle.um_elim.specs.Solution.{rigid_units};
ghost use Rattle.um_equal_types.specs.declared.row.Row.{Row};
ghost use Rattle.um_rows.specs.Answers.{rows_signature};
ghost use Rattle.um_rows.specs.Solutions.{HaveSchemes};
ghost use Rattle.um_infer.specs.declared.stop.InferStop.TheVariants.{NoMemory};
ghost use Rattle.um_infer.specs.Answers.{IsInferred, SaysOfTypings, scheme_trees};
ghost use Rattle.um_solving.specs.Solving.{IsSolutionOf};
ghost use Rattle.um_infer.specs.Inference.{all_schemes, infer};
ghost use Rattle.um_infer.specs.SolvedPrograms.{AreSolvedFunctions, IsSolvedAnswer, IsSolvedBy};

use crate::InferStop;
use crate::forming::scheme_by;
use crate::program::{base_count, function_count, head_of, stop_of};
use std::alloc::Global;
use um_elim::Solver;
use um_rows::{Row, TypedRows, typed_rows};
use um_shape::Shaped;
use um_solving::{Refusal, rigid_solver};
use um_tree::{Scheme, Schemes};

/// What is known of a function before its equations: the number of base units, its number of unit parameters, and the
/// place of its name.
#[derive(Clone, Copy)]
struct Head {
    bases: u32,
    parameters: u32,
    at: u32,
}

/// The equations of a function with the types of its nodes over the slots, and the solver after all its rows.
#[derive(Drop)]
pub struct SolvedFunction {
    pub typed: TypedRows,
    pub solver: Solver,
}

/// The schemes of a program's functions, and what solved the equations of each.
#[derive(Drop)]
pub struct SolvedProgram {
    pub schemes: Schemes,
    pub functions: Vec<SolvedFunction>,
}

/// A function's scheme, and what solved its equations.
#[derive(Drop)]
pub(crate) struct SolvedScheme {
    pub(crate) scheme: Scheme,
    pub(crate) function: SolvedFunction,
}

/// The schemes that `infer` gives, and what solved the equations of each function: `IsSolvedFunction` holds of it. The
/// errors are those of `infer`.
pub fn infer_solved(alloc: Global, shaped: &Shaped) -> Result<SolvedProgram, InferStop>
    ensures inferred { IfOk result (λ solved. infer (program_tree shaped.now)
        ≡ all_schemes (scheme_trees solved.schemes)) }
    ensures solved { IfOk result (λ solved. AreSolvedFunctions (program_tree shaped.now)
        (scheme_trees solved.schemes) (length (program_tree shaped.now).functions) solved.functions.items) }
    ensures stops { IfErr result (λ stop. IsInferred (program_tree shaped.now) (Err stop)) }
    ensures typings { IfErr result (λ stop. SaysOfTypings (program_tree shaped.now) (Err stop)) }
{
    let mut solved = SolvedProgram {
        schemes: Schemes {
            items: Vec::new(alloc),
        },
        functions: Vec::new(alloc),
    };
    match add_functions(alloc, shaped, &mut solved) {
        Ok(()) => Ok(solved),
        Err(stop) => {
            drop(solved);
            Err(stop)
        }
    }
}

/// Adds the functions of the program, in order, to one without any, until a function has no scheme.
fn add_functions(
    alloc: Global,
    shaped: &Shaped,
    solved: &mut SolvedProgram,
) -> Result<(), InferStop>
    requires schemes { solved.old.schemes.items.items ≡ [] }
    requires functions { solved.old.functions.items ≡ [] }
    ensures inferred { OnOk result (infer (program_tree shaped.now) ≡ all_schemes (scheme_trees solved.new.schemes)) }
    ensures solved { OnOk result (AreSolvedFunctions (program_tree shaped.now)
        (scheme_trees solved.new.schemes) (length (program_tree shaped.now).functions) solved.new.functions.items) }
    ensures stops { IfErr result (λ stop. IsInferred (program_tree shaped.now) (Err stop)) }
    ensures formed { IsFormed (program_tree shaped.now) }
{
    for i in 0..function_count(shaped) {
        match solved_scheme(alloc, shaped, i, &solved.schemes) {
            Ok(one) => push_function(solved, one)?,
            Err(refusal) => return Err(stop_of(i, refusal)),
        }
    }
    Ok(())
}

/// Pushes one more function.
fn push_function(solved: &mut SolvedProgram, one: SolvedScheme) -> Result<(), InferStop>
    ensures schemes { OnOk result (scheme_trees solved.new.schemes
        ≡ scheme_trees solved.old.schemes ++ scheme_tree one.scheme ∷ []) }
    ensures functions { OnOk result (solved.new.functions.items ≡ solved.old.functions.items ++ one.function ∷ []) }
    ensures memory { IfErr result (λ stop. stop ≡ NoMemory) }
{
    let SolvedScheme { scheme, function } = one;
    solved.functions.push(function)?;
    solved.schemes.items.push(scheme)?;
    Ok(())
}

/// The scheme of function `i`, given those of the functions before it, and what solved its equations.
fn solved_scheme(
    alloc: Global,
    shaped: &Shaped,
    i: u32,
    schemes: &Schemes,
) -> Result<SolvedScheme, Refusal>
    requires declared { i < length (program_tree shaped.now).functions }
    requires before { HaveSchemes (program_tree shaped.now) (scheme_trees schemes.now) i }
    ensures { IsSolvedAnswer (program_tree shaped.now) (scheme_trees schemes.now) i result }
{
    let typed = typed_rows(alloc, shaped, i, schemes)?;
    let (parameters, at) = head_of(shaped, i);
    let head = Head {
        bases: base_count(shaped),
        parameters,
        at,
    };
    scheme_of_rows(alloc, head, typed)
}

/// The scheme of the function with these equations, and what solves them.
fn scheme_of_rows(alloc: Global, head: Head, typed: TypedRows) -> Result<SolvedScheme, Refusal>
    requires few { typed.rows.slots ≤ 2000 }
    requires parameters { head.parameters ≤ typed.rows.slots }
    requires bases { head.bases + head.parameters < 2 ^ 32 }
    requires rows { All (λ (row : Row). VariablesBelow typed.rows.slots row.unit) typed.rows.list.items.items }
    requires types { All (λ k. k < typed.rows.slots) (variables (signature_types (rows_signature typed.rows))) }
    ensures { IsSolvedBy head.bases head.parameters head.at typed result }
{
    let rows = &typed.rows;
    match rigid_solver(
        alloc,
        rows.slots,
        head.bases,
        head.parameters,
        &rows.list.items,
    ) {
        Ok(solver) => with_scheme(alloc, head, typed, solver),
        Err(refusal) => {
            drop(typed);
            Err(refusal)
        }
    }
}

/// The same by the solver after all rows.
fn with_scheme(
    alloc: Global,
    head: Head,
    typed: TypedRows,
    solver: Solver,
) -> Result<SolvedScheme, Refusal>
    requires few { typed.rows.slots ≤ 2000 }
    requires parameters { head.parameters ≤ typed.rows.slots }
    requires bases { head.bases + head.parameters < 2 ^ 32 }
    requires types { All (λ k. k < typed.rows.slots) (variables (signature_types (rows_signature typed.rows))) }
    requires solved { IsSolutionOf typed.rows.slots (rigid_units head.bases head.parameters typed.rows.slots)
        typed.rows.list.items.items solver }
    ensures { IsSolvedBy head.bases head.parameters head.at typed result }
{
    match scheme_by(
        alloc,
        &solver,
        &typed.rows,
        head.bases,
        head.parameters,
        head.at,
    ) {
        Ok(scheme) => Ok(SolvedScheme {
            scheme,
            function: SolvedFunction { typed, solver },
        }),
        Err(refusal) => {
            drop(typed);
            drop(solver);
            Err(refusal)
        }
    }
}
