// Programs in other sizes of the base units.
ghost use Rattle.std.specs.Prelude.{◌≡◌, IfOk, MatchResult, None, map};
ghost use Rattle.um_tree.specs.Formed.{IsFormed};
ghost use Rattle.um_tree.specs.ExprTree.{expr_tree};
ghost use Rattle.um_tree.specs.ProgramTree.{function_tree, program_tree, result_tree};
ghost use Rattle.um_shape.specs.FirstFault.{first_fault};
ghost use Rattle.um_scaling.specs.RescaledProgram.{IsRescaled};
ghost use Rattle.um_scale.specs.Sizes.{sizes};
ghost use Rattle.um_scale.specs.Stops.{IsStopAt};
ghost use Rattle.um_scale.specs.RescaledLiterals.{misfit_in, rescaled, rescaled_function, rescaled_program};

use crate::copies::{copied_name, copied_names, copied_notes, copied_records, copied_result};
use crate::expression::{misfit, rescaled};
use crate::{ScaleStop, Scales};
use std::alloc::{AllocError, Global};
use um_tree::{Expr, Function, Functions, Note, Program};

/// The program in other sizes of its base units: each literal with a written unit is multiplied by the unit's factor,
/// and everything else is equal.
///
/// A scale is made for each base unit of the program; one without a scale keeps its size. A formed program stays
/// formed, and one whose nodes have their shapes keeps them.
///
/// # Errors
///
/// Range exactly if a factor, by its partial products, or a product with it is out of range, at the first such
/// literal in the order of the text. `NoMemory` may come with any program.
///
/// The rule is Kennedy's (1997).
pub fn rescale_program(
    alloc: Global,
    program: &Program,
    scales: &Scales,
) -> Result<Program, ScaleStop>
    ensures exact { IfOk result (λ q. program_tree q ≡ rescaled_program scales.now (program_tree program.now)) }
    ensures rescaled { IfOk result (λ q. IsRescaled (sizes scales.now) (program_tree program.now) (program_tree q)) }
    ensures formed { IfOk result (λ q. IsFormed (program_tree program.now) → IsFormed (program_tree q)) }
    ensures faults { IfOk result (λ q. first_fault (program_tree q) ≡ first_fault (program_tree program.now)) }
    ensures range { MatchResult result (λ q. misfit_in scales.now (program_tree program.now).functions ≡ None)
        (IsStopAt (misfit_in scales.now (program_tree program.now).functions)) }
{
    let _bases = scales.len();
    match misfit_in(&program.functions.items, scales) {
        Some(at) => Err(ScaleStop::Range { at }),
        None => match rescaled_program(alloc, program, scales) {
            Ok(program) => Ok(program),
            Err(_) => Err(ScaleStop::NoMemory),
        },
    }
}

/// The place of the first literal, in the order of the text, whose rescaled number is out of range.
fn misfit_in(functions: &[Function], scales: &Scales) -> Option<u32>
    ensures { result ≡ misfit_in scales.now (map function_tree functions.now) }
{
    let mut found = None;
    for i in (0..functions.len()).rev() {
        found = misfit(&functions[i].body, scales).or(found);
    }
    found
}

/// The program with each literal rescaled whose rescaled number is in range.
fn rescaled_program(
    alloc: Global,
    program: &Program,
    scales: &Scales,
) -> Result<Program, AllocError>
    ensures { IfOk result (λ q. program_tree q ≡ rescaled_program scales.now (program_tree program.now)) }
{
    let bases = copied_names(alloc, &program.bases)?;
    let records = copied_records(alloc, &program.records.items)?;
    match rescaled_functions(alloc, &program.functions.items, scales) {
        Ok(functions) => Ok(Program {
            bases,
            records,
            functions,
        }),
        Err(stop) => {
            drop(records);
            Err(stop)
        }
    }
}

fn rescaled_functions(
    alloc: Global,
    functions: &[Function],
    scales: &Scales,
) -> Result<Functions, AllocError>
    ensures { IfOk result (λ fs. map function_tree fs.items.items
        ≡ map (λ f. rescaled_function scales.now (function_tree f)) functions.now) }
{
    let mut items = Vec::new(alloc);
    for function in functions {
        items.push(rescaled_function(alloc, function, scales)?)?;
    }
    Ok(Functions { items })
}

fn rescaled_function(
    alloc: Global,
    function: &Function,
    scales: &Scales,
) -> Result<Function, AllocError>
    ensures { IfOk result (λ f. function_tree f ≡ rescaled_function scales.now (function_tree function.now)) }
{
    let name = copied_name(alloc, &function.name)?;
    let params = copied_notes(alloc, &function.params.items)?;
    match result_and_body(alloc, function, scales) {
        Ok((result, body)) => Ok(Function {
            name,
            at: function.at,
            recursive: function.recursive,
            units: function.units,
            params,
            named: function.named,
            result,
            body,
        }),
        Err(stop) => {
            drop(params);
            Err(stop)
        }
    }
}

fn result_and_body(
    alloc: Global,
    function: &Function,
    scales: &Scales,
) -> Result<(Option<Note>, Expr), AllocError>
    ensures note { IfOk result (λ parts. result_tree parts.0 ≡ result_tree function.now.result) }
    ensures body { IfOk result (λ parts. expr_tree parts.1 ≡ rescaled scales.now (expr_tree function.now.body)) }
{
    let body = rescaled(alloc, &function.body, scales)?;
    match copied_result(alloc, &function.result) {
        Ok(result) => Ok((result, body)),
        Err(stop) => {
            drop(body);
            Err(stop)
        }
    }
}
