//! The type of a call.
ghost use Rattle.std.specs.Prelude.{◌≡◌, ◌<◌, length, slice_get, Some};
ghost use Rattle.um_tree.specs.ProgramTree.{FunctionTree, program_tree};
ghost use Rattle.um_tree.specs.ValueTree.{input_trees};
ghost use Rattle.um_tree.specs.Formed.{IsFormed, AreFormedInputs};
ghost use Rattle.um_infer.specs.Answers.{IsCallTyped, SaysOfCall, scheme_trees};
ghost use Rattle.um_infer.specs.CallJudgement.{judge_call};
ghost use Rattle.um_infer.specs.Forming.{IsAnswer};
ghost use Rattle.um_infer.specs.Inference.{all_schemes, infer};
ghost use Rattle.um_infer.specs.Refusals.{call_stop_of};

use crate::CallStop;
use crate::forming::formed_scheme;
use crate::program::{base_count, function_count};
use std::alloc::Global;
use um_rows::call_rows;
use um_shape::Shaped;
use um_solving::Refusal;
use um_tree::{Inputs, Scheme, Schemes, Ty};

/// The type of the call of function `f` with the arguments, given the schemes that `infer` answered for the program.
///
/// The call is seen as the body of one more function without parameters, after all others, and judged like a function,
/// which is always general: Slots, PowerRange and Units come in the order of `infer`. Units comes exactly if no typing
/// of the function has parameters of the arguments' types and neither Slots nor PowerRange came before.
pub fn type_call(
    alloc: Global,
    shaped: &Shaped,
    schemes: &Schemes,
    f: u32,
    args: &Inputs,
) -> Result<Ty, CallStop>
    requires function { f < length (program_tree shaped.now).functions }
    requires inferred { infer (program_tree shaped.now) ≡ all_schemes (scheme_trees schemes.now) }
    requires inputs { AreFormedInputs (length (program_tree shaped.now).bases) (input_trees args.now) }
    ensures typed { IsCallTyped (program_tree shaped.now) (scheme_trees schemes.now) f (input_trees args.now) result }
    ensures types { SaysOfCall (program_tree shaped.now) f (input_trees args.now) result }
{
    prove!(f < function_count(shaped));
    match call_scheme(alloc, shaped, schemes, f, args) {
        Ok(scheme) => Ok(scheme.into_result()),
        Err(refusal) => Err(call_stop_of(refusal)),
    }
}

/// The scheme of the call, seen as one more function after all others.
fn call_scheme(
    alloc: Global,
    shaped: &Shaped,
    schemes: &Schemes,
    f: u32,
    args: &Inputs,
) -> Result<Scheme, Refusal>
    requires formed { IsFormed (program_tree shaped.now) }
    requires function { f < length (program_tree shaped.now).functions }
    requires inferred { infer (program_tree shaped.now) ≡ all_schemes (scheme_trees schemes.now) }
    requires inputs { AreFormedInputs (length (program_tree shaped.now).bases) (input_trees args.now) }
    ensures { (function : FunctionTree) → slice_get (program_tree shaped.now).functions f ≡ Some function
        → IsAnswer (judge_call (program_tree shaped.now) (scheme_trees schemes.now) f function
        (input_trees args.now)) result }
{
    let equations = call_rows(alloc, shaped, schemes, f, args)?;
    formed_scheme(alloc, &equations, base_count(shaped), 0, 0)
}

/// The refusal of a call, which is never that it isn't general.
fn call_stop_of(refusal: Refusal) -> CallStop
    ensures { result ≡ call_stop_of refusal }
{
    match refusal {
        Refusal::Units { at: _ } | Refusal::NotGeneral { at: _ } => CallStop::Units,
        Refusal::PowerRange { at: _ } => CallStop::PowerRange,
        Refusal::Slots => CallStop::Slots,
        Refusal::NoMemory => CallStop::NoMemory,
    }
}
