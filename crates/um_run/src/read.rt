//! A call by its words.
ghost use Rattle.std.specs.Prelude.{◌≡◌, ◌<◌, ◌≤◌, ℕ, All, IfOk, List, length, map, slice_get, string_bytes, Some};
ghost use Rattle.um_tree.specs.ValueTree.{input_tree, inputs_in_order};
ghost use Rattle.um_tree.specs.ProgramTree.{FunctionTree, program_tree};
ghost use Rattle.um_tree.specs.Formed.{AreFormedInputs, IsFormed};
ghost use Rattle.um_value.specs.KnownNames.{known_in};
ghost use Rattle.um_infer.specs.Answers.{scheme_trees};
ghost use Rattle.um_infer.specs.CallJudgement.{judge_call};
ghost use Rattle.um_infer.specs.Inference.{all_schemes, infer};
ghost use Rattle.um_run.specs.Calls.{AreClosedUnits, IsJudgedCall, IsCallTo, IsCallOf, call_tree, call_answer};
ghost use Rattle.um_run.specs.Laws.{IsTypedCall};
ghost use Rattle.um_run.specs.Reading.{call_refusal};

use crate::argument::read_arguments;
use crate::function::function_named;
use crate::known::Known;
use crate::{Call, CallRefusal};
use std::alloc::Global;
use um_infer::{CallStop, type_call};
use um_measures::{Abbreviations, measures_of};
use um_shape::Shaped;
use um_tree::{Inputs, Schemes};
use um_value::{KnownNames, known_names};

/// The call of the function of this name with the arguments that the texts are, given the schemes that `infer` answered
/// for the program, and its abbreviations.
///
/// Each text is read at the shape of its parameter (`um_value::read_value` has the forms and the places), and the call
/// is typed as one more function after all others (`um_infer::type_call`). The instances of its type are exactly the
/// results of the typings of the function that the arguments fit (Kennedy 1996). Each text is at most 1,048,576 bytes
/// long, and the abbreviations' units are closed, over declared base units.
///
/// # Errors
///
/// In this order; `NoMemory` may come with any words. The order is this project's own.
///
/// - `NoFunction` if no function has the name.
/// - `WrongCount` if it has another number of parameters than there are texts.
/// - `Argument` at the first text that isn't an input of its parameter's shape.
/// - `Slots`, `PowerRange` and `Units` as `type_call` has them.
pub fn read_call(
    alloc: Global,
    shaped: &Shaped,
    schemes: &Schemes,
    abbreviations: &Abbreviations,
    name: &str,
    texts: &[String],
) -> Result<Call, CallRefusal>
    requires inferred { infer (program_tree shaped.now) ≡ all_schemes (scheme_trees schemes.now) }
    requires closed { AreClosedUnits (length (program_tree shaped.now).bases) abbreviations.now }
    requires short { All (λ (text : List ℕ). length text ≤ 1048576) (map string_bytes texts.now) }
    ensures exact { IsCallOf (program_tree shaped.now) abbreviations.now (scheme_trees schemes.now) name.now
        (map string_bytes texts.now) (call_answer result) }
    ensures typed { IfOk result (λ call. IsTypedCall (program_tree shaped.now) (call_tree call)) }
{
    match function_named(shaped.program(), name) {
        Some(function) => call_to(alloc, shaped, schemes, abbreviations, function, texts),
        None => Err(CallRefusal::NoFunction),
    }
}

/// The call of the function of this number.
fn call_to(
    alloc: Global,
    shaped: &Shaped,
    schemes: &Schemes,
    abbreviations: &Abbreviations,
    function: u32,
    texts: &[String],
) -> Result<Call, CallRefusal>
    requires function { function < length (program_tree shaped.now).functions }
    requires inferred { infer (program_tree shaped.now) ≡ all_schemes (scheme_trees schemes.now) }
    requires closed { AreClosedUnits (length (program_tree shaped.now).bases) abbreviations.now }
    requires short { All (λ (text : List ℕ). length text ≤ 1048576) (map string_bytes texts.now) }
    ensures { (f : FunctionTree) → slice_get (program_tree shaped.now).functions function ≡ Some f
        → IsCallTo (program_tree shaped.now) abbreviations.now (scheme_trees schemes.now) function f
        (map string_bytes texts.now) (call_answer result) }
{
    let program = shaped.program();
    match measures_of(alloc, program, abbreviations) {
        Ok(measures) => {
            let names = known_names(program, abbreviations, &measures);
            let call = read_known_call(alloc, shaped, schemes, &names, function, texts);
            drop(measures);
            call
        }
        Err(_) => Err(CallRefusal::NoMemory),
    }
}

/// The call of the function of this number with the arguments that the texts are, with names that are made once.
///
/// As [`read_call`], which has the errors but `NoFunction`. Its time depends on the texts and the function alone.
pub(crate) fn read_known_call(
    alloc: Global,
    shaped: &Shaped,
    schemes: &Schemes,
    names: &KnownNames,
    function: u32,
    texts: &[String],
) -> Result<Call, CallRefusal>
    requires function { function < length (program_tree shaped.now).functions }
    requires names { (known_in names.now).program ≡ program_tree shaped.now }
    requires formed { IsFormed (program_tree shaped.now) }
    requires inferred { infer (program_tree shaped.now) ≡ all_schemes (scheme_trees schemes.now) }
    requires closed { AreClosedUnits (length (program_tree shaped.now).bases) (known_in names.now).shorts }
    requires short { All (λ (text : List ℕ). length text ≤ 1048576) (map string_bytes texts.now) }
    ensures { (f : FunctionTree) → slice_get (program_tree shaped.now).functions function ≡ Some f
        → IsCallTo (program_tree shaped.now) (known_in names.now).shorts (scheme_trees schemes.now) function f
        (map string_bytes texts.now) (call_answer result) }
{
    let shapes = shaped.param_shapes(function);
    if texts.len() != shapes.len() {
        return Err(CallRefusal::WrongCount);
    }
    let inputs = read_arguments(&Known { alloc, names }, shapes, texts)?;
    typed_call(alloc, shaped, schemes, function, inputs)
}

/// The call of the function of this number on the inputs.
fn typed_call(
    alloc: Global,
    shaped: &Shaped,
    schemes: &Schemes,
    function: u32,
    inputs: Inputs,
) -> Result<Call, CallRefusal>
    requires function { function < length (program_tree shaped.now).functions }
    requires inferred { infer (program_tree shaped.now) ≡ all_schemes (scheme_trees schemes.now) }
    requires inputs { AreFormedInputs (length (program_tree shaped.now).bases)
        (inputs_in_order (map input_tree inputs.items.items)) }
    ensures { (f : FunctionTree) → slice_get (program_tree shaped.now).functions function ≡ Some f
        → IsJudgedCall (judge_call (program_tree shaped.now) (scheme_trees schemes.now) function f
        (inputs_in_order (map input_tree inputs.items.items)))
        function (map input_tree inputs.items.items) (call_answer result) }
{
    match type_call(alloc, shaped, schemes, function, &inputs) {
        Ok(ty) => Ok(Call {
            function,
            inputs,
            ty,
        }),
        Err(stop) => {
            drop(inputs);
            Err(refusal_of(stop))
        }
    }
}

/// The refusal of a call that has no type.
fn refusal_of(stop: CallStop) -> CallRefusal
    ensures { result ≡ call_refusal stop }
{
    match stop {
        CallStop::Units => CallRefusal::Units,
        CallStop::PowerRange => CallRefusal::PowerRange,
        CallStop::Slots => CallRefusal::Slots,
        CallStop::NoMemory => CallRefusal::NoMemory,
    }
}
