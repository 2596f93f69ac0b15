// From a program with its shapes to the schemes of its functions.
ghost use Rattle.std.specs.Prelude.{◌≡◌, ◌<◌, IfErr, IfOk, Some, length, slice_get};
ghost use Rattle.um_tree.specs.ProgramTree.{program_tree, function_tree};
ghost use Rattle.um_infer.specs.Answers.{IsInferred, SaysOfTypings, scheme_trees};
ghost use Rattle.um_infer.specs.SolvedPrograms.{AreSolvedFunctions};
ghost use Rattle.um_infer.specs.Inference.{infer as inferred};
ghost use Rattle.std.specs.Prelude.{Err};
ghost use Rattle.um_front.specs.Parts.{shaped_tree, checked_tree};
ghost use Rattle.um_front.specs.Stages.{IsShapedText, IsCheckedText};
ghost use Rattle.um_front.specs.Refused.{IsUnchecked, IsUntypedReply};

use crate::Answer;
use crate::checked::Checked;
use crate::parts::{CheckedParts, ShapedText};
use crate::shaping::shape_text;
use crate::text::Text;
use std::alloc::{AllocError, Global};
use um_infer::{InferStop, SolvedFunction, SolvedProgram, infer, infer_solved};
use um_reports::{reply_to_not_general, reply_to_range, reply_to_slots, reply_to_units};
use um_shape::Shaped;
use um_tree::{Function, Program};

/// The program of a text with the schemes of its functions, or the answer to a text without them.
///
/// After what `shape_text` refuses comes the first function without a scheme.
#[tactic(auto, unfolding(crate::specs::Refused::IsUnchecked))]
pub fn check(alloc: Global, text: Text) -> Result<Checked, Answer>
    ensures bytes { IfOk result (λ checked. checked.text.text.bytes.items ≡ text) }
    ensures checked { IfOk result (λ checked. IsCheckedText text (checked_tree checked)) }
    ensures refused { IfErr result (λ answer. IfOk answer (λ reply.
        IsUnchecked text reply.text.items reply.status)) }
{
    match shape_text(alloc, text) {
        Ok(shaped) => check_shaped(alloc, shaped),
        Err(refused) => Err(refused),
    }
}

/// The same of a text whose program has its shapes.
#[tactic(auto, unfolding(crate::specs::Refused::IsUnchecked))]
fn check_shaped(alloc: Global, text: ShapedText) -> Result<Checked, Answer>
    requires shaped { IsShapedText text.text.bytes.items (shaped_tree text) }
    ensures bytes { IfOk result (λ checked. checked.text.text.bytes.items ≡ text.text.bytes.items) }
    ensures checked { IfOk result (λ checked. IsCheckedText text.text.bytes.items (checked_tree checked)) }
    ensures refused { IfErr result (λ answer. IfOk answer (λ reply.
        IsUnchecked text.text.bytes.items reply.text.items reply.status)) }
{
    match infer(alloc, &text.shaped) {
        Ok(schemes) => Ok(Checked::new(CheckedParts { text, schemes })),
        Err(stop) => {
            let refused = reply_to_untyped(alloc, &text.text.bytes, &text.shaped, stop);
            text.discard();
            Err(refused)
        }
    }
}

/// A text with the schemes of its functions, and what solved the equations of each.
#[derive(Drop)]
pub struct SolvedText {
    pub checked: Checked,
    pub functions: Vec<SolvedFunction>,
}

/// The same as `check`, with what solved the equations of each function.
#[tactic(auto, unfolding(crate::specs::Refused::IsUnchecked))]
pub fn check_solved(alloc: Global, text: Text) -> Result<SolvedText, Answer>
    ensures bytes { IfOk result (λ solved. solved.checked.text.text.bytes.items ≡ text) }
    ensures checked { IfOk result (λ solved. IsCheckedText text (checked_tree solved.checked)) }
    ensures solved { IfOk result (λ solved. AreSolvedFunctions (program_tree solved.checked.text.shaped)
        (scheme_trees solved.checked.schemes) (length (program_tree solved.checked.text.shaped).functions)
        solved.functions.items) }
    ensures refused { IfErr result (λ answer. IfOk answer (λ reply.
        IsUnchecked text reply.text.items reply.status)) }
{
    match shape_text(alloc, text) {
        Ok(shaped) => solve_shaped(alloc, shaped),
        Err(refused) => Err(refused),
    }
}

/// The same of a text whose program has its shapes.
#[tactic(auto, unfolding(crate::specs::Refused::IsUnchecked))]
fn solve_shaped(alloc: Global, text: ShapedText) -> Result<SolvedText, Answer>
    requires shaped { IsShapedText text.text.bytes.items (shaped_tree text) }
    ensures bytes { IfOk result (λ solved. solved.checked.text.text.bytes.items ≡ text.text.bytes.items) }
    ensures checked { IfOk result (λ solved. IsCheckedText text.text.bytes.items (checked_tree solved.checked)) }
    ensures solved { IfOk result (λ solved. AreSolvedFunctions (program_tree solved.checked.text.shaped)
        (scheme_trees solved.checked.schemes) (length (program_tree solved.checked.text.shaped).functions)
        solved.functions.items) }
    ensures refused { IfErr result (λ answer. IfOk answer (λ reply.
        IsUnchecked text.text.bytes.items reply.text.items reply.status)) }
{
    match infer_solved(alloc, &text.shaped) {
        Ok(SolvedProgram { schemes, functions }) => Ok(SolvedText {
            checked: Checked::new(CheckedParts { text, schemes }),
            functions,
        }),
        Err(stop) => {
            let refused = reply_to_untyped(alloc, &text.text.bytes, &text.shaped, stop);
            text.discard();
            Err(refused)
        }
    }
}

/// The refusal of the first function without a scheme, by the answer of `infer`. Want of memory is the one error.
pub fn reply_to_untyped(alloc: Global, bytes: &[u8], shaped: &Shaped, stop: InferStop) -> Answer
    requires inferred { IsInferred (program_tree shaped.now) (Err stop) }
    requires typings { SaysOfTypings (program_tree shaped.now) (Err stop) }
    ensures { IfOk result (λ reply. IsUntypedReply bytes.now reply.text.items reply.status
        (program_tree shaped.now) (inferred (program_tree shaped.now))) }
{
    let program = shaped.program();
    match stop {
        InferStop::Units { function, at } => {
            reply_to_units(alloc, bytes, &function_at(program, function).name, at)
        }
        InferStop::NotGeneral { function, at } => {
            reply_to_not_general(alloc, bytes, &function_at(program, function).name, at)
        }
        InferStop::PowerRange { function, at } => {
            reply_to_range(alloc, bytes, &function_at(program, function).name, at)
        }
        InferStop::Slots { function } => {
            reply_to_slots(alloc, bytes, function_at(program, function).at)
        }
        InferStop::NoMemory => Err(AllocError),
    }
}

/// The function of this number. Takes no memory.
pub fn function_at(program: &Program, number: u32) -> &Function
    requires { number < length (program_tree program.now).functions }
    ensures { slice_get (program_tree program.now).functions number ≡ Some (function_tree result.now) }
{
    let functions: &[Function] = &program.functions.items;
    &functions[number as usize]
}
