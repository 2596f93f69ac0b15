// What follows the report line of a tree whose names stand for nothing, and of a program without shapes.
ghost use Rattle.std.specs.Prelude.{◌≡◌, ◌++◌, ◌≤◌, IfOk, OnOk, Ok, length};
ghost use Rattle.um_measures.specs.Stops.{IsFirst};
ghost use Rattle.um_tree.specs.ProgramTree.{ProgramTree, program_tree};
ghost use Rattle.um_tree.specs.RawTree.{program_syntax};
ghost use Rattle.um_names.specs.Resolution.{resolved_program};
ghost use Rattle.um_excerpt.specs.Excerpt.{excerpt};
ghost use Rattle.um_front.specs.Stages.{IsReadText};
ghost use Rattle.um_sites.specs.NameDetails.{name_details as details_of_name, place_or_none};
ghost use Rattle.um_mismatch.specs.ShapeDetails.{shape_details};
ghost use Rattle.um_reports.specs.Places.{place_text};
ghost use Rattle.um_front.specs.Places.{IsPlace, NamePlace};
ghost use Rattle.um_shape.specs.FirstFault.{first_fault};
ghost use Rattle.um_shape.specs.ShapedProgram.{IsRefusal};
ghost use Rattle.um_explain_answers.specs.Added.{Adds, HasNames, ShapePlace};
ghost use Rattle.um_explain_answers.specs.ExplainAnswer.{ExplainAnswer};
ghost use Rattle.um_explain_answers.specs.NameRest.{IsNameRest, IsShapeRest};

use crate::place::{push_place, push_source};
use crate::refusal::explained;
use crate::schemes::answer_shaped;
use std::alloc::{AllocError, Global};
use um_front::Answer;
use um_measures::NameStop;
use um_mismatch::push_shape_details;
use um_names::{Resolved, resolve_all};
use um_reports::{reply_to_names, reply_to_shapes};
use um_shape::{ShapeStop, shape};
use um_sites::name_details;
use um_text_details::push_limit_details;
use um_tree::RawProgram;
use um_types::LimitKind;

/// The answer about a text that was read.
pub(crate) fn answer_tree(alloc: Global, bytes: &[u8], raw: &RawProgram) -> Answer
    requires read { IsReadText bytes.now (program_syntax raw.now) }
    ensures { IfOk result (λ reply. ExplainAnswer bytes.now reply.text.items reply.status) }
{
    match resolve_all(alloc, raw) {
        Ok(all) => answer_resolved(alloc, bytes, raw, all),
        Err(stop) => explain_names(alloc, bytes, raw, stop),
    }
}

/// The answer about a tree with a fault of names.
fn explain_names(alloc: Global, bytes: &[u8], raw: &RawProgram, stop: NameStop) -> Answer
    requires read { IsReadText bytes.now (program_syntax raw.now) }
    requires stop { IsFirst (resolved_program (program_syntax raw.now)) stop }
    ensures { IfOk result (λ reply. ExplainAnswer bytes.now reply.text.items reply.status) }
{
    let mut refusal = reply_to_names(alloc, bytes, stop)?;
    let added = push_name_rest(alloc, &mut refusal.text, bytes, raw, stop);
    explained(refusal, added)
}

/// Adds what follows the report line of a tree with a fault of names.
fn push_name_rest(
    alloc: Global,
    text: &mut Vec<u8>,
    bytes: &[u8],
    raw: &RawProgram,
    stop: NameStop,
) -> Result<(), AllocError>
    requires short { length bytes.now ≤ 1048576 }
    requires place { NamePlace (IsPlace bytes.now) stop }
    ensures { OnOk result (Adds (IsNameRest bytes.now (program_syntax raw.now) stop) text.old.items text.new.items) }
{
    match stop {
        NameStop::Unknown { at } => push_fault(alloc, text, bytes, raw, stop, at),
        NameStop::Twice { at } => push_fault(alloc, text, bytes, raw, stop, at),
        NameStop::WrongCount { at } => push_fault(alloc, text, bytes, raw, stop, at),
        NameStop::Hole { at } => push_fault(alloc, text, bytes, raw, stop, at),
        NameStop::Range { at } => push_fault(alloc, text, bytes, raw, stop, at),
        NameStop::NoMemory => Err(AllocError),
    }
}

/// Adds the source line of the fault and what is told of it.
fn push_fault(
    alloc: Global,
    text: &mut Vec<u8>,
    bytes: &[u8],
    raw: &RawProgram,
    stop: NameStop,
    at: u32,
) -> Result<(), AllocError>
    requires short { length bytes.now ≤ 1048576 }
    requires place { IsPlace bytes.now at }
    ensures { OnOk result (text.new.items ≡ text.old.items
        ++ (excerpt bytes.now at ++ details_of_name (place_text bytes.now) stop (program_syntax raw.now))) }
{
    push_source(alloc, text, bytes, at)?;
    push_name_details(alloc, text, bytes, raw, stop)
}

/// Adds what is told of the fault.
fn push_name_details(
    alloc: Global,
    text: &mut Vec<u8>,
    bytes: &[u8],
    raw: &RawProgram,
    stop: NameStop,
) -> Result<(), AllocError>
    ensures { OnOk result (text.new.items ≡ text.old.items
        ++ details_of_name (place_text bytes.now) stop (program_syntax raw.now)) }
{
    let told = name_details(alloc, raw, stop)?;
    let earlier = earlier_text(alloc, bytes, told.earlier())?;
    told.push(alloc, &earlier, text)
}

/// The place of an earlier name, as it is printed.
fn earlier_text(alloc: Global, bytes: &[u8], at: Option<u32>) -> Result<Vec<u8>, AllocError>
    ensures { IfOk result (λ text. text.items ≡ place_or_none (place_text bytes.now) at) }
{
    let mut text = Vec::new(alloc);
    push_earlier(&mut text, bytes, at)?;
    Ok(text)
}

fn push_earlier(text: &mut Vec<u8>, bytes: &[u8], at: Option<u32>) -> Result<(), AllocError>
    ensures { OnOk result (text.new.items ≡ text.old.items ++ place_or_none (place_text bytes.now) at) }
{
    match at {
        Some(at) => push_place(text, bytes, at),
        None => Ok(()),
    }
}

/// The answer about a text whose names are known.
fn answer_resolved(alloc: Global, bytes: &[u8], raw: &RawProgram, all: Resolved) -> Answer
    requires names { HasNames bytes.now (program_syntax raw.now) (program_tree all.program) }
    ensures { IfOk result (λ reply. ExplainAnswer bytes.now reply.text.items reply.status) }
{
    let Resolved {
        program,
        abbreviations,
    } = all;
    drop(abbreviations);
    match shape(alloc, program) {
        Ok(shaped) => {
            let answer = answer_shaped(alloc, bytes, raw, &shaped);
            shaped.discard();
            answer
        }
        Err(stop) => explain_shapes(alloc, bytes, raw, stop),
    }
}

/// The answer about a program with a node without a shape.
fn explain_shapes(alloc: Global, bytes: &[u8], raw: &RawProgram, stop: ShapeStop) -> Answer
    requires read { IsReadText bytes.now (program_syntax raw.now) }
    requires stop { (p : ProgramTree) × (resolved_program (program_syntax raw.now) ≡ Ok p)
        × IsRefusal (first_fault p) stop }
    ensures { IfOk result (λ reply. ExplainAnswer bytes.now reply.text.items reply.status) }
{
    let mut refusal = reply_to_shapes(alloc, bytes, stop)?;
    let added = push_shape_rest(alloc, &mut refusal.text, bytes, raw, stop);
    explained(refusal, added)
}

/// Adds what follows the report line of a program with a node without a shape.
fn push_shape_rest(
    alloc: Global,
    text: &mut Vec<u8>,
    bytes: &[u8],
    raw: &RawProgram,
    stop: ShapeStop,
) -> Result<(), AllocError>
    requires short { length bytes.now ≤ 1048576 }
    requires place { ShapePlace (IsPlace bytes.now) stop }
    ensures { (p : ProgramTree) → resolved_program (program_syntax raw.now) ≡ Ok p
        → OnOk result (Adds (IsShapeRest bytes.now p stop) text.old.items text.new.items) }
{
    match stop {
        ShapeStop::Shape { at } => {
            push_source(alloc, text, bytes, at)?;
            push_mismatch(alloc, text, raw)
        }
        ShapeStop::Depth { at } => {
            push_source(alloc, text, bytes, at)?;
            push_limit_details(text, LimitKind::Depth)
        }
        ShapeStop::NoMemory => Err(AllocError),
    }
}

/// Adds the two shapes that don't match. The names were resolved before, so that want of memory is the one stop.
fn push_mismatch(alloc: Global, text: &mut Vec<u8>, raw: &RawProgram) -> Result<(), AllocError>
    ensures { (p : ProgramTree) → resolved_program (program_syntax raw.now) ≡ Ok p
        → OnOk result (text.new.items ≡ text.old.items ++ shape_details p) }
{
    match resolve_all(alloc, raw) {
        Ok(all) => {
            let added = push_shape_details(alloc, &all.program, text);
            all.discard();
            added
        }
        Err(_) => Err(AllocError),
    }
}
