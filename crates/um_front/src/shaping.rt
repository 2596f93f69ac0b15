// From a program as it is written to its names and its shapes.
ghost use Rattle.std.specs.Prelude.{◌≡◌, IfErr, IfOk, List, Ok};
ghost use Rattle.um_tree.specs.Formed.{IsFormed};
ghost use Rattle.um_tree.specs.ProgramTree.{program_tree};
ghost use Rattle.um_tree.specs.RawTree.{DeclSyntax, program_syntax};
ghost use Rattle.um_names.specs.Resolution.{resolved_program, resolved_abbreviations};
ghost use Rattle.um_front.specs.Parts.{shaped_tree};
ghost use Rattle.um_front.specs.Stages.{IsReadText, IsShapedText};
ghost use Rattle.um_front.specs.Refused.{IsUnshaped};

use crate::Answer;
use crate::parts::{ReadText, ShapedText, SourceText};
use crate::text::Text;
use crate::tree::read;
use std::alloc::Global;
use um_names::{Resolved, resolve_tree};
use um_reports::{reply_to_names, reply_to_shapes};
use um_shape::shape;

/// The program of a text with its shapes, and its abbreviations, or the answer to a text without them.
///
/// After what `read` refuses come names that stand for nothing, and then nodes without a shape.
#[tactic(auto, unfolding(crate::specs::Refused::IsUnshaped))]
pub fn shape_text(alloc: Global, text: Text) -> Result<ShapedText, Answer>
    ensures bytes { IfOk result (λ shaped. shaped.text.bytes.items ≡ text) }
    ensures shaped { IfOk result (λ shaped. IsShapedText text (shaped_tree shaped)) }
    ensures refused { IfErr result (λ answer. IfOk answer (λ reply. IsUnshaped text reply.text.items reply.status)) }
{
    match read(alloc, text) {
        Ok(text) => shape_read(alloc, text),
        Err(refused) => Err(refused),
    }
}

/// The same of a text that was read.
#[tactic(auto, unfolding(crate::specs::Refused::IsUnshaped))]
fn shape_read(alloc: Global, text: ReadText) -> Result<ShapedText, Answer>
    requires read { IsReadText text.bytes.items (program_syntax text.raw) }
    ensures bytes { IfOk result (λ shaped. shaped.text.bytes.items ≡ text.bytes.items) }
    ensures shaped { IfOk result (λ shaped. IsShapedText text.bytes.items (shaped_tree shaped)) }
    ensures refused { IfErr result (λ answer. IfOk answer (λ reply.
        IsUnshaped text.bytes.items reply.text.items reply.status)) }
{
    let ReadText { bytes, raw } = text;
    match resolve_tree(alloc, raw) {
        Ok(all) => shape_resolved(alloc, bytes, all),
        Err(stop) => Err(reply_to_names(alloc, &bytes, stop)),
    }
}

/// The same of a text whose names are known.
#[tactic(auto, unfolding(crate::specs::Refused::IsUnshaped))]
fn shape_resolved(alloc: Global, bytes: Vec<u8>, all: Resolved) -> Result<ShapedText, Answer>
    requires resolved { (raw : List DeclSyntax) × IsReadText bytes.items raw
        × (resolved_program raw ≡ Ok (program_tree all.program))
        × (resolved_abbreviations raw ≡ Ok all.abbreviations) }
    requires formed { IsFormed (program_tree all.program) }
    ensures bytes { IfOk result (λ shaped. shaped.text.bytes.items ≡ bytes.items) }
    ensures shaped { IfOk result (λ shaped. IsShapedText bytes.items (shaped_tree shaped)) }
    ensures refused { IfErr result (λ answer. IfOk answer (λ reply.
        IsUnshaped bytes.items reply.text.items reply.status)) }
{
    let Resolved {
        program,
        abbreviations,
    } = all;
    match shape(alloc, program) {
        Ok(shaped) => Ok(ShapedText {
            text: SourceText { bytes },
            shaped,
            abbreviations,
        }),
        Err(stop) => {
            drop(abbreviations);
            Err(reply_to_shapes(alloc, &bytes, stop))
        }
    }
}
