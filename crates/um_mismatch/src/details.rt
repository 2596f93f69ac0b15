//! The details of a program's first node without a shape.
ghost use Rattle.std.specs.Prelude.{◌≡◌, ◌++◌, [], MatchResult, OnOk};
ghost use Rattle.um_tree.specs.ProgramTree.{program_tree};
ghost use Rattle.um_mismatch.specs.ShapeDetails.{program_told, told_text, shape_details};
ghost use Rattle.um_mismatch.specs.Answers.{IsTold};

use crate::functions::{add_heads, known_records};
use crate::known::Known;
use crate::mismatch::Stop;
use crate::text::push_mismatch;
use std::alloc::{AllocError, Global};
use um_tree::Program;

/// Adds what is told of the program's first node without a shape: the line of the rule that fails, and then its two
/// shapes, or the kind of part that is expected and the shape that is found.
///
/// Nothing is added of a program whose nodes all have a shape. How tall a shape is doesn't matter. The one error is
/// want of memory. The texts are this project's own.
pub fn push_shape_details(
    alloc: Global,
    program: &Program,
    text: &mut Vec<u8>,
) -> Result<(), AllocError>
    ensures { OnOk result (text.new.items ≡ text.old.items ++ shape_details (program_tree program.now)) }
{
    match look_at(alloc, program) {
        Ok(()) => Ok(()),
        Err(Stop::Told(told)) => push_mismatch(text, program, told.function, told.mismatch),
        Err(Stop::NoMemory) => Err(AllocError),
    }
}

/// Looks at the functions in order, and stops at the first node without a shape.
fn look_at(alloc: Global, program: &Program) -> Result<(), Stop>
    ensures { let given = program_told (program_tree program.now) in MatchResult result
        (λ _. told_text (program_tree program.now) given ≡ []) (IsTold given) }
{
    let records = known_records(alloc, &program.records.items)?;
    let mut known = Known {
        records,
        heads: Vec::new(alloc),
    };
    let looked = add_heads(alloc, &mut known, &program.functions.items);
    drop(known);
    looked
}
