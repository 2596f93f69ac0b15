// The details of a refusal for units.
ghost use Rattle.std.specs.Prelude.{◌≡◌, ◌++◌, ℕ, List, Err, OnOk};
ghost use Rattle.um_tree.specs.RawTree.{program_syntax};
ghost use Rattle.um_tree.specs.ProgramTree.{program_tree};
ghost use Rattle.um_infer.specs.Answers.{IsInferred};
ghost use Rattle.um_infer.specs.Schemes.{IsJudged};
ghost use Rattle.um_unit_reasons.specs.UnitReasons.{unsolvable};
ghost use Rattle.um_explain_answers.specs.UnitsDetails.{IsTextOf, IsUnitsDetails};

use crate::reason_lines::push_reason;
use std::alloc::{AllocError, Global};
use um_infer::InferStop;
use um_shape::Shaped;
use um_tree::RawProgram;
use um_unit_reasons::reason_of_function;

/// Adds why the units of the program's first refused function disagree: the agreement that fails with its two types,
/// the factor between them, and the agreements that force it to fail (Kennedy 1996; Tamiz, Mardle and Jones 1996; the
/// texts are this project's own). The stop is that of `infer`. For a stop that isn't for units nothing is added.
/// `AllocError` is the one error.
pub(crate) fn push_units(
    alloc: Global,
    bytes: &[u8],
    raw: &RawProgram,
    shaped: &Shaped,
    stop: InferStop,
    out: &mut Vec<u8>,
) -> Result<(), AllocError>
    requires { IsInferred (program_tree shaped.now) (Err stop) }
    ensures { OnOk result ((text : List ℕ)
        × IsUnitsDetails bytes.now (program_syntax raw.now) (program_tree shaped.now) stop text
        × (out.new.items ≡ out.old.items ++ text)) }
{
    let text = Text { bytes, raw, shaped };
    match stop {
        InferStop::Units { function, .. } => push_function(alloc, &text, function, false, out),
        InferStop::NotGeneral { function, .. } => push_function(alloc, &text, function, true, out),
        InferStop::PowerRange { .. } => Ok(()),
        InferStop::Slots { .. } => Ok(()),
        InferStop::NoMemory => Ok(()),
    }
}

/// A text with the program that it is.
#[derive(Clone, Copy)]
pub(crate) struct Text<'a> {
    pub(crate) bytes: &'a [u8],
    pub(crate) raw: &'a RawProgram,
    pub(crate) shaped: &'a Shaped,
}

/// Adds why the units of function `i` disagree.
fn push_function(
    alloc: Global,
    text: &Text,
    i: u32,
    rigid: bool,
    out: &mut Vec<u8>,
) -> Result<(), AllocError>
    requires { (row : ℕ) × (at : ℕ)
        × IsJudged (program_tree text.now.shaped.now) i (unsolvable rigid row at) }
    ensures { OnOk result ((details : List ℕ) × IsTextOf text.now.bytes.now (program_syntax text.now.raw.now)
        (program_tree text.now.shaped.now) i rigid details × (out.new.items ≡ out.old.items ++ details)) }
{
    let reason = reason_of_function(alloc, text.raw, text.shaped, i, rigid)?;
    let pushed = push_reason(alloc, text.bytes, text.shaped.program(), i, &reason, out);
    drop(reason);
    pushed
}
