//! The equations of a call.

ghost use Rattle.std.specs.Prelude.{◌≡◌, ◌<◌, IfOk, IfErr, length, map};
ghost use Rattle.um_tree.specs.ProgramTree.{program_tree, scheme_tree};
ghost use Rattle.um_tree.specs.ValueTree.{input_trees};
ghost use Rattle.um_tree.specs.Formed.{AreFormedInputs};
ghost use Rattle.um_rows.specs.Answers.{AreCallRowsOf, CallRowsStopFor, HaveVariablesBelow, ResultsAreSolutionsOf};

use crate::equations::equations;
use std::alloc::Global;
use um_equal_types::{RowStop, Rows};
use um_shape::Shaped;
use um_slots::{Definition, call_of};
use um_tree::{Inputs, Schemes};

/// The equations of the call of function `f` on the inputs, over its slots, given schemes of all functions.
///
/// The call is seen as the body of one more function without parameters, at the place 0, in which a list without items
/// is the empty list of its shape with a hole for each unit. The answers are those of `rows`. If each scheme's
/// instances are exactly the typings of its function, the results of the call are exactly what the joint solutions of
/// the rows give.
pub fn call_rows(
    alloc: Global,
    shaped: &Shaped,
    schemes: &Schemes,
    f: u32,
    args: &Inputs,
) -> Result<Rows, RowStop>
    requires function { f < length (program_tree shaped.now).functions }
    requires inputs { AreFormedInputs (length (program_tree shaped.now).bases) (input_trees args.now) }
    requires schemes { HaveVariablesBelow (length (program_tree shaped.now).functions)
        (map scheme_tree schemes.now.items.items) }
    ensures equations { IfOk result (AreCallRowsOf (program_tree shaped.now) (map scheme_tree schemes.now.items.items) f
        (input_trees args.now)) }
    ensures stops { IfErr result (CallRowsStopFor (program_tree shaped.now) (map scheme_tree schemes.now.items.items) f
        (input_trees args.now)) }
    ensures results { IfOk result (ResultsAreSolutionsOf (program_tree shaped.now)
        (map scheme_tree schemes.now.items.items) f (input_trees args.now)) }
{
    let program = shaped.program();
    let function = &program.functions.items[f as usize];
    let body = call_of(
        alloc,
        &program.records.items,
        f,
        &function.params.items,
        args,
    )?;
    let number = program.functions.items.len() as u32;
    let definition = Definition {
        at: 0,
        recursive: false,
        units: 0,
        params: &[],
        result: &None,
        body: &body,
    };
    equations(
        alloc,
        &program.records.items,
        &schemes.items,
        number,
        &definition,
    )
}
