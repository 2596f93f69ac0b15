//! A call of a function of a verified image.
ghost use Rattle.std.specs.Prelude.{◌≤◌, map, IfOk};
ghost use Rattle.um_tree.specs.ValueTree.{value_tree, outcome_tree};
ghost use Rattle.um_machine.specs.Machine.{EndsWith};
ghost use Rattle.um_verify.specs.ImageTree.{image_tree};
ghost use Rattle.um_verifier.specs.Calls.{IsCallIn, ResultHas};

use crate::verified::Verified;
use std::alloc::Global;
use um_tree::{Outcome, Values};
use um_units::NoMemory;
use um_verify::runs_of_verified_images;
use um_vm::run_code;

/// Calls function `f` of the image, counted from 0, on values in the order of its parameters. The call itself and each
/// call that it makes take one from the budget.
///
/// `f` is the number of a function of the image, the values have the shapes of its parameters, and the budget is at
/// most 10,000,000. The call ends as the machine's definition does, with a value of the result's shape, a trap or the
/// end of the budget, and no step of it is stuck. `NoMemory` is the one error.
///
/// Lists and records stand in cells, and neither calls nor lists use the host's stack. The machine is that of
/// P. Landin, The mechanical evaluation of expressions, 1964; the instructions are this project's own.
pub fn exec(
    alloc: Global,
    image: &Verified,
    f: u32,
    args: Values,
    budget: u64,
) -> Result<Outcome, NoMemory>
    requires call { IsCallIn (image_tree image.now) f (map value_tree args.items.items) }
    requires budget { budget ≤ 10000000 }
    ensures end { IfOk result (λ outcome. EndsWith (image_tree image.now).code f
        (map value_tree args.items.items) budget
        (outcome_tree outcome)) }
    ensures shape { IfOk result (λ outcome. ResultHas (image_tree image.now) f (outcome_tree outcome)) }
{
    runs_of_verified_images();
    match run_code(alloc, &image.image().code, f, args, budget) {
        Ok(counted) => Ok(counted.outcome),
        Err(e) => Err(e),
    }
}
