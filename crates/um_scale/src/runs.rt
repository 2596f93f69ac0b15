// Two runs side by side: a program's, and the rescaled program's.
ghost use Rattle.std.specs.Prelude.{◌≡◌, ◌≤◌, IfOk, map};
ghost use Rattle.um_tree.specs.ValueTree.{value_tree, outcome_tree};
ghost use Rattle.um_cells.specs.Running.{CanCall, EndsAsMeant};
ghost use Rattle.um_scale.specs.Sizes.{sizes};
ghost use Rattle.um_scale.specs.TwinRuns.{EndAsTwins};

use crate::{Scales, Twin};
use std::alloc::Global;
use um_cells::Runner;
use um_tree::{Outcome, Values};
use um_units::NoMemory;

/// Both outcomes, each of a run of its own: the first runner's on `args`, and the second runner's on `scaled`.
///
/// Both runners have the function, both lists have its parameters' shapes, and the budget is at most 10,000,000.
/// If the first program is formed, the second one is the first one rescaled, and the function has a typing at
/// whose parameter types `scaled` is `args` rescaled, the second outcome is the first one rescaled at the typing's
/// result, unless one of the two overflows. `NoMemory` is the one error.
///
/// The rule is Kennedy's (1997).
pub fn twin<R: Runner>(
    alloc: Global,
    first: &R,
    second: &R,
    scales: &Scales,
    f: u32,
    args: Values,
    scaled: Values,
    budget: u64,
) -> Result<Twin, NoMemory>
    requires first_arguments { CanCall (R.runs first.now) f (map value_tree args.items.items) }
    requires second_arguments { CanCall (R.runs second.now) f (map value_tree scaled.items.items) }
    requires budget { budget ≤ 10000000 }
    ensures first { IfOk result (λ t. EndsAsMeant (R.runs first.now) f (map value_tree args.items.items) budget
        (outcome_tree t.first)) }
    ensures second { IfOk result (λ t. EndsAsMeant (R.runs second.now) f (map value_tree scaled.items.items) budget
        (outcome_tree t.second)) }
    ensures scaled { IfOk result (λ t. EndAsTwins (R.runs first.now) (R.runs second.now) (sizes scales.now) f
        (map value_tree args.items.items) (map value_tree scaled.items.items)
        (outcome_tree t.first) (outcome_tree t.second)) }
{
    let _bases = scales.len();
    match first.call(alloc, f, args, budget) {
        Ok(outcome) => beside(alloc, outcome, second, f, scaled, budget),
        Err(stop) => {
            drop(scaled);
            Err(stop)
        }
    }
}

/// The outcome with that of a call beside it.
fn beside<R: Runner>(
    alloc: Global,
    first: Outcome,
    second: &R,
    f: u32,
    args: Values,
    budget: u64,
) -> Result<Twin, NoMemory>
    requires arguments { CanCall (R.runs second.now) f (map value_tree args.items.items) }
    requires budget { budget ≤ 10000000 }
    ensures first { IfOk result (λ t. outcome_tree t.first ≡ outcome_tree first) }
    ensures second { IfOk result (λ t. EndsAsMeant (R.runs second.now) f (map value_tree args.items.items) budget
        (outcome_tree t.second)) }
{
    match second.call(alloc, f, args, budget) {
        Ok(second) => Ok(Twin { first, second }),
        Err(stop) => {
            drop(first);
            Err(stop)
        }
    }
}
