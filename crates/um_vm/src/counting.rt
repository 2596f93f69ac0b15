//! A call of code, from its arguments to its outcome, with its steps counted.
ghost use Rattle.std.specs.Prelude.{◌≡◌, length, map, IfOk, IsTrue};
ghost use Rattle.um_tree.specs.ValueTree.{OutcomeTree, value_tree, outcome_tree};
ghost use Rattle.um_machine.specs.Machine.{EndsWith};
ghost use Rattle.um_machine.specs.Jumps.{JumpsGoForward};
ghost use Rattle.um_vm.specs.Ends.{IsEnd};
ghost use Rattle.um_vm.specs.Phases.{end_holds};
ghost use Rattle.um_vm.specs.Showing.{IsCallOf};
ghost use Rattle.um_vm.specs.Counting.{CountsSteps};

use crate::machine::Machine;
use crate::phase::{End, Phase};
use std::alloc::Global;
use um_machine::Code;
use um_tree::{Outcome, Values};
use um_units::NoMemory;

/// How a call ends, and in how many steps.
#[derive(Drop)]
pub struct CountedOutcome {
    pub outcome: Outcome,
    /// The steps of the machine, or 18446744073709551615 if they are more
    pub steps: u64,
}

/// Calls function `f` of the code, counted from 0, on values in the order of its parameters, and counts the steps that
/// the machine takes to the end. The call itself and each call that it makes take one from the budget.
///
/// `f` is the number of an entry of the code, the values are as many as its parameters, the jumps of the code go
/// forward, and the call has an outcome, as calls of generated code and of verified images have. The call ends as the
/// machine's definition does. `NoMemory` is the one error.
///
/// The machine is that of P. Landin, The mechanical evaluation of expressions, 1964; the instructions are this
/// project's own.
pub fn run_code(
    alloc: Global,
    code: &Code,
    f: u32,
    args: Values,
    budget: u64,
) -> Result<CountedOutcome, NoMemory>
    requires call { IsCallOf code.now f (length args.items.items) }
    requires forward { JumpsGoForward code.now }
    requires ends { (o : OutcomeTree) × EndsWith code.now f (map value_tree args.items.items) budget o }
    ensures end { IfOk result (λ counted. EndsWith code.now f (map value_tree args.items.items) budget
        (outcome_tree counted.outcome)) }
    ensures steps { IfOk result (λ counted. CountsSteps code.now f (map value_tree args.items.items) budget
        (outcome_tree counted.outcome) counted.steps) }
{
    let mut machine = Machine::start(alloc, code, f, args, budget)?;
    let mut steps: u64 = 0;
    loop {
        match machine.phase {
            Phase::Going => {
                let more = machine.go_on(u64::MAX)?;
                steps = steps.saturating_add(more);
            }
            Phase::Ended(end) => return finish(&machine, end, steps),
            Phase::Stuck => unreachable!(),
            Phase::Failed => unreachable!(),
        }
    }
}

fn finish(machine: &Machine, end: End, steps: u64) -> Result<CountedOutcome, NoMemory>
    requires { IsTrue (end_holds machine.now.run.stack.store end) }
    ensures { (o : OutcomeTree) → IsEnd machine.now.run.stack.store end o
        → IfOk result (λ counted. (o ≡ outcome_tree counted.outcome) × (counted.steps ≡ steps)) }
{
    match machine.outcome(end) {
        Ok(outcome) => Ok(CountedOutcome { outcome, steps }),
        Err(e) => Err(e),
    }
}
