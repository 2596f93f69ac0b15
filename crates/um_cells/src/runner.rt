//! What runs the functions of a program.
ghost use Rattle.std.specs.Prelude.{◌≤◌, IfOk, map};
ghost use Rattle.um_tree.specs.ProgramTree.{ProgramTree};
ghost use Rattle.um_tree.specs.ValueTree.{value_tree, outcome_tree};
ghost use Rattle.um_cells.specs.Running.{CanCall, EndsAsMeant};

use std::alloc::Global;
use um_tree::{Outcome, Values};
use um_units::NoMemory;

/// Runs the functions of a program.
///
/// A call ends as the program's meaning has it: with a value, with a trap, or with the budget used up.
pub trait Runner {
    /// The programs whose functions it runs. A runner that keeps code alone runs each program that has this code.
    ghost runs: { Self → ProgramTree → Type 0 };

    /// Calls function `f`, counted from 0, on values in the order of its parameters. The call itself and each call
    /// that it makes take one from the budget.
    ///
    /// `f` is the number of a function of the program, the values have the shapes of its parameters, and the budget
    /// is at most 10,000,000. `NoMemory` is the one error.
    ///
    /// The rule is this project's own: a big-step meaning of a call-by-value language, from left to right, with a
    /// budget of calls.
    fn call(&self, alloc: Global, f: u32, args: Values, budget: u64) -> Result<Outcome, NoMemory>
        requires arguments { CanCall (runs self.now) f (map value_tree args.items.items) }
        requires budget { budget ≤ 10000000 }
        ensures { IfOk result (λ outcome. EndsAsMeant (runs self.now) f (map value_tree args.items.items) budget
            (outcome_tree outcome)) };
}
