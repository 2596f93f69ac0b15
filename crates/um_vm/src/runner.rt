//! The code runner.
use crate::counting::{CountedOutcome, run_code};
use std::alloc::Global;
use std::marker::Model;
use um_cells::Runner;
use um_machine::Code;
use um_shape::Shaped;
use um_tree::{Outcome, Values};
use um_units::NoMemory;

/// Runs the functions of shaped programs by their code, which is all that it keeps. Contracts see the code.
#[derive(Drop)]
pub struct CodeRunner<'a> {
    code: &'a Code,
}

impl<'a> Model for CodeRunner<'a> {
    ghost use Rattle.um_machine.specs.declared.code.Code.{Code};
    ghost use Rattle.um_machine.specs.contracts.code.Code.{the_row};

    ghost Value = { Code };

    ghost coded = { the_row.coded };

    ghost view = { λ r. r.code.now };
}

impl<'a> CodeRunner<'a> {
    ghost use Rattle.std.specs.Prelude.{◌≡◌, IfOk, map};
    ghost use Rattle.um_tree.specs.ProgramTree.{program_tree};
    ghost use Rattle.um_tree.specs.ValueTree.{value_tree, outcome_tree};
    ghost use Rattle.um_cells.specs.Running.{CanCall};
    ghost use Rattle.um_machine.specs.Machine.{EndsWith};
    ghost use Rattle.um_gen.specs.ProgramCode.{program_code};
    ghost use Rattle.um_vm.specs.Counting.{CountsSteps};
    ghost use Rattle.um_vm.specs.Running.{IsCodeOf};

    /// A runner of the program by its code, which must be what `generate` gives for it. It keeps the code alone. Takes
    /// no memory.
    pub fn new(shaped: &Shaped, code: &'a Code) -> CodeRunner<'a>
        requires { code.now ≡ program_code (program_tree shaped.now).functions }
        ensures code { result ≡ code.now }
        ensures runs { IsCodeOf result (program_tree shaped.now) }
    {
        let _program = shaped.program();
        CodeRunner { code }
    }

    /// Calls function `f`, counted from 0, on values in the order of its parameters, and counts the steps that the
    /// machine takes to the end. The call itself and each call that it makes take one from the budget.
    ///
    /// `f` is the number of a function of the program, and the values have the shapes of its parameters. `NoMemory` is
    /// the one error.
    ///
    /// The rule is this project's own: the call ends as the run of the code does.
    pub fn count_steps(
        &self,
        alloc: Global,
        f: u32,
        args: Values,
        budget: u64,
    ) -> Result<CountedOutcome, NoMemory>
        requires { CanCall (λ p. IsCodeOf self.now p) f (map value_tree args.items.items) }
        ensures end { IfOk result (λ counted. EndsWith self.now f (map value_tree args.items.items) budget
            (outcome_tree counted.outcome)) }
        ensures steps { IfOk result (λ counted. CountsSteps self.now f (map value_tree args.items.items) budget
            (outcome_tree counted.outcome) counted.steps) }
    {
        run_code(alloc, self.code, f, args, budget)
    }
}

impl<'a> Runner for CodeRunner<'a> {
    ghost use Rattle.um_vm.specs.Running.{IsCodeOf};

    ghost runs = { λ code p. IsCodeOf code p };

    /// Runs the code of the function. Lists and records stand in cells of a store, so a variable is copied at once.
    fn call(&self, alloc: Global, f: u32, args: Values, budget: u64) -> Result<Outcome, NoMemory> {
        match self.count_steps(alloc, f, args, budget) {
            Ok(counted) => Ok(counted.outcome),
            Err(e) => Err(e),
        }
    }
}
