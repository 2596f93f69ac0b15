//! The tree runner.
use crate::call::{put_arguments, run_call, trace_call};
use crate::stop::Path;
use std::alloc::Global;
use std::marker::Model;
use um_cells::{Runner, Store};
use um_shape::Shaped;
use um_tree::{Outcome, Values};
use um_units::NoMemory;

/// Runs the functions of a shaped program by its resolved tree. Contracts see the program.
#[derive(Drop)]
pub struct TreeRunner<'a> {
    shaped: &'a Shaped,
}

impl<'a> Model for TreeRunner<'a> {
    ghost use Rattle.um_tree.specs.declared.program.Program.{Program};
    ghost use Rattle.um_tree.specs.contracts.program.Program.{the_row};

    ghost Value = { Program };

    ghost coded = { the_row.coded };

    ghost view = { λ r. r.shaped.now };
}

impl<'a> TreeRunner<'a> {
    ghost use Rattle.std.specs.Prelude.{◌≡◌, IfOk, map};
    ghost use Rattle.um_tree.specs.ValueTree.{value_tree};
    ghost use Rattle.um_tree.specs.ProgramTree.{program_tree};
    ghost use Rattle.um_cells.specs.Arguments.{AreArgumentsOf};
    ghost use Rattle.um_eval.specs.Paths.{IsFound};

    /// A runner of the program. Takes no memory.
    pub fn new(shaped: &'a Shaped) -> TreeRunner<'a>
        ensures { result ≡ shaped.now }
    {
        TreeRunner { shaped }
    }

    /// Where a call stops, if it does so in the body of its function: at which node, on which operands, and inside
    /// which calls. It is the one trace of the call ([`laws`](crate::laws)). There is none if the call gives a value,
    /// or if its own call finds no budget.
    ///
    /// `f` is the number of a function of the program, counted from 0, and the values have the shapes of its
    /// parameters. `NoMemory` is the one error. The rule is this project's own.
    pub fn trace(
        &self,
        alloc: Global,
        f: u32,
        args: Values,
        budget: u64,
    ) -> Result<Option<Path>, NoMemory>
        requires arguments { AreArgumentsOf (program_tree self.now) f (map value_tree args.items.items) }
        ensures { IfOk result (λ found. IsFound (program_tree self.now).functions f (map value_tree args.items.items)
            budget found) }
    {
        let functions = &self.shaped.program().functions.items;
        let mut store = Store::new(alloc);
        let words = put_arguments(alloc, &mut store, args)?;
        trace_call(alloc, functions, store, f, words, budget)
    }
}

impl<'a> Runner for TreeRunner<'a> {
    ghost use Rattle.std.specs.Prelude.{◌≡◌};
    ghost use Rattle.um_tree.specs.ProgramTree.{program_tree};

    ghost runs = { λ r p. p ≡ program_tree r };

    /// Evaluates the body of the function. Lists and records stand in cells of a store, so a variable is copied at
    /// once.
    fn call(&self, alloc: Global, f: u32, args: Values, budget: u64) -> Result<Outcome, NoMemory> {
        let functions = &self.shaped.program().functions.items;
        let mut store = Store::new(alloc);
        let words = put_arguments(alloc, &mut store, args)?;
        run_call(alloc, functions, store, f, words, budget)
    }
}
