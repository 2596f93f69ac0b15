//! The machine.
ghost use Rattle.std.specs.Prelude.{IsTrue};
ghost use Rattle.um_vm.specs.Phases.{phase_holds};

use crate::phase::{End, Phase, first_phase};
use crate::step::Step;
use std::alloc::{AllocError, Global};
use um_machine::Code;
use um_steps::Run;
use um_tree::{Outcome, Values};
use um_units::NoMemory;
use um_words::Stop;

/// A machine that runs code: a stack of words over shared cells, and the functions that were called.
///
/// Its states are those of the machine's definition in `um_machine`, over values; `Shows` says in which one it is.
/// Lists and records stand in cells, so a variable is copied at once and a list shares its tail.
#[derive(Drop)]
pub struct Machine<'a> {
    alloc: Global,
    pub(crate) run: Run<'a>,
    pub(crate) phase: Phase,
    ghost ended: { IsTrue (phase_holds run.stack.store phase) },
}

impl<'a> Machine<'a> {
    ghost use Rattle.std.specs.Prelude.{◌≡◌, ◌-◌, ◌<◌, ◌≤◌, length, map, slice_get, Err, IfOk, OnOk, OnErr};
    ghost use Rattle.std.specs.Prelude.{IsErr};
    ghost use Rattle.um_tree.specs.ValueTree.{OutcomeTree, value_tree, outcome_tree};
    ghost use Rattle.um_machine.specs.declared.code.Code.{Code};
    ghost use Rattle.um_machine.specs.Machine.{State, Step as MachineStep, going, done, starts, next, step};
    ghost use Rattle.um_vm.specs.declared.phase.Phase.TheVariants.{Going, Ended};
    ghost use Rattle.um_vm.specs.Ends.{IsEnd};
    ghost use Rattle.um_vm.specs.Phases.{end_holds};
    ghost use Rattle.um_steps.specs.Stepping.{IsStep, Makes};
    ghost use Rattle.um_vm.specs.Showing.{Shows, HasFailed, IsAnswer, IsCallOf};

    /// A machine at the start of a call of function `f` of the code on the arguments, in the order of its parameters.
    /// The call itself takes one from the budget.
    ///
    /// `f` is the number of an entry of the code, and the arguments are as many as its parameters. `NoMemory` is the
    /// one error.
    pub fn start(
        alloc: Global,
        code: &'a Code,
        f: u32,
        args: Values,
        budget: u64,
    ) -> Result<Machine<'a>, NoMemory>
        requires { IsCallOf code.now f (length args.items.items) }
        ensures { IfOk result (λ machine. Shows code.now machine
            (starts code.now f (map value_tree args.items.items) budget (slice_get code.now.entries f))) }
    {
        let run = Run::new(alloc, code, f, args, budget.saturating_sub(1))?;
        Ok(Machine {
            alloc,
            run,
            phase: first_phase(budget),
        })
    }

    /// One step: the instruction at the machine's address.
    ///
    /// `Stuck` comes exactly if no instruction applies, and `Ended` if the run has ended. A machine that is stuck
    /// or has ended answers the same at each further step, or `NoMemory`, which is the one error and is answered from
    /// then on.
    pub fn step(&mut self) -> Result<Step, NoMemory>
        ensures refines { (code : Code) (r : MachineStep) → Shows code self.old r
            → IfOk result (λ answer. IsAnswer answer (next r (step code)) × Shows code self.new (next r (step code))) }
        ensures failed { HasFailed self.old → IsErr result }
        ensures no_memory { OnErr result (HasFailed self.new) }
    {
        match self.advance() {
            Ok(()) => self.answer(),
            Err(e) => Err(e),
        }
    }

    // One step of a machine that goes on.
    fn advance(&mut self) -> Result<(), NoMemory>
        ensures refines { (code : Code) (r : MachineStep) → Shows code self.old r
            → OnOk result (Shows code self.new (next r (step code))) }
        ensures failed { HasFailed self.old → IsErr result }
        ensures no_memory { OnErr result (HasFailed self.new) }
    {
        match self.phase {
            Phase::Going => match self.go_on(1) {
                Ok(_) => Ok(()),
                Err(e) => Err(e),
            },
            Phase::Ended(_) => Ok(()),
            Phase::Stuck => Ok(()),
            Phase::Failed => Err(AllocError),
        }
    }

    /// Makes steps of a machine that goes on, up to the end of its run and at most `limit`, which isn't 0. Gives their
    /// number.
    pub(crate) fn go_on(&mut self, limit: u64) -> Result<u64, NoMemory>
        requires going { self.old.phase ≡ Going }
        requires limit { 0 < limit }
        ensures refines { (code : Code) (s : State) → Shows code self.old (going s)
            → IfOk result (λ k. Makes code k s (Shows code self.new)) }
        ensures count { IfOk result (λ k. k ≤ limit) }
        ensures no_memory { OnErr result (HasFailed self.new) }
    {
        let progress = self.run.run(limit);
        match progress.last {
            Ok(()) => Ok(progress.steps),
            Err(stop) => {
                self.stop(stop)?;
                Ok(progress.steps)
            }
        }
    }

    // The run doesn't go on.
    fn stop(&mut self, stop: Stop) -> Result<(), NoMemory>
        ensures refines { (code : Code) (r : MachineStep) → IsStep code r (Err stop) self.old.run
            → OnOk result (Shows code self.new r) }
        ensures no_memory { OnErr result (HasFailed self.new) }
    {
        match stop {
            Stop::Returned => match self.run.stack.top() {
                Some(word) => {
                    self.phase = Phase::Ended(End::Value(word));
                    Ok(())
                }
                None => {
                    self.phase = Phase::Stuck;
                    Ok(())
                }
            },
            Stop::Trap(trap) => {
                self.phase = Phase::Ended(End::Trap(trap));
                Ok(())
            }
            Stop::BudgetEnd => {
                self.phase = Phase::Ended(End::BudgetEnd);
                Ok(())
            }
            Stop::Stuck => {
                self.phase = Phase::Stuck;
                Ok(())
            }
            Stop::NoMemory => {
                self.phase = Phase::Failed;
                Err(AllocError)
            }
        }
    }

    // What a step answers.
    fn answer(&mut self) -> Result<Step, NoMemory>
        ensures shows { (code : Code) (r : MachineStep) → Shows code self.old r
            → IfOk result (λ answer. IsAnswer answer r × Shows code self.new r) }
        ensures no_memory { OnErr result (HasFailed self.new) }
    {
        match self.phase {
            Phase::Going => Ok(Step::Going),
            Phase::Ended(end) => self.answer_end(end),
            Phase::Stuck => Ok(Step::Stuck),
            Phase::Failed => Err(AllocError),
        }
    }

    fn answer_end(&mut self, end: End) -> Result<Step, NoMemory>
        requires { IsTrue (end_holds self.old.run.stack.store end) }
        ensures shows { (code : Code) (o : OutcomeTree) → self.old.phase ≡ Ended end → Shows code self.old (done o)
            → IfOk result (λ answer. IsAnswer answer (done o) × Shows code self.new (done o)) }
        ensures no_memory { OnErr result (HasFailed self.new) }
    {
        match self.outcome(end) {
            Ok(outcome) => Ok(Step::Ended(outcome)),
            Err(e) => {
                self.phase = Phase::Failed;
                Err(e)
            }
        }
    }

    /// The outcome of a run with this end.
    pub(crate) fn outcome(&self, end: End) -> Result<Outcome, NoMemory>
        requires { IsTrue (end_holds self.now.run.stack.store end) }
        ensures { (o : OutcomeTree) → IsEnd self.now.run.stack.store end o
            → IfOk result (λ outcome. o ≡ outcome_tree outcome) }
    {
        match end {
            End::Value(word) => match self.run.stack.store.get(self.alloc, word) {
                Ok(value) => Ok(Outcome::Value(value)),
                Err(e) => Err(e),
            },
            End::Trap(trap) => Ok(Outcome::Trap(trap)),
            End::BudgetEnd => Ok(Outcome::BudgetEnd),
        }
    }
}
