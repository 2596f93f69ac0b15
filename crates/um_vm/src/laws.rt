//! The laws of machines and of counted steps, as contracts of functions that do nothing.
ghost use Rattle.um_vm.specs.Laws.{MachinesShowOneStep, CallsAreCountedOnce};

/// What a machine shows is one step of a run at most.
pub fn shown_steps()
    ensures { MachinesShowOneStep }
{}

/// A call of code has one outcome at most, and one count of the steps to it.
pub fn counted_calls()
    ensures { CallsAreCountedOnce }
{}
