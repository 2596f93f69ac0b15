//! How far a machine is.
ghost use Rattle.um_vm.specs.Phases.{first_phase};
ghost use Rattle.std.specs.Prelude.{◌≡◌};

use um_cells::Word;
use um_frac::Trap;

/// How a run ends.
#[derive(Clone, Copy)]
pub(crate) enum End {
    Value(Word),
    Trap(Trap),
    BudgetEnd,
}

/// How far a machine is.
#[derive(Clone, Copy)]
pub(crate) enum Phase {
    Going,
    Ended(End),
    Stuck,
    /// Memory ran out
    Failed,
}

/// A call at this budget: without one it has ended at once.
pub(crate) fn first_phase(budget: u64) -> Phase
    ensures { result ≡ first_phase budget }
{
    if budget == 0 {
        Phase::Ended(End::BudgetEnd)
    } else {
        Phase::Going
    }
}
