//! The laws of generated code, as contracts of functions that do nothing. A crate above cites the law that it needs.
ghost use Rattle.um_gen.specs.Laws.{CodeEndsAsMeant, OutcomesAreReached};

/// The run of a program's code ends as the meaning of its call does, with a value, a trap or the budget's end, at every
/// budget; no step before is stuck. If a function has its shapes and the values have those of its parameters, it ends
/// so.
pub fn runs_of_code()
    ensures meant { CodeEndsAsMeant }
    ensures reached { OutcomesAreReached }
{}
