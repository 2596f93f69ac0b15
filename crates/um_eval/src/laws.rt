//! What holds of all traces, as contracts of functions that do nothing.
ghost use Rattle.um_eval.specs.Laws.{TracesAreStops, StopsHaveTraces, TracesAreUnique, BodiesStop};

/// A call that has a trace stops for its reason; each call that stops in its body has a trace, and one alone. It is
/// that of the body.
pub fn traces()
    ensures stops { TracesAreStops }
    ensures exist { StopsHaveTraces }
    ensures unique { TracesAreUnique }
    ensures bodies { BodiesStop }
{}
