//! The law that refusals for units have reasons. A call does nothing: what it ensures is the law.
ghost use Rattle.um_unit_reasons.specs.Laws.{RowsAreDecided, RefusalsHaveReasons};

/// Whether rows have a joint solution is decided, whatever their powers are. So a function that is refused for units
/// has a core of the rows that force it to fail, and what is told of it.
pub fn refusals_have_reasons()
    ensures decided { RowsAreDecided }
    ensures reasons { RefusalsHaveReasons }
{}
