//! Laws of calls, by their definition alone. A call does nothing: what it ensures is the law.
ghost use Rattle.um_run.specs.Laws.{CallsAreTyped, RefusedCallsHaveNoResult, FittingCallsAreCalls};
ghost use Rattle.um_run.specs.Laws.{CallsAreUnique, AbbreviationsAreClosed};
ghost use Rattle.um_run.specs.ImageLaws.{ImageCallsAreShaped, ImageCallsAreUnique};

/// A call runs on values of its function's parameters, and its type is a type of the call; words that are refused for
/// their units have no result. If the arguments fit a typing, and no limit of slots or powers is passed, there is a
/// call.
pub fn calls()
    ensures typed { CallsAreTyped }
    ensures refused { RefusedCallsHaveNoResult }
    ensures fitting { FittingCallsAreCalls }
{}

/// At most one answer fits the words, want of memory aside.
pub fn unique_calls()
    ensures { CallsAreUnique }
{}

/// The units of a text's abbreviations are closed, over the base units of its program.
pub fn abbreviations()
    ensures { AbbreviationsAreClosed }
{}

/// A call of a verified image can be run, and words have one answer at most, want of memory aside.
pub fn image_calls()
    ensures shaped { ImageCallsAreShaped }
    ensures unique { ImageCallsAreUnique }
{}
