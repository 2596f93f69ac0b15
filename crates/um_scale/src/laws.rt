//! Laws of rescaled programs and of their calls, as contracts of functions that do nothing. A crate above cites the law
//! that it needs.
ghost use Rattle.um_scale.specs.Laws.{RescaledKeepsFault, RescaledTextsAreUnique, RescaledArguments, TwinsAreScaled};
ghost use Rattle.um_scale.specs.Laws.{TwinsHaveFreeZeros};

/// A rescaled program has the first shape fault that the program has: so it has its shapes where the program has them.
pub fn rescaled_programs()
    ensures { RescaledKeepsFault }
{}

/// A text has the numbers of a rescaled program in one way.
pub fn rescaled_texts()
    ensures { RescaledTextsAreUnique }
{}

/// The values of rescaled inputs are arguments in the rescaled program; twins of a call on inputs are scaled at the
/// call's type, and their values are 0 wherever it has a unit that isn't closed.
pub fn twin_calls()
    ensures arguments { RescaledArguments }
    ensures scaled { TwinsAreScaled }
    ensures free_zeros { TwinsHaveFreeZeros }
{}
