//! The laws of rescaling, as contracts of functions that do nothing. A crate above cites the law that it needs.
ghost use Rattle.um_scaling.specs.Laws.{
  ScalingLaw,
  FactorsAreProducts,
  FactorsArePowers,
  RescaledIsFormed,
  RescaledInputsAreScaled,
  FreeZeros,
  FreeZerosOfCalls,
};

/// A program that is another one rescaled ends its calls as that one does, on arguments that are rescaled too and at
/// every budget: both use the budget up, or both divide by 0, or both give values, and the second value is the first
/// one rescaled. Nothing is said if one of the two overflows.
pub fn scaling()
    ensures { ScalingLaw }
{}

/// The factor of a product of units is the product of their factors, and that of a power is the power.
pub fn factors()
    ensures products { FactorsAreProducts }
    ensures powers { FactorsArePowers }
{}

/// A formed program stays formed when it is rescaled.
pub fn rescaled_programs()
    ensures { RescaledIsFormed }
{}

/// The values of rescaled inputs are the inputs' values rescaled, at all types at which the inputs stand.
pub fn rescaled_inputs()
    ensures { RescaledInputsAreScaled }
{}

/// A number of a call's value is 0 if its unit isn't closed.
pub fn free_zeros()
    ensures results { FreeZeros }
    ensures calls { FreeZerosOfCalls }
{}
