//! The laws of fractions, as contracts of functions that do nothing. A crate above cites the law that it needs.
ghost use Rattle.um_frac.specs.Laws.{
  GreatestIsCommon,
  PartsInRange,
  PartsInLowestTerms,
  EqualParts,
  EqualCrossProducts,
  OneForm,
  ReducedIsQuotient,
  SumIsExact,
  SumOverflows,
  SumNeverDivZero,
  DifferenceIsExact,
  DifferenceOverflows,
  DifferenceNeverDivZero,
  ProductIsExact,
  ProductOverflows,
  ProductNeverDivZero,
  QuotientIsExact,
  QuotientByZero,
  QuotientOverflows,
  WholePowerIsExact,
  WholePowerOfZero,
  WholePowerOverflows,
  PowerZeroIsOne,
  PowersOfProducts,
  NegationIsExact,
  SameIsEqual,
  OrderIsIrreflexive,
  OrderIsTransitive,
  OrderIsTotal,
};

/// Each common divisor divides the greatest one.
pub fn greatest_is_common()
    ensures { GreatestIsCommon }
{}

/// The parts of a number lie in the range, and no number but 1 divides both.
pub fn parts()
    ensures range { PartsInRange }
    ensures lowest { PartsInLowestTerms }
{}

/// Two numbers are equal exactly if their parts are, and exactly if their cross products are.
pub fn equality()
    ensures parts { EqualParts }
    ensures cross_products { EqualCrossProducts }
    ensures tested { SameIsEqual }
{}

/// Each quotient within the range has exactly one form, and that is what reducing it gives.
pub fn one_form_each()
    ensures within_range { OneForm }
    ensures reduced { ReducedIsQuotient }
{}

/// A sum is the number that the cross products say, and overflows exactly if none is in range.
pub fn sums()
    ensures exact { SumIsExact }
    ensures overflow { SumOverflows }
    ensures never_div_zero { SumNeverDivZero }
{}

/// A difference is the number that the cross products say, and overflows exactly if none is in range.
pub fn differences()
    ensures exact { DifferenceIsExact }
    ensures overflow { DifferenceOverflows }
    ensures never_div_zero { DifferenceNeverDivZero }
{}

/// A product is the number that the products of the parts say, and overflows exactly if none is in range.
pub fn products()
    ensures exact { ProductIsExact }
    ensures overflow { ProductOverflows }
    ensures never_div_zero { ProductNeverDivZero }
{}

/// A quotient is the number that the cross products say; a quotient by 0 is a trap of its own.
pub fn quotients()
    ensures exact { QuotientIsExact }
    ensures zero { QuotientByZero }
    ensures overflow { QuotientOverflows }
{}

/// A whole power is the number that the powers of the parts say; a negative power of 0 is a trap of its own, and the
/// power 0 of every number is 1. A power of a product is the product of the powers.
pub fn whole_powers()
    ensures exact { WholePowerIsExact }
    ensures zero { WholePowerOfZero }
    ensures overflow { WholePowerOverflows }
    ensures power_zero { PowerZeroIsOne }
    ensures products { PowersOfProducts }
{}

/// The negation has the numerator with the other sign and the same denominator.
pub fn negations()
    ensures { NegationIsExact }
{}

/// The order of numbers is strict and total.
pub fn order()
    ensures irreflexive { OrderIsIrreflexive }
    ensures transitive { OrderIsTransitive }
    ensures total { OrderIsTotal }
{}
