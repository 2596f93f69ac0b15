//! The laws of typing and of meaning, as contracts of functions that do nothing. A crate above cites the law that it
//! needs.
ghost use Rattle.um_tree.specs.Laws.{
  EarlierTypings,
  EarlierShapesAre,
  FormedLiteralsAreClosed,
  FormedUnitsAreDeclared,
  NumberedSchemesAreOverTheirVariables,
  ClosedUnitsAreFixed,
  ReplacementsKeepTypings,
  TypingsWithoutParameters,
  HomomorphismsKeepTypings,
  SumHasOneUnit,
  DifferenceHasOneUnit,
  ComparisonHasOneUnit,
  ZeroHasEveryUnit,
  NumberHasItsUnit,
  RestIsWithin,
  LargerBudgetSuffices,
  TrapStays,
  CallRestIsWithin,
  CallLargerBudgetSuffices,
  CallTrapStays,
  TypedExpressionHasShape,
  TypedHasShape,
};
ghost use Rattle.um_tree.specs.MeaningEquations.{
  EquationsOfMeaning,
  DeclaredCallsMeanTheirBody,
  OtherCallsAreWrong,
  UndeclaredCallsAreWrong,
};

/// What a function may use of an earlier one are the earlier one's typings, and its shapes.
pub fn earlier_functions()
    ensures typings { EarlierTypings }
    ensures shapes { EarlierShapesAre }
{}

/// A typing stays a typing with any units in place of its variables, and under each homomorphism of units that leaves
/// the base units of notes and fields and the units of literals, as far as the function and those before it write them.
/// A homomorphism that leaves the base units of a closed unit leaves the unit.
pub fn changes_of_units()
    ensures replacements { ReplacementsKeepTypings }
    ensures homomorphisms { HomomorphismsKeepTypings }
    ensures closed { ClosedUnitsAreFixed }
{}

/// The literals of a formed program have closed units or holes, and each unit that it writes is over its base units.
pub fn literals_of_formed_programs()
    ensures closed { FormedLiteralsAreClosed }
    ensures declared { FormedUnitsAreDeclared }
{}

/// The typings of a function without unit parameters are those that some choice of units for its named variables gives.
pub fn typings_without_parameters()
    ensures { TypingsWithoutParameters }
{}

/// The types of a numbered scheme are over the scheme's own variables.
pub fn numbered_schemes()
    ensures { NumberedSchemesAreOverTheirVariables }
{}

/// A sum, a difference and a comparison are typed exactly if both sides have one unit.
pub fn equal_units()
    ensures sums { SumHasOneUnit }
    ensures differences { DifferenceHasOneUnit }
    ensures comparisons { ComparisonHasOneUnit }
{}

/// A zero with a hole has every unit, and no other number has a hole; a number with a written unit has this one alone.
pub fn units_of_literals()
    ensures zero { ZeroHasEveryUnit }
    ensures written { NumberHasItsUnit }
{}

/// The equations of the meaning: what an expression means, by what its parts mean, and what a call of a function gives.
pub fn equations_of_meaning()
    ensures expressions { EquationsOfMeaning }
    ensures calls { DeclaredCallsMeanTheirBody }
    ensures others { OtherCallsAreWrong }
    ensures undeclared { UndeclaredCallsAreWrong }
{}

/// What an expression leaves of its budget is at most the budget. A budget that sufficed suffices with the same value
/// when it grows, and the rest grows by as much; a trap stays too.
pub fn budgets_of_expressions()
    ensures rest { RestIsWithin }
    ensures larger { LargerBudgetSuffices }
    ensures trap { TrapStays }
{}

/// The same of calls.
pub fn budgets_of_calls()
    ensures rest { CallRestIsWithin }
    ensures larger { CallLargerBudgetSuffices }
    ensures trap { CallTrapStays }
{}

/// A typed expression has the shape of its type, and a typed function the shapes of its types.
pub fn shapes_of_types()
    ensures expressions { TypedExpressionHasShape }
    ensures functions { TypedHasShape }
{}
