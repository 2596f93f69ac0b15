//! The laws of equations, as contracts of functions that do nothing. A crate above cites the law that it needs.
ghost use Rattle.um_rows.specs.Laws.{
  LooseTypingsAreSolutions,
  RigidTypingsAreSolutions,
  RowsHoldSlots,
  TypesHoldSlots,
  NodesHoldSlots,
  JudgedSchemesArePrincipal,
  JudgedUntypedHaveNone,
  JudgedNotGeneralHaveNone,
  GeneralWithoutParameters,
  CallResultsAreSolutions,
  JudgedCallsHaveTheirType,
  JudgedUntypedCallsHaveNone,
  ShapedFunctionsFormNoWrongShape,
};

/// The loose typings of a function are exactly what the joint solutions of its rows give, and the rigid ones exactly
/// what those give in which each unit parameter is a unit of its own, if the functions before it have their schemes.
pub fn typings_are_solutions()
    ensures loose { LooseTypingsAreSolutions }
    ensures rigid { RigidTypingsAreSolutions }
{}

/// The rows of a function hold its slots alone, and so do its types and those of its nodes.
pub fn slots_of_equations()
    ensures rows { RowsHoldSlots }
    ensures types { TypesHoldSlots }
    ensures nodes { NodesHoldSlots }
{}

/// The scheme that a function is judged to have is numbered, and its instances are exactly the function's typings. A
/// function that is judged to have no typing, or to be not general, has none, and the place is that of its first
/// unsolvable row: no units satisfy the rows up to it, or some do, but none in which each unit parameter is a unit of
/// its own. Without unit parameters no function is judged to be not general.
pub fn judgements()
    ensures schemes { JudgedSchemesArePrincipal }
    ensures refusals { JudgedUntypedHaveNone }
    ensures not_general { JudgedNotGeneralHaveNone }
    ensures general { GeneralWithoutParameters }
{}

/// The results of a call are exactly what the joint solutions of its rows give. The type that a call is judged to have
/// is a type of the call, and a call that is judged to have none has no result.
pub fn calls()
    ensures results { CallResultsAreSolutions }
    ensures types { JudgedCallsHaveTheirType }
    ensures refusals { JudgedUntypedCallsHaveNone }
{}

/// A function of a formed program that has its shapes forms no step for a wrong shape.
pub fn right_shapes()
    ensures { ShapedFunctionsFormNoWrongShape }
{}
