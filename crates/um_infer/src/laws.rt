//! The laws of inference, as contracts of functions that do nothing. A crate above cites the law that it needs.
ghost use Rattle.um_infer.specs.Laws.{
  GivenSchemesArePrincipal,
  SchemesAreGivenToTyped,
  GivenSchemesAreSmall,
  UnitsStopAtFirstUntyped,
  NotGeneralStopsAtFirstUntyped,
  TypedStopForLimits,
  SlotStopsAreExact,
  RangeStopsAreExact,
  UnitStopsAreExact,
  NotGeneralStopsAreExact,
  ManySlotsAreCounted,
  JudgedCallTypes,
  JudgedCallRefusals,
  FirstRowIsOne,
  SolvableRowsAreOne,
  FirstUntypedByAllSchemes,
};
ghost use Rattle.um_infer.specs.Answers.{InferredAnswersAreRight};

/// The schemes that are given are as many as the functions, numbered, and the instances of each are exactly the typings
/// of its function. They are given exactly if every function has a typing and no function has too many slots or a power
/// out of range. Each has at most 2,000 variables and 16 parameters.
pub fn schemes()
    ensures principal { GivenSchemesArePrincipal }
    ensures exact { SchemesAreGivenToTyped }
    ensures small { GivenSchemesAreSmall }
{}

/// A stop for units is at the first function without a typing, at its first unsolvable row given the principal schemes
/// of those before it, and no units satisfy the rows up to it. A stop for want of generality is there too, where some
/// units do, but none with each unit parameter as a unit of its own. So a program whose every function has a typing
/// stops for slots or range alone.
pub fn refusals()
    ensures untyped { UnitsStopAtFirstUntyped }
    ensures not_general { NotGeneralStopsAtFirstUntyped }
    ensures typed { TypedStopForLimits }
{}

/// Suppose that each function before one has its scheme, in two ways. Then the function has the same first unsolvable
/// row by both, with the same place, and the rows up to a row have a joint solution by one exactly if they have one by
/// the other. So a function that is named as the first without a typing is named at the first unsolvable row by all
/// principal schemes of the functions before it.
pub fn first_rows()
    ensures row { FirstRowIsOne }
    ensures solvable { SolvableRowsAreOne }
    ensures untyped { FirstUntypedByAllSchemes }
{}

/// Each stop comes exactly if a function is judged so and all before it have their schemes.
pub fn stops()
    ensures slots { SlotStopsAreExact }
    ensures range { RangeStopsAreExact }
    ensures units { UnitStopsAreExact }
    ensures not_general { NotGeneralStopsAreExact }
    ensures counted { ManySlotsAreCounted }
{}

/// If the schemes of all functions are given, the type that a call is judged to have is a type of the call, and a call
/// that is judged to have none has no result.
pub fn calls()
    ensures types { JudgedCallTypes }
    ensures refusals { JudgedCallRefusals }
{}

/// An answer that is the inference's says this of the program's typings: its schemes are principal and numbered, or the
/// function is the first without a typing, at its first unsolvable row, or it is the first that exceeds a limit.
pub fn answers()
    ensures { InferredAnswersAreRight }
{}
