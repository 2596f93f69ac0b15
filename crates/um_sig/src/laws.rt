//! The laws of reading and matching, as contracts of functions that do nothing. A crate above cites the law that it
//! needs.
ghost use Rattle.um_sig.specs.Laws.{AnswersSayWhatInstancesAre, AnswersSayWhatTypingsAre, AnswersAreUnique};
ghost use Rattle.um_sig.specs.Laws.{FormedSignaturesAreOverTheirVariables, ReadingsAreUnique};

/// If a signature is accepted, its instances are all instances of the scheme. If it is refused for its form or its
/// units they aren't, and units match the types before the index that is named, but none match those through it.
pub fn instances()
    ensures { AnswersSayWhatInstancesAre }
{}

/// If a signature is accepted for a function's scheme in a formed program, its instances are all typings of the
/// function. If it is refused for its form or its units, they aren't.
pub fn typings()
    ensures { AnswersSayWhatTypingsAre }
{}

/// A signature that was read is over its variables, and its types over the declared base units.
pub fn signatures()
    ensures { FormedSignaturesAreOverTheirVariables }
{}

/// There is one answer of [`crate::conform`], unless memory runs out.
pub fn answers()
    ensures { AnswersAreUnique }
{}

/// There is one answer of [`crate::read_signature`] to a text, unless memory runs out.
pub fn readings()
    ensures { ReadingsAreUnique }
{}
