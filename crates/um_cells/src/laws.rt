//! The laws of words and stores, as contracts of functions that do nothing. A crate above cites the law that it needs.
ghost use Rattle.um_cells.specs.Laws.{WordsHaveOneValue, ListsHaveOneValue, HoldingWordsDenote, HoldingListsDenote};
ghost use Rattle.um_cells.specs.Laws.{ListsAreKept, HoldingIsKept, KeepingIsTransitive, ListsTakeTheirArm};

/// A word denotes one value at most, and some words one list of values at most.
pub fn one_value()
    ensures word { WordsHaveOneValue }
    ensures words { ListsHaveOneValue }
{}

/// Words pass the test of `Store::holds` exactly if they denote values.
pub fn holding_words()
    ensures word { HoldingWordsDenote }
    ensures words { HoldingListsDenote }
{}

/// If what single words denote is kept, so is what lists of them denote, and each word that passes the test still
/// passes it. Two steps that each keep it keep it together.
pub fn kept_words()
    ensures words { ListsAreKept }
    ensures holding { HoldingIsKept }
    ensures steps { KeepingIsTransitive }
{}

/// How a list is taken apart is the arm that the meaning of a match takes.
pub fn arms_of_lists()
    ensures { ListsTakeTheirArm }
{}
