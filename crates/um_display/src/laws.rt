//! What holds of all words of units and of all decimal numbers, as contracts of functions that do nothing.
ghost use Rattle.um_display.specs.Laws.{UnitWordsAreUnique, DecimalsAreRead};

/// A word states its parts in one way.
pub fn unit_words_are_unique()
    ensures { UnitWordsAreUnique }
{}

/// A number that is printed without `~` is read again: its digits are a number text, which has the number's value.
pub fn decimals_are_read()
    ensures { DecimalsAreRead }
{}
