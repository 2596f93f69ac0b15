//! What holds of all decimal numbers, as contracts of functions that do nothing.
ghost use Rattle.um_decimals.specs.Laws.{NearestIsNearest, OneIsNearest, DecimalIsNearest, ExactlyTheFraction};

/// The whole number that is taken is nearest to the quotient, even if there are two, and no other number is both.
pub fn nearest_numbers()
    ensures nearest { NearestIsNearest }
    ensures one { OneIsNearest }
{}

/// A decimal number differs from its fraction by at most half a unit of its last digit, and `~` stands before it
/// exactly if the two differ.
pub fn decimals()
    ensures nearest { DecimalIsNearest }
    ensures marked { ExactlyTheFraction }
{}
