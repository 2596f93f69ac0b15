//! What agreements come to, as contracts of a function that does nothing.
ghost use Rattle.um_agree.specs.Laws.{RowsAreAgreements, AgreementsAreEqualities, AgreementsHoldSlots};

/// The rows of a function are those of its agreements, and units satisfy the rows of an agreement exactly if they make
/// its two types equal. The types hold slots alone.
pub fn agreements()
    ensures rows { RowsAreAgreements }
    ensures equal { AgreementsAreEqualities }
    ensures slots { AgreementsHoldSlots }
{}
