//! The laws of certificates, as contracts of functions that do nothing. A crate above cites the law that it needs.
ghost use Rattle.um_check.specs.Laws.{ValidYesIsExact, ValidYesIsGeneral, ValidNoRefutes};
ghost use Rattle.um_check.specs.Laws.{SolvedRowsHaveInverses, RefusedRowsHaveRefutations};

/// If a Yes is valid the scheme's instances are exactly what the joint solutions of the rows give, and with unit
/// parameters some joint solution has a unit of its own for each.
pub fn schemes()
    ensures exact { ValidYesIsExact }
    ensures general { ValidYesIsGeneral }
{}

/// If a No is valid the rows up to the last that it names have no joint solution, or, if it isn't loose, none in which
/// each unit parameter is a unit of its own.
pub fn refusals()
    ensures { ValidNoRefutes }
{}

/// Certificates exist: rows that the elimination solves have an inverse substitution from the units that it ends with,
/// and rows that it refuses have a product that can't become 1.
pub fn certificates_exist()
    ensures solved { SolvedRowsHaveInverses }
    ensures refused { RefusedRowsHaveRefutations }
{}
