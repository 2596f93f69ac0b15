//! How many units a use leaves open.

ghost use Rattle.std.specs.Prelude.{◌≡◌, Bool, map, slice_get};
ghost use Rattle.um_tree.specs.ProgramTree.{record_tree, scheme_tree};
ghost use Rattle.um_uses.specs.Holes.{callee_holes, record_holes};
ghost use Rattle.um_uses.specs.Callees.{callee_of};

use um_tree::{Record, Scheme};

/// How many units a call of function `j` leaves open in the function of this number: one for each variable of the
/// scheme of an earlier function, and none otherwise.
pub fn callee_units(schemes: &[Scheme], number: u32, j: u32) -> usize
    ensures { (recurs : Bool) → result ≡ callee_holes (callee_of (map scheme_tree schemes.now) number recurs j) }
{
    if j >= number {
        return 0;
    }
    match schemes.get(j as usize) {
        Some(scheme) => scheme.vars as usize,
        None => 0,
    }
}

/// How many units a value of record `r` leaves open: one for each unit that the record takes.
pub fn record_units(records: &[Record], r: u32) -> usize
    ensures { result ≡ record_holes (slice_get (map record_tree records.now) r) }
{
    match records.get(r as usize) {
        Some(record) => record.units as usize,
        None => 0,
    }
}
