//! The wildcard on a number: 0 alone may leave its unit open.
//!
//! ```
//! let unit = open_unit(Frac::zero(), at)?; // the unit of `0<_>` is left open
//! ```
#![tactic(auto)]

ghost use Rattle.std.specs.Prelude.{◌≡◌, Ok, IfOk, IfErr};
ghost use Rattle.um_measures.specs.Stops.{IsFirst};
ghost use Rattle.um_measures.specs.Wildcards.{open_unit as unit_left_open};

use um_frac::Frac;
use um_measures::NameStop;
use um_tree::UnitNote;

/// The unit of a number with the wildcard, as `0<_>`: it stays open. `at` is the place of the number.
///
/// # Errors
///
/// `Hole` at the place if the number isn't 0: 0 alone has every unit (F# specification, Units Of Measure).
pub fn open_unit(number: Frac, at: u32) -> Result<UnitNote, NameStop>
    ensures exact { IfOk result (λ unit. unit_left_open number at ≡ Ok unit) }
    ensures faults { IfErr result (IsFirst (unit_left_open number at)) }
{
    if number.num() == 0 {
        Ok(UnitNote::Hole)
    } else {
        Err(NameStop::Hole { at })
    }
}
