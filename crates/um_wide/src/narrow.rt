//! Whether powers lie in the range of 64 bits.

ghost use Rattle.std.specs.Prelude.{◌≡◌};
ghost use Rattle.um_wide.specs.Narrow.{is_narrow_power, all_narrow};

use um_units::wide::WideTerm;

/// The greatest absolute power of 64 bits.
const MAX_POWER: u128 = 9223372036854775807;

fn is_narrow(power: i128) -> bool
    ensures { result ≡ is_narrow_power power }
{
    power.unsigned_abs() <= MAX_POWER
}

/// Whether each power lies in -9223372036854775807..9223372036854775807.
pub fn are_narrow(terms: &[WideTerm]) -> bool
    ensures { result ≡ all_narrow terms.now }
{
    terms.iter().all(|term| is_narrow(term.power))
}
