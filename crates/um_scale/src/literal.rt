// Numbers in other sizes of their units.
ghost use Rattle.std.specs.Prelude.{◌≡◌};
ghost use Rattle.std.specs.Option.{unwrap_or};
ghost use Rattle.um_scale.specs.RescaledLiterals.{rescaled_number, misfit_at};

use crate::Scales;
use um_frac::Frac;
use um_tree::UnitNote;

/// The number times the factor of its written unit, where the factor's steps and the product are in range. A number
/// with a hole stays.
pub fn rescaled_number(number: Frac, note: &UnitNote, scales: &Scales) -> Option<Frac>
    ensures { result ≡ rescaled_number scales.now number note.now }
{
    match note {
        UnitNote::Hole => Some(number),
        UnitNote::Written(unit) => {
            let factor = scales.factor(unit)?;
            number.mul(factor).ok()
        }
    }
}

/// The rescaled number, or the number itself if that is out of range.
pub fn rescaled_or_left(number: Frac, note: &UnitNote, scales: &Scales) -> Frac
    ensures { result ≡ unwrap_or (rescaled_number scales.now number note.now) number }
{
    rescaled_number(number, note, scales).unwrap_or(number)
}

/// The place, where the rescaled number is out of range.
pub fn misfit_at(at: u32, number: Frac, note: &UnitNote, scales: &Scales) -> Option<u32>
    ensures { result ≡ misfit_at at (rescaled_number scales.now number note.now) }
{
    match rescaled_number(number, note, scales) {
        Some(_) => None,
        None => Some(at),
    }
}
