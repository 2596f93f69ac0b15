//! One size as it is written: `NAME=NUMBER`.
ghost use Rattle.std.specs.Prelude.{◌≡◌, ◌≤ℤ◌, IfSome, option_map, pos};
ghost use Rattle.std.specs.Option.{option_and_then};
ghost use Rattle.um_frac.specs.Fraction.{numerator};
ghost use Rattle.um_sizes.specs.NumberTexts.{number_in, positive};
ghost use Rattle.um_sizes.specs.ScaleWords.{name_and_number, size_in};

use crate::cut::cut;
use crate::named::is_name;
use crate::number::number_in;
use um_frac::Frac;

/// The name and the number of a part, if its number is above 0. Takes no memory.
pub fn size_in(part: &str) -> Option<(&str, Frac)>
    ensures value { option_map (λ size. (size.0.now, size.1)) result ≡ size_in part.now }
    ensures positive { IfSome result (λ size. pos 1 ≤ℤ numerator size.1) }
{
    let (name, number) = cut(part, '=')?;
    name_and_number(name, number)
}

fn name_and_number<'a>(name: &'a str, number: &str) -> Option<(&'a str, Frac)>
    ensures value { option_map (λ size. (size.0.now, size.1)) result ≡ name_and_number name.now number.now }
    ensures positive { IfSome result (λ size. pos 1 ≤ℤ numerator size.1) }
{
    if !is_name(name) {
        return None;
    }
    let number = positive_in(number)?;
    Some((name, number))
}

fn positive_in(text: &str) -> Option<Frac>
    ensures value { result ≡ option_and_then positive (number_in text.now) }
    ensures positive { IfSome result (λ number. pos 1 ≤ℤ numerator number) }
{
    let number = number_in(text)?;
    if number.num() >= 1 {
        Some(number)
    } else {
        None
    }
}
