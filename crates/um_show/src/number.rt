// The texts of numbers.
ghost use Rattle.std.specs.Prelude.{◌≡◌, ◌++◌, IfOk, OnOk, pos};
ghost use Rattle.std.specs.Fmt.{decimal, signed_decimal};
ghost use Rattle.um_show.specs.NumberText.{number_text, divisor_text};
ghost use Rattle.um_show.specs.Pieces.{text_of};
ghost use Rattle.um_show.specs.Layout.{power_pieces, whole_power_pieces};

use std::alloc::{AllocError, Global};
use um_frac::Frac;
use um_units::NoMemory;

/// The text of a number: its numerator, with `-` where it is negative, and `r` and its denominator where that isn't 1.
///
/// `NoMemory` is its one error. The form is this project's own.
pub fn number_text(alloc: Global, x: Frac) -> Result<Vec<u8>, NoMemory>
    ensures { IfOk result (λ text. text.items ≡ number_text x) }
{
    let mut text = Vec::new(alloc);
    push_number(&mut text, x)?;
    Ok(text)
}

pub(crate) fn push_number(text: &mut Vec<u8>, x: Frac) -> Result<(), AllocError>
    ensures { OnOk result (text.new.items ≡ text.old.items ++ number_text x) }
{
    push_integer(text, x.num())?;
    push_divisor(text, x.den())
}

/// Adds `r` and a denominator, where that isn't 1.
fn push_divisor(text: &mut Vec<u8>, den: i64) -> Result<(), AllocError>
    ensures { OnOk result (text.new.items ≡ text.old.items ++ divisor_text den) }
{
    if den == 1 {
        return Ok(());
    }
    text.push(b'r')?;
    push_integer(text, den)
}

fn push_integer(text: &mut Vec<u8>, n: i64) -> Result<(), AllocError>
    ensures { OnOk result (text.new.items ≡ text.old.items ++ signed_decimal n) }
{
    text.extend_from_slice(itoa::Buffer::new().format(n).as_bytes())
}

/// Adds the power of a unit.
pub(crate) fn push_power(text: &mut Vec<u8>, power: i32) -> Result<(), AllocError>
    ensures { OnOk result (text.new.items ≡ text.old.items ++ text_of (power_pieces power)) }
{
    push_integer(text, i64::from(power))
}

/// Adds the power of `pown`, in brackets where it is negative.
pub(crate) fn push_whole_power(text: &mut Vec<u8>, power: i32) -> Result<(), AllocError>
    ensures { OnOk result (text.new.items ≡ text.old.items ++ text_of (whole_power_pieces power)) }
{
    if power >= 0 {
        return push_power(text, power);
    }
    text.push(b'(')?;
    push_power(text, power)?;
    text.extend_from_slice(b")")
}
