//! The text of a fraction as a decimal number.
ghost use Rattle.std.specs.Prelude.{◌≡◌, ◌+◌, ◌*◌, ◌%◌, ◌^◌, ◌<◌, ◌≤◌, ◌++◌, ◌==◌, ◌&&◌, OnOk, int_lt, not, pos, true};
ghost use Rattle.std.specs.Fmt.{decimal};
ghost use Rattle.um_decimals.specs.Decimals.{nearest, decimal_text};
ghost use Rattle.um_decimals.specs.Decimals.{marks_text, digits_text, part_text, padded};

use std::alloc::AllocError;
use um_frac::Frac;

/// As many zeros as there are digits after a point at most.
const ZEROS: &[u8; 18] = b"000000000000000000";

/// Adds the fraction as a decimal number with so many digits after the point, 0 to 18, and without a point if there are
/// none.
///
/// It is the nearest such number, and of two nearest the one whose last digit is even (IEEE 754-2019, roundTiesToEven).
/// `~` stands before it exactly if it isn't the fraction itself, and `-` if it is below 0: a fraction below 0 whose
/// digits are all 0 has no `-`. The text takes memory, whose want is the one error.
pub fn push_decimal(text: &mut Vec<u8>, x: Frac, digits: u32) -> Result<(), AllocError>
    requires few { digits ≤ 18 }
    ensures { OnOk result (text.new.items ≡ text.old.items ++ decimal_text digits x) }
{
    let tens = 10_u128.pow(digits);
    let size = x.num().unsigned_abs() as u128 * tens;
    let den = x.den().unsigned_abs() as u128;
    let units = nearest(size, den);
    let negative = is_below_zero(x.num(), units);
    push_marks(text, has_no_rest(size, den), negative)?;
    push_digits(text, units, digits)
}

/// Whether the second number divides the first.
fn has_no_rest(size: u128, den: u128) -> bool
    requires { 0 < den }
    ensures { result ≡ (size % den == 0) }
{
    size % den == 0
}

/// Whether a number of this sign and so many units is below 0.
fn is_below_zero(num: i64, units: u128) -> bool
    ensures { result ≡ (int_lt num (pos 0) && not (units == 0)) }
{
    num < 0 && units != 0
}

/// The whole number nearest to a quotient, and of two nearest the even one.
fn nearest(size: u128, den: u128) -> u128
    requires positive { 0 < den }
    requires fits { den < 2 ^ 64 }
    requires small { size < 2 ^ 126 }
    ensures { result ≡ nearest size den }
{
    let whole = size / den;
    let twice = 2 * (size % den);
    if twice < den {
        whole
    } else if den < twice {
        whole + 1
    } else {
        whole + whole % 2
    }
}

/// Adds what stands before the digits.
fn push_marks(text: &mut Vec<u8>, exact: bool, negative: bool) -> Result<(), AllocError>
    ensures { OnOk result (text.new.items ≡ text.old.items ++ marks_text exact negative) }
{
    if !exact {
        text.push(b'~')?;
    }
    push_minus(text, negative)
}

fn push_minus(text: &mut Vec<u8>, negative: bool) -> Result<(), AllocError>
    ensures { OnOk result (text.new.items ≡ text.old.items ++ marks_text true negative) }
{
    if negative {
        text.push(b'-')?;
    }
    Ok(())
}

/// Adds a number of units of the last digit, with its point.
fn push_digits(text: &mut Vec<u8>, units: u128, digits: u32) -> Result<(), AllocError>
    requires few { digits ≤ 18 }
    requires fits { units < 2 ^ 64 * 10 ^ digits }
    ensures { OnOk result (text.new.items ≡ text.old.items ++ digits_text digits units) }
{
    let tens = 10_u128.pow(digits);
    push_whole(text, (units / tens) as u64)?;
    push_part(text, (units % tens) as u64, digits)
}

fn push_whole(text: &mut Vec<u8>, n: u64) -> Result<(), AllocError>
    ensures { OnOk result (text.new.items ≡ text.old.items ++ decimal n) }
{
    text.extend_from_slice(itoa::Buffer::new().format(n).as_bytes())
}

/// Adds the point and the digits after it, if there are any.
fn push_part(text: &mut Vec<u8>, n: u64, digits: u32) -> Result<(), AllocError>
    requires few { digits ≤ 18 }
    requires fits { n < 10 ^ digits }
    ensures { OnOk result (text.new.items ≡ text.old.items ++ part_text digits n) }
{
    if digits == 0 {
        return Ok(());
    }
    text.push(b'.')?;
    push_padded(text, n, digits)
}

/// Adds a number with zeros before it, so that it has so many digits.
fn push_padded(text: &mut Vec<u8>, n: u64, digits: u32) -> Result<(), AllocError>
    requires some { 1 ≤ digits }
    requires few { digits ≤ 18 }
    requires fits { n < 10 ^ digits }
    ensures { OnOk result (text.new.items ≡ text.old.items ++ padded digits n) }
{
    let mut buffer = itoa::Buffer::new();
    let written = buffer.format(n).as_bytes();
    text.extend_from_slice(&ZEROS[..digits as usize - written.len()])?;
    text.extend_from_slice(written)
}
