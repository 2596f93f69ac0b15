//! Numbers as they are written.
ghost use Rattle.std.specs.Prelude.{◌≡◌, ◌<◌, ◌≤◌, ◌+◌, ◌^◌, IfSome, IsTrue, None, Some, cond, length, nat_lt, pos};
ghost use Rattle.std.specs.Char.{is_ascii_digit};
ghost use Rattle.std.specs.List.{list_all};
ghost use Rattle.um_frac.specs.Fraction.{reduced};
ghost use Rattle.um_syntax.specs.Numeral.{Decimal, Ratio, Whole, value_of};
ghost use Rattle.um_sizes.specs.NumberTexts.{are_digits, number_in, value_in};

use crate::cut::cut;
use um_frac::Frac;

/// The most digits of a number.
const MOST_DIGITS: usize = 38;

/// The number that the text states: digits; digits, a point and digits; or digits, an `r` and digits, with at most 38
/// digits in all and a value in the range of [`Frac`]. Takes no memory.
pub fn number_in(text: &str) -> Option<Frac>
    ensures { result ≡ number_in text.now }
{
    match cut(text, '.') {
        Some((whole, part)) => decimal(whole, part),
        None => match cut(text, 'r') {
            Some((above, below)) => ratio(above, below),
            None => whole(text),
        },
    }
}

/// The number that digits state.
fn whole(digits: &str) -> Option<Frac>
    ensures { result ≡ value_in (Whole digits.now) }
{
    if digits.len() > MOST_DIGITS {
        return None;
    }
    quotient(digits_value(digits)?, 1)
}

/// The number that digits with a point state.
fn decimal(whole: &str, part: &str) -> Option<Frac>
    ensures { result ≡ value_in (Decimal whole.now part.now) }
{
    if are_many(whole, part) {
        return None;
    }
    let above = digits_value(whole)?;
    let below = digits_value(part)?;
    let tens = 10_u128.pow(part.len() as u32);
    quotient(above * tens + below, tens)
}

/// The number that digits over digits state.
fn ratio(above: &str, below: &str) -> Option<Frac>
    ensures { result ≡ value_in (Ratio above.now below.now) }
{
    if are_many(above, below) {
        return None;
    }
    let above = digits_value(above)?;
    let below = digits_value(below)?;
    quotient(above, below)
}

/// The quotient of numbers of at most 38 digits.
fn quotient(above: u128, below: u128) -> Option<Frac>
    requires above { above ≤ 10 ^ 38 }
    requires below { below ≤ 10 ^ 38 }
    ensures { result ≡ reduced (pos above) (pos below) }
{
    Frac::of_parts(above as i128, below as i128)
}

/// Whether the two have more than 38 characters that are bytes.
fn are_many(first: &str, second: &str) -> bool
    ensures { result ≡ nat_lt 38 (length first.now + length second.now) }
{
    first.len() > MOST_DIGITS || second.len() > MOST_DIGITS - first.len()
}

/// The number that the text writes, if it is one digit or more.
fn digits_value(digits: &str) -> Option<u128>
    requires { length digits.now ≤ 38 }
    ensures value { result ≡ cond (are_digits digits.now) (Some (value_of digits.now)) None }
    ensures fits { IfSome result (λ n. n < 10 ^ 38) }
{
    if are_digits(digits) {
        Some(value_of(digits))
    } else {
        None
    }
}

/// Whether the text is one digit or more.
fn are_digits(text: &str) -> bool
    ensures { result ≡ are_digits text.now }
{
    !text.is_empty() && has_digits_alone(text)
}

fn has_digits_alone(text: &str) -> bool
    ensures { result ≡ list_all is_ascii_digit text.now }
{
    text.as_bytes().iter().all(|byte| byte.is_ascii_digit())
}

/// The number that the digits write.
fn value_of(digits: &str) -> u128
    requires digits { IsTrue (are_digits digits.now) }
    requires few { length digits.now ≤ 38 }
    ensures value { result ≡ value_of digits.now }
    ensures fits { result < 10 ^ length digits.now }
{
    match u128::from_str_radix(digits, 10) {
        Ok(value) => value,
        Err(_) => unreachable!(),
    }
}
