//! Items read from the front of bytes.
ghost use Rattle.std.specs.Prelude.{◌≡◌, ◌↔◌, length, IsTrue};
ghost use Rattle.um_frac.specs.Fraction.{numerator, denominator, fraction};
ghost use Rattle.um_image.specs.Reading.{Gives, number_at, letters_at, power_at, truth_at, fraction_at, name_at};
ghost use Rattle.um_image.specs.Reading.{long_of};

use crate::stop::ReadStop;
use std::alloc::Global;
use um_frac::Frac;
use um_tree::Name;

#[tactic(auto, unfolding(crate::specs::Reading::number_at))]
pub(crate) fn read_number(bytes: &[u8]) -> Result<(u32, &[u8]), ReadStop>
    ensures { Gives (λ x. (x.0, x.1.now)) result (number_at bytes.now) }
{
    if bytes.len() < 4 {
        return Err(ReadStop::Bad { left: bytes.len() });
    }
    let (front, rest) = bytes.split_at(4);
    let number = u32::from_be_bytes([front[0], front[1], front[2], front[3]]);
    Ok((number, rest))
}

/// The letters in front of an image.
#[tactic(auto, unfolding(crate::specs::Reading::letters_at))]
pub(crate) fn read_letters(bytes: &[u8]) -> Result<(&[u8], &[u8]), ReadStop>
    ensures { Gives (λ x. (x.0.now, x.1.now)) result (letters_at bytes.now) }
{
    if bytes.len() < 4 {
        return Err(ReadStop::Bad { left: bytes.len() });
    }
    let (front, rest) = bytes.split_at(4);
    if front == b"UMI1".as_slice() {
        Ok((front, rest))
    } else {
        Err(ReadStop::Bad { left: bytes.len() })
    }
}

/// A name: its length, and its bytes.
#[tactic(auto, unfolding(crate::specs::Reading::name_at, crate::specs::Reading::text_at))]
pub(crate) fn read_name(alloc: Global, bytes: &[u8]) -> Result<(Name, &[u8]), ReadStop>
    ensures { Gives (λ x. (x.0, x.1.now)) result (name_at bytes.now) }
{
    let (len, rest) = read_number(bytes)?;
    let len = len as usize;
    if rest.len() < len {
        return Err(ReadStop::Bad { left: rest.len() });
    }
    let (text, rest) = rest.split_at(len);
    Ok((Name::from_slice(alloc, text)?, rest))
}

/// A signed power of four bytes.
#[tactic(auto, unfolding(crate::specs::Reading::power_at))]
pub(crate) fn read_power(bytes: &[u8]) -> Result<(i32, &[u8]), ReadStop>
    ensures { Gives (λ x. (x.0, x.1.now)) result (power_at bytes.now) }
{
    if bytes.len() < 4 {
        return Err(ReadStop::Bad { left: bytes.len() });
    }
    let (front, rest) = bytes.split_at(4);
    let power = i32::from_be_bytes([front[0], front[1], front[2], front[3]]);
    Ok((power, rest))
}

#[tactic(auto, unfolding(crate::specs::Reading::truth_at))]
pub(crate) fn read_truth(bytes: &[u8]) -> Result<(bool, &[u8]), ReadStop>
    ensures { Gives (λ x. (x.0, x.1.now)) result (truth_at bytes.now) }
{
    match bytes {
        [] => Err(ReadStop::Bad { left: 0 }),
        [0, rest @ ..] => Ok((false, rest)),
        [1, rest @ ..] => Ok((true, rest)),
        [_, ..] => Err(ReadStop::Bad { left: bytes.len() }),
    }
}

/// A fraction: its two parts, which are in lowest terms.
#[tactic(auto, unfolding(crate::specs::Reading::fraction_at))]
pub(crate) fn read_fraction(bytes: &[u8]) -> Result<(Frac, &[u8]), ReadStop>
    ensures { Gives (λ x. (x.0, x.1.now)) result (fraction_at bytes.now) }
{
    if bytes.len() < 16 {
        return Err(ReadStop::Bad { left: bytes.len() });
    }
    let (front, rest) = bytes.split_at(16);
    let (num, den) = front.split_at(8);
    match fraction_of(long_of(num), long_of(den)) {
        Some(c) => Ok((c, rest)),
        None => Err(ReadStop::Bad { left: bytes.len() }),
    }
}

/// The signed number of eight bytes.
fn long_of(bytes: &[u8]) -> i64
    requires { length bytes.now ≡ 8 }
    ensures { result ≡ long_of bytes.now }
{
    i64::from_be_bytes([
        bytes[0], bytes[1], bytes[2], bytes[3], bytes[4], bytes[5], bytes[6], bytes[7],
    ])
}

/// The fraction with these parts, if they are in lowest terms and within its range.
fn fraction_of(num: i64, den: i64) -> Option<Frac>
    ensures { result ≡ fraction num den }
{
    match Frac::of_parts(num as i128, den as i128) {
        Some(c) => {
            if has_parts(c, num, den) {
                Some(c)
            } else {
                None
            }
        }
        None => None,
    }
}

fn has_parts(c: Frac, num: i64, den: i64) -> bool
    ensures { IsTrue result ↔ ((numerator c ≡ num) × (denominator c ≡ den)) }
{
    c.num() == num && c.den() == den
}
