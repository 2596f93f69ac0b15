//! Greatest common divisors, by Euclid's algorithm (Knuth, Seminumerical Algorithms, 4.5.2, Algorithm A).
ghost use Rattle.std.specs.Prelude.{◌≡◌, ◌+◌, ◌<◌};
ghost use Rattle.um_frac.specs.Gcd.{gcd};

/// The greatest common divisor of two numbers of 64 bits.
pub fn common_divisor(a: u64, b: u64) -> u64
    ensures value { result ≡ gcd a b }
    ensures positive { 0 < a + b → 0 < result }
{
    let mut x = a;
    let mut y = b;
    while y != 0 {
        let rest = x % y;
        x = y;
        y = rest;
    }
    x
}

/// The greatest common divisor of two numbers of 128 bits. It divides 128-bit numbers only while they need it.
pub fn wide_common_divisor(a: u128, b: u128) -> u128
    ensures value { result ≡ gcd a b }
    ensures positive { 0 < a + b → 0 < result }
{
    let mut x = a;
    let mut y = b;
    while y > u64::MAX as u128 {
        let rest = x % y;
        x = y;
        y = rest;
    }
    if y == 0 {
        return x;
    }
    common_divisor(y as u64, (x % y) as u64) as u128
}
