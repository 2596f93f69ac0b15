ghost use Rattle.std.specs.Prelude.{◌≡◌, ◌≢◌, ◌↔◌, ◌<◌, ◌≤◌, ℤ, pos, neg_ℤ, ◌≤ℤ◌, ◌<ℤ◌, ◌+ℤ◌, ◌*ℤ◌, unsigned_abs};
ghost use Rattle.std.specs.Prelude.{IsTrue, IsNone, IfSome, IfOk};
ghost use Rattle.std.specs.Int.{int_pow};
ghost use Rattle.um_frac.specs.Range.{greatest};
ghost use Rattle.um_frac.specs.Gcd.{gcd};

use crate::divisor::{common_divisor, wide_common_divisor};

// The greatest numerator and the greatest denominator.
const GREATEST: u128 = i64::MAX as u128;

/// Why an operation on fractions has no result.
#[derive(Clone, Copy)]
pub enum Trap {
    /// The exact result, in lowest terms, is out of the range of [`Frac`].
    Overflow,
    /// A quotient has the divisor 0, or a negative power the base 0.
    DivZero,
}

/// A rational number as a fraction in lowest terms.
///
/// The numerator lies in -9223372036854775807 ..= 9223372036854775807 and the denominator in 1 ..= 9223372036854775807.
/// Two values are equal exactly if they are the same rational number.
///
/// An operation gives the exact result in lowest terms, by cross products as in Knuth, Seminumerical Algorithms, 4.5.1,
/// or it says by a [`Trap`] why there is none. It takes no memory.
#[derive(Clone, Copy)]
pub struct Frac {
    num: i64,
    den: i64,
    ghost positive: { pos 1 ≤ℤ den },
    ghost den_fits: { den ≤ℤ pos greatest },
    ghost above: { neg_ℤ (pos greatest) ≤ℤ num },
    ghost num_fits: { num ≤ℤ pos greatest },
    ghost lowest: { gcd (unsigned_abs num) (unsigned_abs den) ≡ 1 },
}

impl Frac {
    ghost use Rattle.um_frac.specs.Fraction.{numerator, denominator, reduced, IsQuotient, Fits};
    ghost use Rattle.um_frac.specs.Arithmetic.{sum_of, difference_of, product_of, quotient_of, whole_power_of};
    ghost use Rattle.um_frac.specs.Arithmetic.{negation_of, is_less, is_same, IsSum, IsDifference, IsProduct, IsRatio};
    ghost use Rattle.um_frac.specs.Arithmetic.{IsWholePower, IsNegation};

    /// The number 0.
    pub fn zero() -> Frac
        ensures num { numerator result ≡ pos 0 }
        ensures den { denominator result ≡ pos 1 }
    {
        Frac { num: 0, den: 1 }
    }

    /// The number 1.
    pub fn one() -> Frac
        ensures num { numerator result ≡ pos 1 }
        ensures den { denominator result ≡ pos 1 }
    {
        Frac { num: 1, den: 1 }
    }

    /// The quotient `n / d` in lowest terms, at any two integers of 128 bits.
    ///
    /// `None` exactly if `d` is 0 or the reduced quotient is out of range.
    pub fn of_parts(n: i128, d: i128) -> Option<Frac>
        ensures value { result ≡ reduced n d }
        ensures exact { IfSome result (λ r. IsQuotient r n d) }
        ensures none { IsNone result ↔ (¬ Fits n d) }
    {
        if d == 0 {
            return None;
        }
        Frac::quotient_of_sizes((n < 0) != (d < 0), n.unsigned_abs(), d.unsigned_abs())
    }

    /// The numerator, in lowest terms: above `i64::MIN`.
    pub fn num(self) -> i64
        ensures value { result ≡ numerator self }
        ensures above { neg_ℤ (pos greatest) ≤ℤ result }
    {
        self.num
    }

    /// The denominator, in lowest terms: at least 1.
    pub fn den(self) -> i64
        ensures value { result ≡ denominator self }
        ensures positive { pos 1 ≤ℤ result }
    {
        self.den
    }

    /// The sum of the two numbers.
    ///
    /// `Overflow` exactly if the exact sum is out of range; a cross product on the way may be wider than the range.
    #[inline]
    pub fn add(self, other: Frac) -> Result<Frac, Trap>
        ensures value { result ≡ sum_of self other }
        ensures exact { IfOk result (λ r. IsSum r self other) }
        ensures overflow { (result ≡ Err Trap.Overflow) ↔ ((r : Frac) → ¬ IsSum r self other) }
        ensures never_div_zero { result ≢ Err Trap.DivZero }
    {
        if self.den == 1 && other.den == 1 {
            return Frac::whole(self.num as i128 + other.num as i128);
        }
        Frac::sum_of_parts(self.num, self.den as u64, other.num, other.den as u64).ok_or(
            Trap::Overflow,
        )
    }

    /// The difference `self - other`.
    ///
    /// `Overflow` exactly if the exact difference is out of range.
    #[inline]
    pub fn sub(self, other: Frac) -> Result<Frac, Trap>
        ensures value { result ≡ difference_of self other }
        ensures exact { IfOk result (λ r. IsDifference r self other) }
        ensures overflow { (result ≡ Err Trap.Overflow) ↔ ((r : Frac) → ¬ IsDifference r self other) }
        ensures never_div_zero { result ≢ Err Trap.DivZero }
    {
        self.add(other.neg())
    }

    /// The product of the two numbers.
    ///
    /// `Overflow` exactly if the exact product is out of range.
    #[inline]
    pub fn mul(self, other: Frac) -> Result<Frac, Trap>
        ensures value { result ≡ product_of self other }
        ensures exact { IfOk result (λ r. IsProduct r self other) }
        ensures overflow { (result ≡ Err Trap.Overflow) ↔ ((r : Frac) → ¬ IsProduct r self other) }
        ensures never_div_zero { result ≢ Err Trap.DivZero }
    {
        if self.den == 1 && other.den == 1 {
            return Frac::whole(self.num as i128 * other.num as i128);
        }
        Frac::product_of_parts(self.num, self.den as u64, other.num, other.den as u64).ok_or(
            Trap::Overflow,
        )
    }

    /// The quotient `self / other`.
    ///
    /// `DivZero` exactly if `other` is 0, otherwise `Overflow` exactly if the exact quotient is out of range.
    #[inline]
    pub fn div(self, other: Frac) -> Result<Frac, Trap>
        ensures value { result ≡ quotient_of self other }
        ensures exact { IfOk result (λ r. IsRatio r self other) }
        ensures zero { (result ≡ Err Trap.DivZero) ↔ (numerator other ≡ pos 0) }
        ensures overflow { (result ≡ Err Trap.Overflow) ↔
            ((numerator other ≢ pos 0) × ((r : Frac) → ¬ IsRatio r self other)) }
    {
        if other.num == 0 {
            return Err(Trap::DivZero);
        }
        self.mul(other.reciprocal())
    }

    /// The number to the power `k`; the power 0 of every number is 1.
    ///
    /// `DivZero` exactly if the number is 0 and `k` is negative, otherwise `Overflow` exactly if the exact power is out
    /// of range.
    pub fn pow(self, k: i32) -> Result<Frac, Trap>
        ensures value { result ≡ whole_power_of self k }
        ensures exact { IfOk result (λ r. IsWholePower r self k) }
        ensures zero { (result ≡ Err Trap.DivZero) ↔ ((numerator self ≡ pos 0) × (k <ℤ pos 0)) }
        ensures overflow { (result ≡ Err Trap.Overflow) ↔
            ((¬ ((numerator self ≡ pos 0) × (k <ℤ pos 0))) × ((r : Frac) → ¬ IsWholePower r self k)) }
    {
        if k >= 0 {
            return self.natural_power(k.unsigned_abs()).ok_or(Trap::Overflow);
        }
        if self.num == 0 {
            return Err(Trap::DivZero);
        }
        self.reciprocal()
            .natural_power(k.unsigned_abs())
            .ok_or(Trap::Overflow)
    }

    /// The number with the other sign, which is always in range.
    pub fn neg(self) -> Frac
        ensures value { result ≡ negation_of self }
        ensures parts { IsNegation result self }
    {
        Frac {
            num: -self.num,
            den: self.den,
        }
    }

    /// Whether the number is less than the other.
    pub fn less(self, other: Frac) -> bool
        ensures value { result ≡ is_less self other }
        ensures order { IsTrue result
            ↔ ((numerator self *ℤ denominator other) <ℤ (numerator other *ℤ denominator self)) }
    {
        (self.num as i128) * (other.den as i128) < (other.num as i128) * (self.den as i128)
    }

    /// Whether the two are the same rational number.
    pub fn same(self, other: Frac) -> bool
        ensures value { result ≡ is_same self other }
        ensures equal { IsTrue result ↔ (self ≡ other) }
    {
        self.num == other.num && self.den == other.den
    }
}

// How the operations come to lowest terms. The two general paths stay out of `add` and `mul`, whose path for whole
// numbers is a few instructions that a caller takes in.
impl Frac {
    ghost use Rattle.um_frac.specs.Fraction.{numerator, denominator, signed, fraction, reduced, IsQuotient};
    ghost use Rattle.um_frac.specs.Arithmetic.{exactly};

    // The quotient `above / below`, with a minus sign if `negative` is set, or `None` if it is out of range.
    fn quotient_of_sizes(negative: bool, above: u128, below: u128) -> Option<Frac>
        requires { 0 < below }
        ensures { result ≡ reduced (signed negative above) (pos below) }
    {
        if above <= u64::MAX as u128 && below <= u64::MAX as u128 {
            return Frac::quotient_of_short(negative, above as u64, below as u64);
        }
        let common = wide_common_divisor(above, below);
        Frac::in_range(negative, above / common, below / common)
    }

    // The same for sizes of 64 bits, which most are: it divides no 128-bit numbers.
    fn quotient_of_short(negative: bool, above: u64, below: u64) -> Option<Frac>
        requires { 0 < below }
        ensures { result ≡ reduced (signed negative above) (pos below) }
    {
        let common = common_divisor(above, below);
        Frac::in_range(negative, (above / common) as u128, (below / common) as u128)
    }

    // The fraction of a numerator, given by its sign and its size, and a denominator in lowest terms, or `None` if it
    // is out of range.
    fn in_range(negative: bool, size: u128, den: u128) -> Option<Frac>
        requires positive { 0 < den }
        requires lowest { gcd size den ≡ 1 }
        ensures { result ≡ fraction (signed negative size) (pos den) }
    {
        if size > GREATEST || den > GREATEST {
            return None;
        }
        let size = size as i64;
        let num = if negative { -size } else { size };
        Some(Frac {
            num,
            den: den as i64,
        })
    }

    // The whole number n.
    fn whole(n: i128) -> Result<Frac, Trap>
        ensures { result ≡ exactly n (pos 1) }
    {
        if n < -(i64::MAX as i128) || n > i64::MAX as i128 {
            return Err(Trap::Overflow);
        }
        Ok(Frac {
            num: n as i64,
            den: 1,
        })
    }

    // The sum of a / m and b / n, which are in lowest terms, or `None` if it is out of range. It comes to lowest terms
    // by the greatest common divisor of the denominators, and the one that the sum may still have with it (Knuth,
    // Seminumerical Algorithms, 4.5.1).
    #[inline(never)]
    fn sum_of_parts(a: i64, m: u64, b: i64, n: u64) -> Option<Frac>
        requires first_den { 0 < m }
        requires second_den { 0 < n }
        requires first_fits { m ≤ greatest }
        requires second_fits { n ≤ greatest }
        requires first { gcd (unsigned_abs a) m ≡ 1 }
        requires second { gcd (unsigned_abs b) n ≡ 1 }
        ensures { result ≡ reduced (a *ℤ pos n +ℤ b *ℤ pos m) (pos m *ℤ pos n) }
    {
        let common = common_divisor(m, n);
        let own = m / common;
        let above = cross_sum(a, n / common, b, own);
        let size = above.unsigned_abs();
        if common == 1 {
            return Frac::in_range(above < 0, size, m as u128 * n as u128);
        }
        let rest = common_divisor(common, (size % common as u128) as u64);
        Frac::in_range(
            above < 0,
            size / rest as u128,
            own as u128 * (n / rest) as u128,
        )
    }

    // The product of a / m and b / n, which are in lowest terms, or `None` if it is out of range. It is in lowest terms
    // once the greatest common divisors are taken out crosswise (Knuth, Seminumerical Algorithms, 4.5.1).
    #[inline(never)]
    fn product_of_parts(a: i64, m: u64, b: i64, n: u64) -> Option<Frac>
        requires first_den { 0 < m }
        requires second_den { 0 < n }
        requires first { gcd (unsigned_abs a) m ≡ 1 }
        requires second { gcd (unsigned_abs b) n ≡ 1 }
        ensures { result ≡ reduced (a *ℤ b) (pos m *ℤ pos n) }
    {
        let own = a.unsigned_abs();
        let others = b.unsigned_abs();
        let left = common_divisor(own, n);
        let right = common_divisor(others, m);
        let size = (own / left) as u128 * (others / right) as u128;
        let below = (m / right) as u128 * (n / left) as u128;
        Frac::in_range((a < 0) != (b < 0), size, below)
    }

    // The number to the power n, or `None` if it is out of range. Powers of numbers in lowest terms are in lowest
    // terms.
    fn natural_power(self, n: u32) -> Option<Frac>
        ensures { result ≡ reduced (int_pow (numerator self) n) (int_pow (denominator self) n) }
    {
        let size = self.num.unsigned_abs().checked_pow(n)?;
        let den = self.den.unsigned_abs().checked_pow(n)?;
        Frac::in_range(self.num < 0 && n % 2 == 1, size as u128, den as u128)
    }

    // 1 / self, which is always in range.
    fn reciprocal(self) -> Frac
        requires { numerator self ≢ pos 0 }
        ensures { IsQuotient result (denominator self) (numerator self) }
    {
        let num = if self.num < 0 { -self.den } else { self.den };
        Frac {
            num,
            den: self.num.abs(),
        }
    }
}

// a * m + b * n, for two sizes of denominators.
fn cross_sum(a: i64, m: u64, b: i64, n: u64) -> i128
    requires first { m ≤ greatest }
    requires second { n ≤ greatest }
    ensures { result ≡ a *ℤ pos m +ℤ b *ℤ pos n }
{
    a as i128 * m as i128 + b as i128 * n as i128
}
