//! The digits of a number's text, read one by one.
ghost use Rattle.std.specs.Prelude.{◌≡◌, ◌+◌, ◌<◌, ◌≤◌, ◌-◌, ◌^◌, ◌==◌, ◌&&◌, ℕ, length, take, slice_index};
ghost use Rattle.um_syntax.specs.Machine.{with_digit, one_more, first_figures, more_figures, part_after_digit};
ghost use Rattle.um_syntax.specs.Machine.{is_whole_part, is_allowed, figures_kind, part_takes};
ghost use Rattle.um_syntax.specs.Machine.{FiguresFit, number_taken, AllKept, IsNumberRun, ends_in_digit};
ghost use Rattle.um_syntax.specs.declared.pending.Pending.TheVariants.{Comment, Number};

use crate::token::Kind;
use um_frac::Frac;

// No number in range has a part of more than 38 digits.
const GREATEST: u128 = 100_000_000_000_000_000_000_000_000_000_000_000_000;

const TENTH: u128 = 10_000_000_000_000_000_000_000_000_000_000_000_000;

const MOST_DIGITS: u32 = 38;

const GREATEST_POWER: u128 = 2147483647;

/// How much of a number's text has been read.
#[derive(Clone, Copy)]
pub(crate) enum Part {
    /// Digits.
    Whole,
    /// Digits and a point.
    Point,
    /// Digits, a point and digits.
    Decimal,
    /// Digits and an `r`.
    Over,
    /// Digits, an `r` and digits.
    Ratio,
}

impl Part {
    /// The part once a digit has been read.
    pub fn after_digit(self) -> Part
        ensures { result ≡ part_after_digit self }
    {
        match self {
            Part::Whole => Part::Whole,
            Part::Point | Part::Decimal => Part::Decimal,
            Part::Over | Part::Ratio => Part::Ratio,
        }
    }

    /// Whether the text up to the last digit is digits alone.
    pub fn is_whole(self) -> bool
        ensures { result ≡ is_whole_part self }
    {
        match self {
            Part::Whole | Part::Point | Part::Over => true,
            Part::Decimal | Part::Ratio => false,
        }
    }

    /// Whether the character belongs to the number's text.
    pub fn takes(self, c: char) -> bool
        ensures { result ≡ part_takes self c }
    {
        match self {
            Part::Whole => c.is_ascii_digit() || (c == '.' || c == 'r'),
            Part::Point | Part::Decimal | Part::Over | Part::Ratio => c.is_ascii_digit(),
        }
    }
}

/// The digits of a number's text so far, as a fraction that isn't reduced: `above` over `below`, and how many they are.
///
/// The two stand still at `GREATEST`, and the count stands still once it has passed `MOST_DIGITS`.
#[derive(Clone, Copy)]
pub(crate) struct Figures {
    pub above: u128,
    pub below: u128,
    pub count: u32,
}

// The number with one more digit after it.
fn append(number: u128, digit: u32) -> u128
    requires { digit ≤ 9 }
    ensures value { result ≡ with_digit number digit }
    ensures fits { result ≤ 10 ^ 38 }
{
    if number < TENTH {
        10 * number + u128::from(digit)
    } else {
        GREATEST
    }
}

// One digit more.
fn count_up(count: u32) -> u32
    ensures { result ≡ one_more count }
{
    if count <= MOST_DIGITS {
        count + 1
    } else {
        MOST_DIGITS + 1
    }
}

impl Figures {
    /// The figures of the first digit.
    pub fn new(digit: u32) -> Figures
        requires { digit ≤ 9 }
        ensures value { result ≡ first_figures digit }
        ensures fits { FiguresFit result }
    {
        Figures {
            above: u128::from(digit),
            below: 1,
            count: 1,
        }
    }

    /// The figures with one more digit, after `part` was read.
    pub fn with(self, part: Part, digit: u32) -> Figures
        requires { digit ≤ 9 }
        ensures value { result ≡ more_figures part self digit }
        ensures fits { FiguresFit self → FiguresFit result }
    {
        let count = count_up(self.count);
        match part {
            Part::Whole => Figures {
                above: append(self.above, digit),
                below: self.below,
                count,
            },
            Part::Point | Part::Decimal => Figures {
                above: append(self.above, digit),
                below: append(self.below, 0),
                count,
            },
            Part::Over => Figures {
                above: self.above,
                below: u128::from(digit),
                count,
            },
            Part::Ratio => Figures {
                above: self.above,
                below: append(self.below, digit),
                count,
            },
        }
    }

    // Whether the number keeps its rule of digits, as a power or not.
    fn is_allowed(self, power: bool, part: Part) -> bool
        ensures { result ≡ is_allowed power part self }
    {
        if power {
            part.is_whole() && self.above <= GREATEST_POWER
        } else {
            self.count <= MOST_DIGITS
        }
    }

    /// The kind of the number's token, or `None` if it breaks its rule.
    pub fn kind(self, power: bool, part: Part) -> Option<Kind>
        requires { FiguresFit self }
        ensures { result ≡ figures_kind power part self }
    {
        if !self.is_allowed(power, part) {
            return None;
        }
        let value = Frac::of_parts(self.above as i128, self.below as i128)?;
        let digits = part.is_whole();
        let one = digits && (self.count == 1 && self.above == 1);
        Some(Kind::Number { value, digits, one })
    }
}

/// The number's text at the front of bytes, as far as it goes: how many bytes it has, and of these those up to the last
/// digit.
#[derive(Clone, Copy)]
pub(crate) struct NumberText {
    pub len: usize,
    pub end: usize,
    pub part: Part,
    pub figures: Figures,
}

impl NumberText {
    /// The number's text at the front of bytes that begin with a digit.
    pub fn at_front(bytes: &[u8]) -> NumberText
        requires some { 0 < length bytes.now }
        requires from { 48 ≤ slice_index bytes.now 0 }
        requires to { slice_index bytes.now 0 ≤ 57 }
        ensures within { result.len ≤ length bytes.now }
        ensures fits { FiguresFit result.figures }
        ensures plain { AllKept Comment (take result.len bytes.now) }
        ensures run { IsNumberRun (take result.len bytes.now) result.end result.part result.figures }
    {
        let mut text = NumberText {
            len: 1,
            end: 1,
            part: Part::Whole,
            figures: Figures::new(u32::from(bytes[0] - b'0')),
        };
        while text.len < bytes.len() && text.part.takes(char::from(bytes[text.len])) {
            text = text.with(bytes[text.len]);
        }
        text
    }

    // The text with a byte that belongs to it.
    fn with(self, byte: u8) -> NumberText
        requires room { self.len + 1 < 2 ^ 64 }
        requires fits { FiguresFit self.figures }
        ensures len { result.len ≡ self.len + 1 }
        ensures fits { FiguresFit result.figures }
        ensures taken { (at : ℕ) → number_taken at (at + self.end) self.part self.figures byte (at + (self.len + 1))
            ≡ Number at (at + result.end) result.part result.figures }
    {
        let len = self.len + 1;
        if byte.is_ascii_digit() {
            return NumberText {
                len,
                end: len,
                part: self.part.after_digit(),
                figures: self.figures.with(self.part, u32::from(byte - b'0')),
            };
        }
        NumberText {
            len,
            end: self.end,
            part: if byte == b'.' {
                Part::Point
            } else {
                Part::Over
            },
            figures: self.figures,
        }
    }

    /// Whether the text has its last digit, and its end is seen after it.
    pub fn is_whole(&self) -> bool
        ensures { result ≡ (self.now.end == self.now.len && ends_in_digit (Number 0 0 self.now.part self.now.figures)) }
    {
        self.end == self.len
            && match self.part {
                Part::Whole | Part::Decimal | Part::Ratio => true,
                Part::Point | Part::Over => false,
            }
    }
}
