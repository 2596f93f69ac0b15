//! What has been read of a token that may go on.
ghost use Rattle.std.specs.Prelude.{◌≡◌, ◌<◌, ◌≤◌, true, length, take, drop};
ghost use Rattle.um_syntax.specs.Gap.{is_space};
ghost use Rattle.um_syntax.specs.Lexeme.{starts_name};
ghost use Rattle.um_syntax.specs.Machine.{takes, keeps, AllKept, begins_name, IsNameRun, ends_name, ends_number};
ghost use Rattle.um_syntax.specs.Machine.{ends_in_digit, number_taken, FiguresFit, PendingFits};
ghost use Rattle.um_syntax.specs.declared.pending.Pending.TheVariants as pending;

use crate::number::{Figures, Part};
use um_vocabulary::double_symbol;
use unicode_ident::{is_xid_continue, is_xid_start};

/// What has been read of the token that may go on, with the place where it starts.
#[derive(Clone, Copy)]
pub(crate) enum Pending {
    /// Nothing of the text has been read.
    Start,
    /// No token has begun.
    Free,
    /// A comment.
    Comment,
    /// Letters that begin a name, a reserved word or a hole.
    Identifier {
        start: u32,
    },
    /// A quote.
    Quote {
        start: u32,
    },
    /// A quote and letters, the last of them at `last`.
    Variable {
        start: u32,
        last: u32,
    },
    /// A number's text, whose digits end at `end`.
    Number {
        start: u32,
        end: u32,
        part: Part,
        figures: Figures,
    },
    /// The first character of a symbol or of a comment.
    Symbol {
        start: u32,
        first: char,
    },
}

// Each letter, digit and `_` stands at its own place, and a point at every other place.
static NAME_BYTES: [u8; 256] = *b"\
    ................................\
    ................0123456789......\
    .ABCDEFGHIJKLMNOPQRSTUVWXYZ...._\
    .abcdefghijklmnopqrstuvwxyz.....\
    ................................\
    ................................\
    ................................\
    ................................";

/// Whether a name may start with the character.
pub fn starts_name(c: char) -> bool
    ensures { result ≡ starts_name c }
{
    c == '_' || is_xid_start(c)
}

/// Whether the first byte is a character that begins a name.
pub fn begins_name(bytes: &[u8]) -> bool
    ensures { result ≡ begins_name bytes.now }
{
    match bytes.first() {
        Some(byte) => *byte == b'_' || byte.is_ascii_alphabetic(),
        None => false,
    }
}

// Whether the byte is a character that goes on with a name.
#[inline(always)]
fn keeps_name(byte: u8) -> bool
    ensures { result ≡ keeps (pending.Identifier 0) byte }
{
    NAME_BYTES[byte as usize] != b'.'
}

/// Whether the character is white space.
pub fn is_space(c: char) -> bool
    ensures { result ≡ is_space c }
{
    c == ' ' || c == '\t' || c == '\r' || c == '\n'
}

/// Whether the byte is white space, but no line feed.
pub fn is_blank(byte: u8) -> bool
    ensures { result ≡ keeps pending.Free byte }
{
    byte == b' ' || byte == b'\t' || byte == b'\r'
}

// Whether the byte is an ASCII character that goes on with a comment.
fn keeps_comment(byte: u8) -> bool
    ensures { result ≡ keeps pending.Comment byte }
{
    byte.is_ascii() && byte != b'\n'
}

/// Whether the first byte is an ASCII character that goes on with no name.
pub fn ends_name(bytes: &[u8]) -> bool
    ensures { result ≡ ends_name bytes.now }
{
    match bytes.first() {
        Some(byte) => byte.is_ascii() && !keeps_name(*byte),
        None => false,
    }
}

/// Whether the first byte is an ASCII character that goes on with no name and no number.
pub fn ends_number(bytes: &[u8]) -> bool
    ensures { result ≡ ends_number bytes.now }
{
    match bytes.first() {
        Some(byte) => ends_name(bytes) && *byte != b'.',
        None => false,
    }
}

/// How many bytes at the front are a name that the first of them begins, if its end is seen.
#[inline(always)]
pub fn name_len(bytes: &[u8]) -> usize
    requires { begins_name bytes.now ≡ true }
    ensures within { result ≤ length bytes.now }
    ensures name { 0 < result → IsNameRun (take result bytes.now) }
    ensures ends { 0 < result → ends_name (drop result bytes.now) ≡ true }
{
    let mut len = 1;
    while len < bytes.len() {
        if !keeps_name(bytes[len]) {
            return if bytes[len].is_ascii() { len } else { 0 };
        }
        len += 1;
    }
    0
}

/// How many bytes at the front are characters of a comment.
pub fn comment_len(bytes: &[u8]) -> usize
    ensures within { result ≤ length bytes.now }
    ensures kept { AllKept pending.Comment (take result bytes.now) }
{
    let mut len = 0;
    while len < bytes.len() && keeps_comment(bytes[len]) {
        len += 1;
    }
    len
}

/// A number that has begun, with a character that belongs to it.
pub fn number_with(
    start: u32,
    end: u32,
    part: Part,
    figures: Figures,
    c: char,
    next: u32,
) -> Pending
    requires { FiguresFit figures }
    ensures goes { result ≡ number_taken start end part figures c next }
    ensures fits { PendingFits result }
{
    if c.is_ascii_digit() {
        let figures = figures.with(part, c as u32 - '0' as u32);
        return Pending::Number {
            start,
            end: next,
            part: part.after_digit(),
            figures,
        };
    }
    let part = if c == '.' { Part::Point } else { Part::Over };
    Pending::Number {
        start,
        end,
        part,
        figures,
    }
}

impl Pending {
    /// Whether the character belongs to what has begun.
    pub fn takes(self, c: char) -> bool
        ensures { result ≡ takes self c }
    {
        match self {
            Pending::Start => c == '\u{feff}',
            Pending::Free => false,
            Pending::Comment => true,
            Pending::Identifier { .. } | Pending::Variable { .. } => is_xid_continue(c),
            Pending::Quote { .. } => starts_name(c),
            Pending::Number { part, .. } => part.takes(c),
            Pending::Symbol { first, .. } => double_symbol(first, c).is_some()
                || (first == '/' && c == '/'),
        }
    }

    /// Whether what has begun is a number that has its last digit.
    pub fn ends_in_digit(self) -> bool
        ensures { result ≡ ends_in_digit self }
    {
        match self {
            Pending::Number {
                part: Part::Whole | Part::Decimal | Part::Ratio,
                ..
            } => true,
            _ => false,
        }
    }
}
