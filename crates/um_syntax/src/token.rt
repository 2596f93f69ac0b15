//! Tokens, and why a text has none.
ghost use Rattle.std.specs.Prelude.{◌≡◌, ◌≤◌, ℕ, List, [], length, take, IfOk};
ghost use Rattle.um_syntax.specs.declared.token.LexStop.TheVariants.{NoMemory};

use std::alloc::{AllocError, Global};
use std::marker::Model;
use std::mem;
use thiserror::Error;
use um_frac::Frac;
use um_inline::InlineBytes;
use um_vocabulary::{Keyword, Symbol};

/// Want of memory, as the only error of a call.
pub type NoMemory = AllocError;

/// A list of bytes: the letters of a name, in UTF-8.
pub struct Letters {
    bytes: InlineBytes,
}

// A derived drop would be proved anew in each crate that lets letters go. This one is proved here.
impl Drop for Letters {
    fn drop(self) {
        let Letters { bytes: _ } = self;
    }
}

impl Model for Letters {
    ghost Value = { List ℕ };

    ghost view = { λ l. l.bytes };
}

impl Letters {
    /// The letters that the slice holds, copied. Takes no memory if there are at most 16.
    pub fn from_slice(alloc: Global, bytes: &[u8]) -> Result<Letters, AllocError>
        ensures { IfOk result (λ l. l ≡ bytes.now) }
    {
        let bytes = InlineBytes::from_slice(alloc, bytes)?;
        Ok(Letters { bytes })
    }

    /// The first `len` letters that the slice holds, copied. Takes no memory if `len` is at most 16.
    #[inline(always)]
    pub fn from_front(alloc: Global, bytes: &[u8], len: usize) -> Result<Letters, AllocError>
        requires { len ≤ length bytes.now }
        ensures { IfOk result (λ l. l ≡ take len bytes.now) }
    {
        let bytes = InlineBytes::from_front(alloc, bytes, len)?;
        Ok(Letters { bytes })
    }

    /// The letters as bytes. Takes no memory.
    pub fn into_bytes(self) -> InlineBytes
        ensures { result ≡ self }
    {
        let Letters { bytes } = self;
        bytes
    }

    /// The letters, copied.
    pub fn copy(&self, alloc: Global) -> Result<Letters, AllocError>
        ensures { IfOk result (λ l. l ≡ self.now) }
    {
        Letters::from_slice(alloc, self.as_slice())
    }

    /// The letters, taken out: none are left. Takes no memory.
    pub fn take(&mut self, _alloc: Global) -> Letters
        ensures letters { result ≡ self.old }
        ensures none { self.new ≡ [] }
    {
        let bytes = InlineBytes::empty();
        mem::replace(self, Letters { bytes })
    }

    /// The letters.
    pub fn as_slice(&self) -> &[u8]
        ensures { result.now ≡ self.now }
    {
        self.bytes.as_slice()
    }
}

/// What a token is.
#[derive(Drop)]
pub enum Kind {
    /// A name, with its letters.
    Name(Letters),
    /// A variable, with its letters after the quote.
    Var(Letters),
    /// A number with its value. `digits` says that its text is digits alone, and `one` that it is the one digit 1.
    Number {
        value: Frac,
        digits: bool,
        one: bool,
    },
    /// A reserved word.
    Word(Keyword),
    /// `_` alone.
    Hole,
    /// A symbol.
    Sign(Symbol),
}

impl Kind {
    /// The same kind, with its letters copied.
    pub fn copy(&self, alloc: Global) -> Result<Kind, AllocError>
        ensures { IfOk result (λ k. k ≡ self.now) }
    {
        match self {
            Kind::Name(letters) => Ok(Kind::Name(letters.copy(alloc)?)),
            Kind::Var(letters) => Ok(Kind::Var(letters.copy(alloc)?)),
            Kind::Number { value, digits, one } => Ok(Kind::Number {
                value: *value,
                digits: *digits,
                one: *one,
            }),
            Kind::Word(keyword) => Ok(Kind::Word(*keyword)),
            Kind::Hole => Ok(Kind::Hole),
            Kind::Sign(symbol) => Ok(Kind::Sign(*symbol)),
        }
    }
}

/// A token of a text.
pub struct Token {
    pub kind: Kind,
    /// The place of its first byte, counted from 0.
    pub start: u32,
    /// The place after its last byte.
    pub end: u32,
    /// Whether nothing was skipped between it and the token before. The first token isn't glued.
    pub glued: bool,
}

// A derived drop would be proved anew in each crate that lets tokens go. This one is proved here.
impl Drop for Token {
    fn drop(self) {
        let Token {
            kind: _,
            start: _,
            end: _,
            glued: _,
        } = self;
    }
}

impl Token {
    /// The same token, with its letters copied.
    pub fn copy(&self, alloc: Global) -> Result<Token, AllocError>
        ensures { IfOk result (λ t. t ≡ self.now) }
    {
        Ok(Token {
            kind: self.kind.copy(alloc)?,
            start: self.start,
            end: self.end,
            glued: self.glued,
        })
    }
}

/// Why a text has no tokens. The place is that of the leftmost fault.
#[derive(Debug, Drop, Error)]
pub enum LexStop {
    /// At the place no token, white space or comment stands, or a letter directly follows a number.
    #[error("character at {at}")]
    BadChar { at: u32 },
    /// The number at the place is too long, or has a zero denominator, or doesn't fit.
    #[error("number at {at}")]
    NumberRange { at: u32 },
    /// The power at the place isn't digits alone, or is above 2147483647.
    #[error("power at {at}")]
    PowerText { at: u32 },
    /// There is no memory left.
    #[error("out of memory")]
    NoMemory,
}

impl From<AllocError> for LexStop {
    ghost from_gives = { λ _ e. e ≡ NoMemory };

    fn from(_e: AllocError) -> LexStop {
        LexStop::NoMemory
    }
}

/// Why bytes that were fed have no tokens. The place is that of the leftmost fault; bytes that aren't UTF-8 come first.
#[derive(Clone, Copy, Debug, Error)]
pub enum TextStop {
    /// The bytes aren't UTF-8. The place is the length of the longest prefix that is.
    #[error("not UTF-8 at {at}")]
    Utf8 { at: u32 },
    /// As [`LexStop::BadChar`].
    #[error("character at {at}")]
    BadChar { at: u32 },
    /// As [`LexStop::NumberRange`].
    #[error("number at {at}")]
    NumberRange { at: u32 },
    /// As [`LexStop::PowerText`].
    #[error("power at {at}")]
    PowerText { at: u32 },
    /// There is no memory left.
    #[error("out of memory")]
    NoMemory,
}
