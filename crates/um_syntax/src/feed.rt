//! A lexer that is fed the bytes of a text in pieces.
ghost use Rattle.std.specs.Prelude.{◌≡◌, ◌+◌, ◌&&◌, nat_lt, ◌<◌, ◌≤◌, List, ℕ, ◌++◌, ◌∷◌, [], length, take, drop};
ghost use Rattle.std.specs.Prelude.{slice_index, OnOk, OnErr, IfOk, IsErr};
ghost use Rattle.std.specs.Char.{len_utf8};
ghost use Rattle.std.specs.Str.{chars, IsCharBoundary};
ghost use Rattle.um_syntax.specs.Decoding.{char_len};
ghost use Rattle.um_syntax.specs.Machine.{PendingFits, PendingFits-prop};

use crate::decode::{Decoded, char_len, decode_char};
use crate::scanner::Scanner;
use crate::token::{LexStop, NoMemory, TextStop};
use crate::tokens::TokenBlocks;
use std::alloc::{AllocError, Global};
use std::str;

/// A lexer that is fed the bytes of a text in pieces, cut anywhere.
///
/// It keeps the tokens read so far, and no text. After want of memory it answers `NoMemory` to every call.
#[derive(Drop)]
pub struct Lexer {
    scanner: Scanner,
    // The bytes of a character that isn't whole yet: the first `held` of these.
    partial: [u8; 4],
    held: usize,
    // The place where the whole characters end.
    valid: u32,
    // The fault that was met. After a bad character the bytes are still read, since they may not be UTF-8.
    fault: Option<TextStop>,
    // The number of tokens up to the last line feed.
    counted: usize,
    // The number of bytes fed.
    fed: u32,
    ghost begun: { held < char_len (slice_index (take held partial) 0) },
    ghost small: { held ≤ 3 },
    ghost fits: { PendingFits scanner.pending } by { PendingFits-prop scanner.pending },
    ghost place: { scanner.at ≤ valid },
    ghost within: { valid + held ≤ fed },
    ghost limit: { fed ≤ 1048576 },
}

impl Lexer {
    ghost use Rattle.um_syntax.specs.Feeding.{Stands, CountsTokens, IsTextAnswer, IsSpent, is_readable, IsReadable};
    ghost use Rattle.um_syntax.specs.Feeding.{HasRead, fed_of, text_stop};
    ghost use Rattle.um_syntax.specs.declared.token.TextStop.TheVariants as text_stop_of;

    /// A lexer that was fed nothing. Takes no memory.
    pub fn new(alloc: Global) -> Lexer
        ensures stands { Stands result [] }
        ensures fed { fed_of result ≡ 0 }
    {
        Lexer {
            scanner: Scanner::new(alloc),
            partial: [0; 4],
            held: 0,
            valid: 0,
            fault: None,
            counted: 0,
            fed: 0,
        }
    }

    /// Takes a piece of the text after what was fed, and answers how many tokens were read up to the last line feed.
    ///
    /// These are the tokens of the text fed so far, up to that line feed, if it is UTF-8 and has no fault that far;
    /// otherwise nothing is known of the number.
    pub fn feed(&mut self, piece: &[u8]) -> Result<usize, NoMemory>
        requires { fed_of self.old + length piece.now ≤ 1048576 }
        ensures stands { OnOk result ((bytes : List ℕ) → Stands self.old bytes → Stands self.new (bytes ++ piece.now)) }
        ensures tokens { IfOk result
            (λ n. (bytes : List ℕ) → Stands self.old bytes → CountsTokens (bytes ++ piece.now) n) }
        ensures fed { OnOk result (fed_of self.new ≡ fed_of self.old + length piece.now) }
        ensures spent { OnErr result (IsSpent self.new) }
        ensures stays_spent { IsSpent self.old → IsErr result }
    {
        if matches!(self.fault, Some(TextStop::NoMemory)) {
            return Err(AllocError);
        }
        match self.take_piece(piece) {
            Ok(()) => Ok(self.counted),
            Err(error) => {
                self.fault = Some(TextStop::NoMemory);
                Err(error)
            }
        }
    }

    /// The tokens of the text that was fed.
    ///
    /// # Errors
    ///
    /// `Utf8` if the bytes aren't UTF-8, at the length of their longest prefix that is; otherwise the refusal of `lex`.
    pub fn finish(self) -> Result<TokenBlocks, TextStop>
        ensures answer { (bytes : List ℕ) → Stands self bytes → IsTextAnswer bytes result }
        ensures spent { IsSpent self → result ≡ Err text_stop_of.NoMemory }
    {
        if self.ends_within_char() {
            return Err(TextStop::Utf8 { at: self.valid });
        }
        match self.fault {
            Some(stop) => Err(stop),
            None => match self.scanner.finish() {
                Ok(tokens) => Ok(tokens),
                Err(stop) => Err(Lexer::text_stop(stop)),
            },
        }
    }

    // Whether the bytes that were fed end within a character, and could be read so far.
    fn ends_within_char(&self) -> bool
        ensures { result ≡ (is_readable self.now.fault && nat_lt 0 self.now.held) }
    {
        Lexer::is_readable(self.fault) && self.held > 0
    }

    // Takes bytes after those that were fed: what ends a character that has begun, and then the others.
    fn take_piece(&mut self, piece: &[u8]) -> Result<(), AllocError>
        requires { self.old.fed + length piece.now ≤ 1048576 }
        ensures stands { OnOk result ((bytes : List ℕ) → Stands self.old bytes → Stands self.new (bytes ++ piece.now)) }
        ensures fed { OnOk result (self.new.fed ≡ self.old.fed + length piece.now) }
    {
        let remaining = self.remaining();
        if remaining < piece.len() {
            let (end, rest) = piece.split_at(remaining);
            self.take_bytes(end)?;
            self.take_chars(rest)
        } else {
            self.take_bytes(piece)
        }
    }

    // How many bytes of a character that has begun are still to come.
    fn remaining(&self) -> usize {
        if self.held > 0 {
            char_len(self.partial[0]).saturating_sub(self.held)
        } else {
            0
        }
    }

    // Takes bytes after those that were fed: the characters at their front at once, and what is left one by one.
    fn take_chars(&mut self, piece: &[u8]) -> Result<(), AllocError>
        requires { self.old.fed + length piece.now ≤ 1048576 }
        ensures stands { OnOk result ((bytes : List ℕ) → Stands self.old bytes → Stands self.new (bytes ++ piece.now)) }
        ensures fed { OnOk result (self.new.fed ≡ self.old.fed + length piece.now) }
    {
        if self.held > 0 || !Lexer::is_readable(self.fault) {
            return self.take_bytes(piece);
        }
        match str::from_utf8(piece) {
            Ok(text) => self.take_text(text),
            Err(error) => self.take_parts(piece, error.valid_up_to()),
        }
    }

    // Takes bytes after those that were fed, if so many of them are characters.
    fn take_parts(&mut self, piece: &[u8], valid: usize) -> Result<(), AllocError>
        requires room { self.old.fed + length piece.now ≤ 1048576 }
        requires readable { IsReadable self.old.fault }
        requires whole { self.old.held ≡ 0 }
        requires within { valid ≤ length piece.now }
        ensures stands { OnOk result ((bytes : List ℕ) → Stands self.old bytes → Stands self.new (bytes ++ piece.now)) }
        ensures fed { OnOk result (self.new.fed ≡ self.old.fed + length piece.now) }
    {
        let (front, rest) = piece.split_at(valid);
        self.take_front(front)?;
        self.take_bytes(rest)
    }

    // Takes bytes that are characters after those that were fed.
    fn take_front(&mut self, front: &[u8]) -> Result<(), AllocError>
        requires room { self.old.fed + length front.now ≤ 1048576 }
        requires readable { IsReadable self.old.fault }
        requires whole { self.old.held ≡ 0 }
        ensures stands { OnOk result ((bytes : List ℕ) → Stands self.old bytes → Stands self.new (bytes ++ front.now)) }
        ensures fed { OnOk result (self.new.fed ≡ self.old.fed + length front.now) }
    {
        match str::from_utf8(front) {
            Ok(text) => self.take_text(text),
            Err(_) => self.take_bytes(front),
        }
    }

    // Takes the characters of a text after those that were read.
    fn take_text(&mut self, text: &str) -> Result<(), AllocError>
        requires room { self.old.fed + length text.now ≤ 1048576 }
        requires readable { IsReadable self.old.fault }
        requires whole { self.old.held ≡ 0 }
        ensures stands { OnOk result ((bytes : List ℕ) → Stands self.old bytes → Stands self.new (bytes ++ text.now)) }
        ensures fed { OnOk result (self.new.fed ≡ self.old.fed + length text.now) }
    {
        self.fed += text.len() as u32;
        let mut at = 0;
        while at < text.len() {
            at += self.take_next(&text[at..])?;
        }
        Ok(())
    }

    // Takes what stands at the front of a text after what was read: what is taken at once, or one character.
    // Answers how many bytes these are.
    fn take_next(&mut self, text: &str) -> Result<usize, AllocError>
        requires some { 0 < length text.now }
        requires readable { IsReadable self.old.fault }
        requires room { self.old.valid + length text.now ≤ self.old.fed }
        requires whole { self.old.held ≡ 0 }
        ensures some { IfOk result (λ n. 0 < n) }
        ensures front { IfOk result (λ n. IsCharBoundary text.now n) }
        ensures read { IfOk result (λ n. (cs : List ℕ) → HasRead self.old cs (chars text.now)
            → HasRead self.new (cs ++ chars (take n text.now)) (chars (drop n text.now))) }
        ensures readable { OnOk result (IsReadable self.new.fault) }
        ensures whole { self.new.held ≡ 0 }
        ensures place { IfOk result (λ n. self.new.valid ≡ self.old.valid + n) }
        ensures fed { self.new.fed ≡ self.old.fed }
    {
        let len = self.take_at_once(text)?;
        if len > 0 {
            return Ok(len);
        }
        match text.chars().next() {
            Some(c) => {
                self.take_char(c)?;
                Ok(c.len_utf8())
            }
            None => unreachable!(),
        }
    }

    // Takes what stands at the front of a text at once, and answers how many bytes these are. None are after a fault,
    // and at a line feed.
    fn take_at_once(&mut self, text: &str) -> Result<usize, AllocError>
        requires some { 0 < length text.now }
        requires room { self.old.valid + length text.now ≤ self.old.fed }
        requires whole { self.old.held ≡ 0 }
        ensures front { IfOk result (λ n. IsCharBoundary text.now n) }
        ensures read { IfOk result (λ n. (cs : List ℕ) → HasRead self.old cs (chars text.now)
            → HasRead self.new (cs ++ chars (take n text.now)) (chars (drop n text.now))) }
        ensures fault { self.new.fault ≡ self.old.fault }
        ensures whole { self.new.held ≡ 0 }
        ensures place { IfOk result (λ n. self.new.valid ≡ self.old.valid + n) }
        ensures fed { self.new.fed ≡ self.old.fed }
    {
        if self.fault.is_some() || text.as_bytes()[0] == b'\n' {
            return Ok(0);
        }
        let len = self.scanner.scan_front(text)?;
        self.valid += len as u32;
        Ok(len)
    }

    // Takes bytes after those that were fed, one by one.
    fn take_bytes(&mut self, piece: &[u8]) -> Result<(), AllocError>
        requires { self.old.fed + length piece.now ≤ 1048576 }
        ensures stands { OnOk result ((bytes : List ℕ) → Stands self.old bytes → Stands self.new (bytes ++ piece.now)) }
        ensures fed { OnOk result (self.new.fed ≡ self.old.fed + length piece.now) }
    {
        for byte in piece {
            self.take_byte(*byte)?;
        }
        Ok(())
    }

    // Takes a character after those that were read.
    #[inline(always)]
    fn take_char(&mut self, c: char) -> Result<(), AllocError>
        requires readable { IsReadable self.old.fault }
        requires room { self.old.valid + len_utf8 c ≤ self.old.fed }
        requires whole { self.old.held ≡ 0 }
        ensures read { OnOk result ((cs more : List ℕ) → HasRead self.old cs (c ∷ more)
            → HasRead self.new (cs ++ c ∷ []) more) }
        ensures readable { OnOk result (IsReadable self.new.fault) }
        ensures whole { self.new.held ≡ 0 }
        ensures place { self.new.valid ≡ self.old.valid + len_utf8 c }
        ensures fed { self.new.fed ≡ self.old.fed }
    {
        self.valid += c.len_utf8() as u32;
        if self.fault.is_some() {
            return Ok(());
        }
        match self.scanner.scan(c) {
            Ok(()) => {
                if c == '\n' {
                    self.counted = self.scanner.count();
                }
            }
            Err(stop) => match Lexer::text_stop(stop) {
                TextStop::NoMemory => return Err(AllocError),
                fault => self.fault = Some(fault),
            },
        }
        Ok(())
    }

    // Takes a byte after those that were fed.
    fn take_byte(&mut self, byte: u8) -> Result<(), AllocError>
        requires { self.old.fed < 1048576 }
        ensures stands { OnOk result ((bytes : List ℕ) → Stands self.old bytes → Stands self.new (bytes ++ byte ∷ [])) }
        ensures fed { self.new.fed ≡ self.old.fed + 1 }
    {
        self.fed += 1;
        if !Lexer::is_readable(self.fault) {
            return Ok(());
        }
        let held = self.held;
        let mut partial = self.partial;
        partial[held] = byte;
        self.held = 0;
        match decode_char(&partial[..held + 1]) {
            Decoded::Whole(c) => self.take_char(c),
            Decoded::Partial => {
                self.partial = partial;
                self.held = held + 1;
                Ok(())
            }
            Decoded::Broken => {
                self.fault = Some(TextStop::Utf8 { at: self.valid });
                Ok(())
            }
        }
    }

    // Whether bytes can still be read after the fault.
    fn is_readable(fault: Option<TextStop>) -> bool
        ensures { result ≡ is_readable fault }
    {
        match fault {
            Some(TextStop::Utf8 { .. } | TextStop::NoMemory) => false,
            _ => true,
        }
    }

    // The fault of a text that is a refusal of its characters.
    fn text_stop(stop: LexStop) -> TextStop
        ensures { result ≡ text_stop stop }
    {
        match stop {
            LexStop::BadChar { at } => TextStop::BadChar { at },
            LexStop::NumberRange { at } => TextStop::NumberRange { at },
            LexStop::PowerText { at } => TextStop::PowerText { at },
            LexStop::NoMemory => TextStop::NoMemory,
        }
    }
}
