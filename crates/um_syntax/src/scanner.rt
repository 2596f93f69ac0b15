//! The machine that reads a text character by character.
ghost use Rattle.std.specs.Prelude.{◌≡◌, true, ◌+◌, ◌<◌, ◌≤◌, ◌^◌, ◌==◌, ◌&&◌, [], length, slice_index, take, max};
ghost use Rattle.std.specs.Prelude.{OnOk, OnErr, IfOk};
ghost use Rattle.std.specs.Char.{len_utf8};
ghost use Rattle.std.specs.String.{string_bytes};
ghost use Rattle.um_syntax.specs.Machine.{scan_start, free_at, step, ended, taken, close, begun, pushed};
ghost use Rattle.um_syntax.specs.Machine.{identifier_pushed, variable_pushed, begins_name, letters_kind, FiguresFit};
ghost use Rattle.um_syntax.specs.Machine.{PendingFits};
ghost use Rattle.um_syntax.specs.declared.pending.Pending.TheVariants as pending;
ghost use Rattle.um_syntax.specs.Scanning.{scan_of, Scans, Follows, Answers};

use crate::number::{Figures, NumberText, Part};
use crate::pending::{
    Pending, begins_name, comment_len, ends_number, is_blank, is_space, name_len, number_with,
    starts_name,
};
use crate::preceding::{is_glued, is_power_place};
use crate::token::{Kind, Letters, LexStop, Token};
use crate::tokens::TokenBlocks;
use std::alloc::{AllocError, Global};
use um_vocabulary::{Symbol, are_slashes, double_symbol, front_symbol, keyword_of, single_symbol};
use unicode_ident::is_xid_continue;

/// The state between two characters.
#[derive(Drop)]
pub(crate) struct Scanner {
    alloc: Global,
    // The place of the next character.
    at: u32,
    tokens: TokenBlocks,
    // The letters of a name that has begun.
    letters: String,
    pending: Pending,
}

impl Scanner {
    /// The state before the first character. Takes no memory.
    pub fn new(alloc: Global) -> Scanner
        ensures { scan_of result ≡ scan_start }
    {
        Scanner {
            alloc,
            at: 0,
            tokens: TokenBlocks::new(alloc),
            letters: String::new(alloc),
            pending: Pending::Start,
        }
    }

    // Puts a token after the others, if nothing has begun.
    #[inline(always)]
    fn add(&mut self, kind: Kind, start: u32, end: u32) -> Result<(), AllocError>
        requires free { self.old.pending ≡ pending.Free }
        requires none { string_bytes self.old.letters ≡ [] }
        ensures goes { OnOk result (scan_of self.new ≡ pushed (scan_of self.old) kind start end) }
        ensures free { self.new.pending ≡ pending.Free }
        ensures letters { self.new.letters ≡ self.old.letters }
        ensures place { self.new.at ≡ self.old.at }
    {
        let glued = is_glued(&self.tokens, start);
        self.tokens.push(Token {
            kind,
            start,
            end,
            glued,
        })?;
        Ok(())
    }

    // Puts a token after the others. Nothing has begun then.
    fn push(&mut self, kind: Kind, start: u32, end: u32) -> Result<(), AllocError>
        ensures goes { OnOk result (scan_of self.new ≡ pushed (scan_of self.old) kind start end) }
        ensures free { self.new.pending ≡ pending.Free }
        ensures place { self.new.at ≡ self.old.at }
    {
        self.letters.clear();
        self.pending = Pending::Free;
        self.add(kind, start, end)
    }

    // Ends the identifier whose letters were read.
    fn close_identifier(&mut self, start: u32) -> Result<(), AllocError>
        ensures goes { OnOk result (scan_of self.new ≡ identifier_pushed (scan_of self.old) start) }
        ensures free { OnOk result (self.new.pending ≡ pending.Free) }
        ensures fits { PendingFits self.old.pending → PendingFits self.new.pending }
        ensures place { self.new.at ≡ self.old.at }
    {
        let letters = &self.letters;
        let kind = letters_kind(self.alloc, letters, letters.as_bytes())?;
        self.push(kind, start, self.at)
    }

    // Ends the variable whose letters were read. If they are a reserved word, the last of them is a name by itself.
    fn close_variable(&mut self, start: u32, last: u32) -> Result<(), AllocError>
        ensures goes { OnOk result (scan_of self.new ≡ variable_pushed (scan_of self.old) start last) }
        ensures free { OnOk result (self.new.pending ≡ pending.Free) }
        ensures fits { PendingFits self.old.pending → PendingFits self.new.pending }
        ensures place { self.new.at ≡ self.old.at }
    {
        let letters = self.letters.as_bytes();
        if keyword_of(&self.letters).is_none() {
            let kind = Kind::Var(Letters::from_slice(self.alloc, letters)?);
            return self.push(kind, start, self.at);
        }
        let (prefix, letter) = letters.split_at(letters.len().saturating_sub(1));
        let variable = Kind::Var(Letters::from_slice(self.alloc, prefix)?);
        let name = Kind::Name(Letters::from_slice(self.alloc, letter)?);
        self.push(variable, start, last)?;
        self.push(name, last, self.at)
    }

    // Ends the number that these digits are, and what has been read after it.
    fn close_number(
        &mut self,
        start: u32,
        end: u32,
        part: Part,
        figures: Figures,
    ) -> Result<(), LexStop>
        requires { FiguresFit figures }
        ensures goes { Follows result (scan_of self.new)
            (close (scan_of self.old) (pending.Number start end part figures)) }
        ensures free { OnOk result (self.new.pending ≡ pending.Free) }
        ensures fits { PendingFits self.old.pending → PendingFits self.new.pending }
        ensures place { self.new.at ≡ self.old.at }
    {
        let power = is_power_place(&self.tokens);
        let Some(kind) = figures.kind(power, part) else {
            return Err(if power {
                LexStop::PowerText { at: start }
            } else {
                LexStop::NumberRange { at: start }
            });
        };
        self.push(kind, start, end)?;
        match part {
            Part::Whole | Part::Decimal | Part::Ratio => Ok(()),
            Part::Point => Ok(self.push(Kind::Sign(Symbol::Dot), end, self.at)?),
            Part::Over => Err(LexStop::BadChar { at: end }),
        }
    }

    // Ends what has begun.
    fn close(&mut self) -> Result<(), LexStop>
        requires { PendingFits self.old.pending }
        ensures goes { Follows result (scan_of self.new) (close (scan_of self.old) self.old.pending) }
        ensures free { OnOk result (self.new.pending ≡ pending.Free) }
        ensures fits { PendingFits self.new.pending }
        ensures place { self.new.at ≡ self.old.at }
    {
        match self.pending {
            Pending::Start | Pending::Free | Pending::Comment => self.pending = Pending::Free,
            Pending::Identifier { start } => self.close_identifier(start)?,
            Pending::Quote { start } => return Err(LexStop::BadChar { at: start }),
            Pending::Variable { start, last } => {
                if self.letters.as_str() == "_" {
                    return Err(LexStop::BadChar { at: start });
                }
                self.close_variable(start, last)?;
            }
            Pending::Number {
                start,
                end,
                part,
                figures,
            } => return self.close_number(start, end, part, figures),
            Pending::Symbol { start, first } => {
                let Some(symbol) = single_symbol(first) else {
                    return Err(LexStop::BadChar { at: start });
                };
                self.push(Kind::Sign(symbol), start, self.at)?;
            }
        }
        Ok(())
    }

    // Takes a character that belongs to what has begun. `next` is the place after it.
    fn take(&mut self, c: char, next: u32) -> Result<(), AllocError>
        requires { PendingFits self.old.pending }
        ensures goes { OnOk result (scan_of self.new ≡ taken (scan_of self.old) self.old.pending c next) }
        ensures fits { PendingFits self.new.pending }
        ensures place { OnOk result (self.new.at ≡ next) }
        ensures within { self.new.at ≤ max self.old.at next }
    {
        let at = self.at;
        self.at = next;
        match self.pending {
            Pending::Start | Pending::Free => self.pending = Pending::Free,
            Pending::Comment => {
                if c == '\n' {
                    self.pending = Pending::Free;
                }
            }
            Pending::Identifier { .. } => self.letters.push(c)?,
            Pending::Quote { start } | Pending::Variable { start, .. } => {
                self.letters.push(c)?;
                self.pending = Pending::Variable { start, last: at };
            }
            Pending::Number {
                start,
                end,
                part,
                figures,
            } => {
                self.pending = number_with(start, end, part, figures, c, next);
            }
            Pending::Symbol { start, first } => match double_symbol(first, c) {
                Some(symbol) => self.push(Kind::Sign(symbol), start, next)?,
                None => self.pending = Pending::Comment,
            },
        }
        Ok(())
    }

    // Takes the first character of something, if nothing has begun. `next` is the place after it.
    fn begin(&mut self, c: char, next: u32) -> Result<(), LexStop>
        requires { self.old.pending ≡ pending.Free }
        ensures goes { Follows result (scan_of self.new) (begun (scan_of self.old) c next) }
        ensures fits { PendingFits self.new.pending }
        ensures place { OnOk result (self.new.at ≡ next) }
        ensures within { self.new.at ≤ max self.old.at next }
    {
        let start = self.at;
        if is_space(c) {
            self.pending = Pending::Free;
        } else if starts_name(c) {
            self.letters.push(c)?;
            self.pending = Pending::Identifier { start };
        } else if c.is_ascii_digit() {
            let figures = Figures::new(c as u32 - '0' as u32);
            self.pending = Pending::Number {
                start,
                end: next,
                part: Part::Whole,
                figures,
            };
        } else if c == '\'' {
            self.pending = Pending::Quote { start };
        } else if single_symbol(c).is_some() || c == '&' {
            self.pending = Pending::Symbol { start, first: c };
        } else {
            return Err(LexStop::BadChar { at: start });
        }
        self.at = next;
        Ok(())
    }

    /// How many tokens have been read.
    pub fn count(&self) -> usize
        ensures { result ≡ length (scan_of self.now).tokens }
    {
        self.tokens.len()
    }

    /// Takes one character.
    #[inline(always)]
    pub fn scan(&mut self, c: char) -> Result<(), LexStop>
        requires fits { PendingFits self.old.pending }
        requires room { self.old.at + 4 < 2 ^ 32 }
        ensures goes { Follows result (scan_of self.new) (step (scan_of self.old) c) }
        ensures fits { PendingFits self.new.pending }
        ensures place { OnOk result (self.new.at ≡ self.old.at + len_utf8 c) }
        ensures within { self.new.at ≤ self.old.at + len_utf8 c }
    {
        match self.pending {
            Pending::Free if c == '\n' => {
                self.at += 1;
                Ok(())
            }
            _ => self.scan_char(c),
        }
    }

    // Takes one character.
    fn scan_char(&mut self, c: char) -> Result<(), LexStop>
        requires fits { PendingFits self.old.pending }
        requires room { self.old.at + 4 < 2 ^ 32 }
        ensures goes { Follows result (scan_of self.new) (step (scan_of self.old) c) }
        ensures fits { PendingFits self.new.pending }
        ensures place { OnOk result (self.new.at ≡ self.old.at + len_utf8 c) }
        ensures within { self.new.at ≤ self.old.at + len_utf8 c }
    {
        let next = self.at + c.len_utf8() as u32;
        let pending = self.pending;
        if pending.takes(c) {
            return Ok(self.take(c, next)?);
        }
        self.close()?;
        if pending.ends_in_digit() && is_xid_continue(c) {
            return Err(LexStop::BadChar { at: self.at });
        }
        self.begin(c, next)
    }

    /// Takes what stands at the front of a text at once, and answers how many bytes these are: blanks, a token whose
    /// end is seen, or characters of a comment. It answers 0 if `scan` has to take the next character.
    pub fn scan_front(&mut self, text: &str) -> Result<usize, AllocError>
        requires fits { PendingFits self.old.pending }
        requires room { self.old.at + length text.now < 2 ^ 32 }
        ensures scans { IfOk result (λ n. Scans (scan_of self.old) text.now n (scan_of self.new)) }
        ensures fits { PendingFits self.new.pending }
        ensures place { IfOk result (λ n. self.new.at ≡ self.old.at + n) }
        ensures stays { OnErr result (self.new.at ≡ self.old.at) }
    {
        match self.pending {
            Pending::Comment => Ok(self.skip_comment(text)),
            Pending::Free => self.scan_free(text),
            _ => Ok(0),
        }
    }

    // Takes characters of a comment.
    fn skip_comment(&mut self, text: &str) -> usize
        requires comment { self.old.pending ≡ pending.Comment }
        requires room { self.old.at + length text.now < 2 ^ 32 }
        ensures scans { Scans (scan_of self.old) text.now result (scan_of self.new) }
        ensures pending { self.new.pending ≡ self.old.pending }
        ensures place { self.new.at ≡ self.old.at + result }
    {
        let len = comment_len(text.as_bytes());
        self.at += len as u32;
        len
    }

    // Takes what stands at the front of a text, if nothing has begun: the slashes of a comment, or tokens.
    fn scan_free(&mut self, text: &str) -> Result<usize, AllocError>
        requires free { self.old.pending ≡ pending.Free }
        requires room { self.old.at + length text.now < 2 ^ 32 }
        ensures scans { IfOk result (λ n. Scans (scan_of self.old) text.now n (scan_of self.new)) }
        ensures fits { PendingFits self.new.pending }
        ensures place { IfOk result (λ n. self.new.at ≡ self.old.at + n) }
        ensures stays { OnErr result (self.new.at ≡ self.old.at) }
    {
        if !self.letters.is_empty() {
            return Ok(0);
        }
        let bytes = text.as_bytes();
        if bytes.len() > 1 && are_slashes(char::from(bytes[0]), char::from(bytes[1])) {
            self.at += 2;
            self.pending = Pending::Comment;
            return Ok(2);
        }
        let start = self.at;
        match self.scan_tokens(text) {
            Ok(len) => Ok(len),
            Err(error) => {
                self.at = start;
                Err(error)
            }
        }
    }

    // Takes the tokens at the front of a text whose ends are seen, and the blanks among them.
    fn scan_tokens(&mut self, text: &str) -> Result<usize, AllocError>
        requires free { self.old.pending ≡ pending.Free }
        requires none { string_bytes self.old.letters ≡ [] }
        requires room { self.old.at + length text.now < 2 ^ 32 }
        ensures scans { IfOk result (λ n. Scans (scan_of self.old) text.now n (scan_of self.new)) }
        ensures free { self.new.pending ≡ pending.Free }
        ensures place { IfOk result (λ n. self.new.at ≡ self.old.at + n) }
    {
        let mut len = 0;
        while len < text.len() {
            let more = self.scan_token(&text[len..])?;
            if more == 0 {
                return Ok(len);
            }
            len += more;
        }
        Ok(len)
    }

    // Takes a blank, or a token whose end is seen.
    #[inline(always)]
    fn scan_token(&mut self, text: &str) -> Result<usize, AllocError>
        requires free { self.old.pending ≡ pending.Free }
        requires none { string_bytes self.old.letters ≡ [] }
        requires some { 0 < length text.now }
        requires room { self.old.at + length text.now < 2 ^ 32 }
        ensures scans { IfOk result (λ n. Scans (scan_of self.old) text.now n (scan_of self.new)) }
        ensures free { self.new.pending ≡ pending.Free }
        ensures letters { self.new.letters ≡ self.old.letters }
        ensures place { IfOk result (λ n. self.new.at ≡ self.old.at + n) }
    {
        let bytes = text.as_bytes();
        let first = bytes[0];
        if is_blank(first) {
            self.at += 1;
            Ok(1)
        } else if first < b' ' {
            Ok(0)
        } else if begins_name(bytes) {
            self.scan_name(text)
        } else if first.is_ascii_digit() {
            self.scan_number(text)
        } else if first == b'\'' {
            self.scan_variable(text)
        } else {
            self.scan_sign(text)
        }
    }

    // Puts the token that so many bytes are after the others, and answers how many these are.
    #[inline(always)]
    fn put(&mut self, kind: Kind, len: usize) -> Result<usize, AllocError>
        requires free { self.old.pending ≡ pending.Free }
        requires none { string_bytes self.old.letters ≡ [] }
        requires room { self.old.at + len < 2 ^ 32 }
        ensures goes { OnOk result (scan_of self.new
            ≡ pushed (free_at (self.old.at + len) (scan_of self.old).tokens) kind self.old.at (self.old.at + len)) }
        ensures len { IfOk result (λ n. n ≡ len) }
        ensures free { self.new.pending ≡ pending.Free }
        ensures letters { self.new.letters ≡ self.old.letters }
        ensures place { OnOk result (self.new.at ≡ self.old.at + len) }
    {
        let end = self.at + len as u32;
        self.add(kind, self.at, end)?;
        self.at = end;
        Ok(len)
    }

    // Takes a name whose end is seen.
    #[inline(always)]
    fn scan_name(&mut self, text: &str) -> Result<usize, AllocError>
        requires free { self.old.pending ≡ pending.Free }
        requires none { string_bytes self.old.letters ≡ [] }
        requires begins { begins_name text.now ≡ true }
        requires room { self.old.at + length text.now < 2 ^ 32 }
        ensures scans { IfOk result (λ n. Scans (scan_of self.old) text.now n (scan_of self.new)) }
        ensures free { self.new.pending ≡ pending.Free }
        ensures letters { self.new.letters ≡ self.old.letters }
        ensures place { IfOk result (λ n. self.new.at ≡ self.old.at + n) }
    {
        let bytes = text.as_bytes();
        let len = name_len(bytes);
        if len == 0 {
            return Ok(0);
        }
        let kind = letters_kind(self.alloc, &text[..len], bytes)?;
        self.put(kind, len)
    }

    // Takes a variable whose end is seen, if its letters are no reserved word.
    #[inline(never)]
    fn scan_variable(&mut self, text: &str) -> Result<usize, AllocError>
        requires free { self.old.pending ≡ pending.Free }
        requires none { string_bytes self.old.letters ≡ [] }
        requires some { 0 < length text.now }
        requires quote { slice_index text.now 0 ≡ 39 }
        requires room { self.old.at + length text.now < 2 ^ 32 }
        ensures scans { IfOk result (λ n. Scans (scan_of self.old) text.now n (scan_of self.new)) }
        ensures free { self.new.pending ≡ pending.Free }
        ensures letters { self.new.letters ≡ self.old.letters }
        ensures place { IfOk result (λ n. self.new.at ≡ self.old.at + n) }
    {
        let name = &text[1..];
        let bytes = name.as_bytes();
        if !begins_name(bytes) {
            return Ok(0);
        }
        let len = name_len(bytes);
        if len == 0 {
            return Ok(0);
        }
        let letters = &name[..len];
        if letters == "_" || keyword_of(letters).is_some() {
            return Ok(0);
        }
        let kind = Kind::Var(Letters::from_front(self.alloc, bytes, len)?);
        self.put(kind, len + 1)
    }

    // Takes a number whose end is seen, if it is in range.
    #[inline(never)]
    fn scan_number(&mut self, text: &str) -> Result<usize, AllocError>
        requires free { self.old.pending ≡ pending.Free }
        requires none { string_bytes self.old.letters ≡ [] }
        requires some { 0 < length text.now }
        requires from { 48 ≤ slice_index text.now 0 }
        requires to { slice_index text.now 0 ≤ 57 }
        requires room { self.old.at + length text.now < 2 ^ 32 }
        ensures scans { IfOk result (λ n. Scans (scan_of self.old) text.now n (scan_of self.new)) }
        ensures free { self.new.pending ≡ pending.Free }
        ensures letters { self.new.letters ≡ self.old.letters }
        ensures place { IfOk result (λ n. self.new.at ≡ self.old.at + n) }
    {
        let bytes = text.as_bytes();
        let number = NumberText::at_front(bytes);
        if !number.is_whole() || !ends_number(&bytes[number.len..]) {
            return Ok(0);
        }
        match number
            .figures
            .kind(is_power_place(&self.tokens), number.part)
        {
            Some(kind) => self.put(kind, number.len),
            None => Ok(0),
        }
    }

    // Takes a symbol whose end is seen.
    #[inline(always)]
    fn scan_sign(&mut self, text: &str) -> Result<usize, AllocError>
        requires free { self.old.pending ≡ pending.Free }
        requires none { string_bytes self.old.letters ≡ [] }
        requires room { self.old.at + length text.now < 2 ^ 32 }
        ensures scans { IfOk result (λ n. Scans (scan_of self.old) text.now n (scan_of self.new)) }
        ensures free { self.new.pending ≡ pending.Free }
        ensures letters { self.new.letters ≡ self.old.letters }
        ensures place { IfOk result (λ n. self.new.at ≡ self.old.at + n) }
    {
        let bytes = text.as_bytes();
        if bytes.len() < 2 || !bytes[1].is_ascii() {
            return Ok(0);
        }
        match front_symbol(char::from(bytes[0]), char::from(bytes[1])) {
            Some((symbol, len)) => self.put(Kind::Sign(symbol), len),
            None => Ok(0),
        }
    }

    /// The tokens of the characters taken, once the text has ended.
    pub fn finish(mut self) -> Result<TokenBlocks, LexStop>
        requires { PendingFits self.pending }
        ensures { Answers result (ended (Ok (scan_of self))) }
    {
        self.close()?;
        Ok(self.tokens)
    }
}

// The kind of an identifier whose letters stand at the front of the bytes.
#[inline(always)]
fn letters_kind(alloc: Global, letters: &str, bytes: &[u8]) -> Result<Kind, AllocError>
    requires { letters.now ≡ take (length letters.now) bytes.now }
    ensures { IfOk result (λ k. k ≡ letters_kind letters.now) }
{
    match keyword_of(letters) {
        Some(keyword) => Ok(Kind::Word(keyword)),
        None if letters == "_" => Ok(Kind::Hole),
        None => Ok(Kind::Name(Letters::from_front(alloc, bytes, letters.len())?)),
    }
}
