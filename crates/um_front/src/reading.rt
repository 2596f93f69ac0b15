// A text that is being read: its bytes are kept, and its tokens are read as they come.
use crate::text::{Text, TextParts};
use std::alloc::{AllocError, Global};
use std::marker::Model;
use um_syntax::Lexer;
use um_wire::{NoMemory, Taker};

/// A text that is being read; contracts see the bytes so far.
#[derive(Drop)]
pub struct Reading {
    bytes: Vec<u8>,
    // None after want of memory.
    lexer: Option<Lexer>,
}

impl Model for Reading {
    ghost use Rattle.std.specs.Prelude.{ℕ, List};
    ghost use Rattle.um_front.specs.Reading.{Follows};

    ghost Value = { List ℕ };

    ghost view = { λ reading. reading.bytes.items };

    ghost invariant = { λ reading. Follows reading.bytes.items reading.lexer };
}

impl Reading {
    ghost use Rattle.std.specs.Prelude.{◌≡◌, [], IfOk};

    /// Nothing was read. Takes no memory.
    pub fn new(alloc: Global) -> Reading
        ensures { result ≡ [] }
    {
        Reading {
            bytes: Vec::new(alloc),
            lexer: Some(Lexer::new(alloc)),
        }
    }

    /// Nothing was read, and there is room for as many bytes. Want of memory is the one error.
    pub fn with_room(alloc: Global, bytes: usize) -> Result<Reading, AllocError>
        ensures { IfOk result (λ reading. reading ≡ []) }
    {
        Ok(Reading {
            bytes: Vec::with_capacity(alloc, bytes)?,
            lexer: Some(Lexer::new(alloc)),
        })
    }

    /// The text that was read. Want of memory is the one error.
    pub fn into_text(self) -> Result<Text, AllocError>
        ensures { IfOk result (λ text. text ≡ self) }
    {
        let Reading { bytes, lexer } = self;
        match lexer {
            None => Err(AllocError),
            Some(lexer) => Ok(Text::new(TextParts {
                bytes,
                tokens: lexer.finish(),
            })),
        }
    }
}

impl Taker for Reading {
    ghost taken = { λ reading. reading };

    ghost most = { λ _. 1048576 };

    fn take(&mut self, piece: &[u8]) -> Result<(), NoMemory> {
        let Some(mut lexer) = self.lexer.take() else {
            return Err(AllocError);
        };
        self.bytes.extend_from_slice(piece)?;
        lexer.feed(piece)?;
        self.lexer = Some(lexer);
        Ok(())
    }
}
