// A text and its tokens.
use crate::reading::Reading;
use std::alloc::{AllocError, Global};
use std::marker::Model;
use um_syntax::{TextStop, TokenBlocks};
use um_wire::Taker;

/// A text of at most 1,048,576 bytes with its tokens, or why it has none; contracts see its bytes.
#[derive(Drop)]
pub struct Text {
    parts: TextParts,
}

/// The bytes of a text, and its tokens or why it has none.
#[derive(Drop)]
pub struct TextParts {
    pub bytes: Vec<u8>,
    pub tokens: Result<TokenBlocks, TextStop>,
}

impl Model for Text {
    ghost use Rattle.std.specs.Prelude.{ℕ, ◌≤◌, List, length};
    ghost use Rattle.um_syntax.specs.Feeding.{IsTextAnswer};

    ghost Value = { List ℕ };

    ghost view = { λ text. text.parts.bytes.items };

    ghost invariant = { λ text. (length text.parts.bytes.items ≤ 1048576)
        × IsTextAnswer text.parts.bytes.items text.parts.tokens };
}

impl Text {
    ghost use Rattle.std.specs.Prelude.{◌≡◌, ◌≤◌, length, IfOk};
    ghost use Rattle.um_syntax.specs.Feeding.{IsTextAnswer};

    /// The text with these parts.
    pub(crate) fn new(parts: TextParts) -> Text
        requires short { length parts.bytes.items ≤ 1048576 }
        requires tokens { IsTextAnswer parts.bytes.items parts.tokens }
        ensures { result ≡ parts.bytes.items }
    {
        Text { parts }
    }

    /// The text of these bytes, of which there are at most 1,048,576. Want of memory is the one error.
    pub fn of_bytes(alloc: Global, bytes: &[u8]) -> Result<Text, AllocError>
        requires { length bytes.now ≤ 1048576 }
        ensures { IfOk result (λ text. text ≡ bytes.now) }
    {
        let mut reading = Reading::new(alloc);
        reading.take(bytes)?;
        reading.into_text()
    }

    /// Its parts. Takes no memory.
    pub fn into_parts(self) -> TextParts
        ensures bytes { result.bytes.items ≡ self }
        ensures short { length self ≤ 1048576 }
        ensures tokens { IsTextAnswer self result.tokens }
    {
        self.parts
    }
}
