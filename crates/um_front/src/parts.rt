// What the stages give.
use um_measures::Abbreviations;
use um_shape::Shaped;
use um_tree::{RawProgram, Schemes};

/// The bytes of a text, and its program as it is written.
#[derive(Drop)]
pub struct ReadText {
    pub bytes: Vec<u8>,
    pub raw: RawProgram,
}

impl ReadText {
    /// Gives its memory back. A crate that calls this has no proof of its own of how the trees are let go.
    pub fn discard(self) {
        let ReadText { bytes, raw } = self;
        drop(bytes);
        raw.discard();
    }
}

/// The bytes of a text. Its program as it is written isn't kept beside them: no answer after the names asks for it.
#[derive(Drop)]
pub struct SourceText {
    pub bytes: Vec<u8>,
}

/// A text, its program with a shape for each node, and its abbreviations.
#[derive(Drop)]
pub struct ShapedText {
    pub text: SourceText,
    pub shaped: Shaped,
    pub abbreviations: Abbreviations,
}

impl ShapedText {
    /// Gives its memory back. A crate that calls this has no proof of its own of how the trees are let go.
    pub fn discard(self) {
        let ShapedText {
            text,
            shaped,
            abbreviations,
        } = self;
        drop(text);
        shaped.discard();
        drop(abbreviations);
    }
}

/// The same, with the scheme of each function. [`crate::Checked`] keeps what is known of them.
#[derive(Drop)]
pub struct CheckedParts {
    pub text: ShapedText,
    pub schemes: Schemes,
}
