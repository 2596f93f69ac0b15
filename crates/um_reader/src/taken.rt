// What a token gives.

/// What a reader answers to a token.
#[derive(Clone, Copy)]
pub enum Taken {
    /// The tokens through it begin a text within the height, and the reader goes on.
    Goes,
    /// They begin no text. The reader can still be finished, as before the token.
    Stops,
    /// They begin texts, but none within the height.
    High,
}
