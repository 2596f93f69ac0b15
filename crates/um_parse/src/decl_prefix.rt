// What is expected of a declaration up to its name.

/// The token that is expected before the name of a declaration, if no name may stand there.
#[derive(Clone, Copy)]
pub(crate) enum FixedToken {
    /// Nothing was read; after `[<`; `Measure`; `>`; `]`
    Begin,
    Word,
    Greater,
    Close,
    Type,
}

/// What is expected of a declaration up to its name.
#[derive(Clone, Copy)]
pub(crate) enum DeclExpected {
    Token(FixedToken),
    /// A name: that of a measure; of a record; of a function after `let`, where `rec` may stand; after `rec`
    BaseName,
    RecordName,
    LetName,
    RecName,
}
