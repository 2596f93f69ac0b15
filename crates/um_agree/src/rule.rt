//! Who asks two types to be equal.

/// A typing rule that asks two types to be equal.
#[derive(Clone, Copy)]
pub enum Rule {
    /// The two sides of `+`.
    Sum,
    /// The two sides of `-`.
    Difference,
    /// The two sides of a comparison.
    Comparison,
    /// The two branches of `if`.
    Branches,
    /// The two arms of `match`.
    Arms,
    /// The first item of a list and the item of this number, counted from 1.
    Item(usize),
    /// The head of a list and the items of its tail.
    Head,
    /// A parameter of the function of the first number and the argument of the second, counted from 1.
    Argument(u32, usize),
    /// The declared type of a field of the record of the first number and the part. The second number is the field's,
    /// counted from 0.
    Part(u32, usize),
    /// The body and the note of the function's result.
    ResultNote,
}
