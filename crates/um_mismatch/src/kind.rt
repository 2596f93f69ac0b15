//! Kinds of parts.

/// The kind of part that must stand somewhere.
#[derive(Clone, Copy)]
pub(crate) enum Kind {
    Number,
    Truth,
    List,
    /// The note of an empty list
    EmptyList,
    /// A value of the record of this number, of which a field is taken
    Record(u32),
}
