// Value texts as they are read, before names are looked up.
use um_frac::Frac;
use um_tree::RawNote;

/// A value text.
#[cycle(raw_value)]
#[derive(Drop)]
pub(crate) enum RawValue {
    Bool(bool),
    /// A number: its place, whether `-` stands before it, its digits, and what stands between `<` and `>`, if anything
    Num(u32, bool, Frac, Option<RawNote>),
    List(RawValues),
    /// The record of this number, field by field
    Rec(u32, RawValues),
}

/// Some value texts, in order.
#[cycle(raw_value)]
#[derive(Drop)]
pub(crate) struct RawValues {
    pub items: Vec<RawValue>,
}
