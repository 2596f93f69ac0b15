//! What is told of a function whose units disagree.

use um_agree::Rule;
use um_tree::Name;
use um_units::Unit;

/// An agreement that is told: who asks for it, at which place, and the texts of its two types.
#[derive(Drop)]
pub struct Told {
    pub rule: Rule,
    pub at: u32,
    pub first: Name,
    pub second: Name,
}

/// Why the units of a function disagree.
#[derive(Drop)]
pub enum UnitReason {
    /// The agreement that fails, and then those that force it to fail. The first type of the one that fails, times the
    /// factor, is the second, if the units differ by a closed unit. More agreements may force it if it was cut off.
    Told {
        told: Vec<Told>,
        factor: Option<Unit>,
        cut_off: bool,
    },
    /// A power is out of range.
    OutOfRange,
}
