//! Where a call stops.
use um_frac::Frac;

/// The numbers on which an operation has no result.
#[derive(Clone, Copy)]
pub enum Operands {
    /// No operation but the end of the budget
    None,
    /// The base of a whole power
    One(Frac),
    /// The left and the right side of a sum, difference, product or quotient
    Two(Frac, Frac),
}

/// A node of a program.
#[derive(Clone, Copy)]
pub struct Spot {
    /// The number of the function in whose body it stands
    pub function: u32,
    /// The byte offset of its place in the text
    pub at: u32,
}

/// Where a call stops: the node that has no value, its operands, and the calls that are open there.
#[derive(Drop)]
pub struct Path {
    pub operands: Operands,
    /// The node first, and then the calls, the innermost first. The command's own call is none of them
    pub spots: Vec<Spot>,
}
