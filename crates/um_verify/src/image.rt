//! Code images: a program without its units and trees.
use um_machine::Code;
use um_tree::{Name, Records, Shape};

/// Some shapes, in order.
#[derive(Drop)]
pub struct Shapes {
    pub items: Vec<Shape>,
}

/// What is known of a function before its code: its name, the shapes of its parameters and that of its result.
#[derive(Drop)]
pub struct Head {
    pub name: Name,
    pub params: Shapes,
    pub result: Shape,
}

/// Some heads, in order.
#[derive(Drop)]
pub struct Heads {
    pub items: Vec<Head>,
}

/// A code image: records whose place is 0, which take no units and whose numbers have unit 1, the heads of functions,
/// and code with one entry for each head.
#[derive(Drop)]
pub struct Image {
    pub records: Records,
    pub heads: Heads,
    pub code: Code,
}
