// Signatures.
use um_tree::Types;

/// The types that a function is held to: the parameters', and last the result's. They hold for all units in place of
/// the variables below `vars`.
#[derive(Drop)]
pub struct Signature {
    pub types: Types,
    pub vars: u32,
}
