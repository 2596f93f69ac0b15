//! The certificates of a program.

use um_check::{No, Yes};
use um_tree::Schemes;

/// Some certificates of schemes, in order.
#[derive(Drop)]
pub struct YesList {
    pub items: Vec<Yes>,
}

/// The schemes of a program's functions and a certificate for each, up to the first function that has no scheme, and
/// the certificate that it has none.
#[derive(Drop)]
pub struct Proofs {
    pub schemes: Schemes,
    pub yes: YesList,
    pub no: Option<No>,
}
