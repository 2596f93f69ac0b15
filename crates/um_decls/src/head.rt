// The head of a record or a function: what was read of it up to its fields or parameters.
ghost use Rattle.std.specs.Prelude.{◌≡◌};

use std::alloc::Global;
use um_tree::{Name, RawVars};

/// The name of a record or a function, at its place, and the unit parameters that were read.
#[derive(Drop)]
pub struct Head {
    pub at: u32,
    pub name: Name,
    pub vars: RawVars,
}

impl Head {
    ghost use Rattle.std.specs.Prelude.{[]};
    ghost use Rattle.um_decls.specs.DeclViews.{head_vars};

    /// No unit parameters were read.
    pub fn plain(alloc: Global, at: u32, name: Name) -> Head
        ensures at { result.at ≡ at }
        ensures name { result.name ≡ name }
        ensures vars { head_vars result ≡ [] }
    {
        let vars = RawVars {
            items: Vec::new(alloc),
        };
        Head { at, name, vars }
    }
}
