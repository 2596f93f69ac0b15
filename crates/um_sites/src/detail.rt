//! What is told of a fault.

ghost use Rattle.std.specs.Prelude.{◌≡◌};

use std::marker::Model;
use um_tree::{Name, Names};

/// What is told of a name's fault.
#[derive(Drop)]
pub enum NameDetail {
    /// A name that isn't known, whether it is a variable of a unit text, and the names of its space that are known
    /// there, in order of declaration
    Unknown {
        name: Name,
        quoted: bool,
        known: Names,
    },
    /// The name of a function that isn't `rec`, in its own body
    Own {
        name: Name,
    },
    /// The place of the earlier name
    Twice {
        earlier: Option<u32>,
    },
    /// How many arguments or units are expected and found
    Counts {
        expected: usize,
        found: usize,
    },
    /// The fields of a record text that are expected and found
    Fields {
        expected: Names,
        found: Names,
    },
    /// A hole in the type of a field
    FieldHole,
    /// A hole on a number that isn't 0
    NumberHole,
    /// A power past the range
    Powers,
}

/// What is told of a fault, in the order of the text; the first is printed.
#[derive(Drop)]
pub struct NameDetails {
    items: Vec<NameDetail>,
}

impl Model for NameDetails {
    ghost use Rattle.std.specs.Prelude.{List};
    ghost use Rattle.um_sites.specs.declared.detail.NameDetail.{NameDetail};

    ghost Value = { List NameDetail };

    ghost view = { λ details. details.items.items };
}

impl NameDetails {
    /// These details.
    pub fn from_vec(items: Vec<NameDetail>) -> NameDetails
        ensures { result ≡ items.items }
    {
        NameDetails { items }
    }

    /// The details.
    pub fn as_slice(&self) -> &[NameDetail]
        ensures { result.now ≡ self.now }
    {
        &self.items
    }
}
