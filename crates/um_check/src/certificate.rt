//! Certificates.

ghost use Rattle.std.specs.Prelude.{◌≡◌};

use std::marker::Model;
use um_units::Units;

/// A row by its number, counted from 0, and the power to which it is taken.
#[derive(Clone, Copy)]
pub struct Part {
    pub row: u32,
    pub times: i64,
}

/// Some parts, in order: the product of their rows to their powers.
#[derive(Drop)]
pub struct Parts {
    items: Vec<Part>,
}

impl Model for Parts {
    ghost use Rattle.std.specs.Prelude.{List};
    ghost use Rattle.std.specs.Coded.{coded_list};
    ghost use Rattle.um_check.specs.declared.certificate.Part.{Part};
    ghost use Rattle.um_check.specs.PartCode.{part_code};

    ghost Value = { List Part };

    ghost coded = { coded_list part_code };

    ghost view = { λ parts. parts.items.items };
}

impl Parts {
    /// The list of the parts. Takes no memory.
    pub fn from_vec(items: Vec<Part>) -> Parts
        ensures items { result ≡ items.items }
    {
        Parts { items }
    }

    /// The parts, in order. Takes no memory.
    pub fn as_slice(&self) -> &[Part]
        ensures items { result.now ≡ self.now }
    {
        &self.items
    }
}

/// A list of parts for each slot.
#[derive(Drop)]
pub struct PartLists {
    items: Vec<Parts>,
}

impl Model for PartLists {
    ghost use Rattle.std.specs.Prelude.{List};
    ghost use Rattle.std.specs.Coded.{coded_list};
    ghost use Rattle.um_check.specs.declared.certificate.Part.{Part};
    ghost use Rattle.um_check.specs.PartCode.{part_code};

    ghost Value = { List (List Part) };

    ghost coded = { coded_list (coded_list part_code) };

    ghost view = { λ lists. lists.items.items };
}

impl PartLists {
    /// The list of the lists. Takes no memory.
    pub fn from_vec(items: Vec<Parts>) -> PartLists
        ensures items { result ≡ items.items }
    {
        PartLists { items }
    }

    /// The lists, in order. Takes no memory.
    pub fn as_slice(&self) -> &[Parts]
        ensures items { result.now ≡ self.now }
    {
        &self.items
    }
}

/// That a scheme's instances are exactly what the joint solutions of a function's rows give.
#[derive(Drop)]
pub struct Yes {
    /// How many variables the solution is over
    pub vars: u32,
    /// A most general solution: a unit for each slot, over variables
    pub solution: Units,
    /// What is put for each of these variables to come back: a unit for each, over slots
    pub back: Units,
    pub divisor: i64,
    /// For each slot the rows by which it comes back, up to the power `divisor`
    pub parts: PartLists,
    /// If there are unit parameters, a joint solution in which each is a unit of its own; otherwise nothing
    pub rigid: Units,
}

/// That a function's rows up to one have no joint solution, or none in which each unit parameter is a unit of its own.
#[derive(Drop)]
pub struct No {
    /// Whether unit parameters are slots like the others
    pub loose: bool,
    /// The number of the last row that is needed, counted from 0
    pub last: u32,
    /// The number that divides each slot's power in the product of the rows, and not each base unit's
    pub modulus: i64,
    pub parts: Parts,
}
