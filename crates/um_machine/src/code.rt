//! The code of a program.
ghost use Rattle.std.specs.Prelude.{◌≡◌};

use crate::op::Op;
use std::marker::Model;

/// Some instructions, in order.
#[derive(Drop)]
pub struct Ops {
    items: Vec<Op>,
}

impl Model for Ops {
    ghost use Rattle.std.specs.Prelude.{List};
    ghost use Rattle.um_machine.specs.declared.op.Op.{Op};

    ghost Value = { List Op };

    ghost view = { λ ops. ops.items.items };
}

impl Ops {
    /// The instructions that the vector holds. Takes no memory.
    pub fn from_vec(items: Vec<Op>) -> Ops
        ensures { result ≡ items.items }
    {
        Ops { items }
    }

    /// The vector that holds the instructions. Takes no memory.
    pub fn into_vec(self) -> Vec<Op>
        ensures { result.items ≡ self }
    {
        self.items
    }

    /// The instructions, by their addresses.
    pub fn as_slice(&self) -> &[Op]
        ensures { result.now ≡ self.now }
    {
        &self.items
    }
}

/// Where the instructions of a function stand, and how many parameters it takes.
#[derive(Clone, Copy)]
pub struct Entry {
    /// The address of its first instruction
    pub start: u32,
    /// The address after its last one
    pub end: u32,
    pub params: u32,
}

/// The entries of some functions, in order.
#[derive(Drop)]
pub struct Entries {
    items: Vec<Entry>,
}

impl Model for Entries {
    ghost use Rattle.std.specs.Prelude.{List};
    ghost use Rattle.um_machine.specs.declared.code.Entry.{Entry};

    ghost Value = { List Entry };

    ghost view = { λ entries. entries.items.items };
}

impl Entries {
    /// The entries that the vector holds. Takes no memory.
    pub fn from_vec(items: Vec<Entry>) -> Entries
        ensures { result ≡ items.items }
    {
        Entries { items }
    }

    /// The vector that holds the entries. Takes no memory.
    pub fn into_vec(self) -> Vec<Entry>
        ensures { result.items ≡ self }
    {
        self.items
    }

    /// The entries, by the numbers of their functions.
    pub fn as_slice(&self) -> &[Entry]
        ensures { result.now ≡ self.now }
    {
        &self.items
    }
}

/// The code of a program: its instructions, and where each function stands among them.
#[derive(Drop)]
pub struct Code {
    pub ops: Ops,
    pub entries: Entries,
}
