//! Agreements as a walk over a body finds them.

ghost use Rattle.std.specs.Prelude.{◌≡◌, ◌++◌, ◌+◌, ◌<◌, ◌^◌, IfOk, OnOk};
ghost use Rattle.um_agree.specs.Asked.{asked_by, asked_parts, rule_each, first_each};

use crate::rule::Rule;
use std::alloc::AllocError;

/// An agreement, and the node at which one of its two types stands. The nodes of a body are numbered from 0, each after
/// its parts.
///
/// At the node of a result's note stands the first type, and at each other one the second. At that of a list with a new
/// head stands the list, of whose items the agreement speaks.
#[derive(Clone, Copy)]
pub struct Asked {
    pub rule: Rule,
    pub at: u32,
    pub node: usize,
}

/// The agreements so far, and how many nodes there were.
#[derive(Drop)]
pub(crate) struct Found {
    pub(crate) nodes: usize,
    pub(crate) asked: Vec<Asked>,
}

/// Who asks for an agreement of each part of a node.
#[derive(Clone, Copy)]
pub(crate) enum Each {
    /// A call of this function.
    Argument(u32),
    /// A list.
    Item,
    /// A value of this record.
    Part(u32),
}

impl Each {
    /// The rule of the part of this number, counted from 0.
    fn rule(self, k: usize) -> Rule
        requires { k + 1 < 2 ^ 64 }
        ensures { result ≡ rule_each self k }
    {
        match self {
            Each::Argument(j) => Rule::Argument(j, k + 1),
            Each::Item => Rule::Item(k + 1),
            Each::Part(r) => Rule::Part(r, k),
        }
    }

    /// The first part that is asked for: the first item of a list is the one that the others are compared with.
    fn first(self) -> usize
        ensures { result ≡ first_each self }
    {
        match self {
            Each::Argument(_) | Each::Part(_) => 0,
            Each::Item => 1,
        }
    }
}

impl Found {
    /// Counts a node. The answer is its number.
    pub(crate) fn count_node(&mut self) -> Result<usize, AllocError>
        ensures number { IfOk result (λ n. n ≡ self.old.nodes) }
        ensures nodes { IfOk result (λ _. self.new.nodes ≡ self.old.nodes + 1) }
        ensures asked { self.new.asked.items ≡ self.old.asked.items }
    {
        if self.nodes == usize::MAX {
            return Err(AllocError);
        }
        let number = self.nodes;
        self.nodes += 1;
        Ok(number)
    }

    /// Adds an agreement of the node at the place, if a rule asks for one.
    pub(crate) fn push(
        &mut self,
        rule: Option<Rule>,
        at: u32,
        node: usize,
    ) -> Result<(), AllocError>
        ensures asked { OnOk result (self.new.asked.items ≡ self.old.asked.items ++ asked_by rule at node) }
        ensures nodes { self.new.nodes ≡ self.old.nodes }
    {
        match rule {
            Some(rule) => self.asked.push(Asked { rule, at, node })?,
            None => {}
        }
        Ok(())
    }

    /// Adds an agreement of each part whose own node has the number in the list.
    pub(crate) fn push_each(
        &mut self,
        each: Each,
        at: u32,
        ends: &[usize],
    ) -> Result<(), AllocError>
        ensures asked { OnOk result (self.new.asked.items ≡ self.old.asked.items ++ asked_parts each at ends.now) }
        ensures nodes { self.new.nodes ≡ self.old.nodes }
    {
        for k in each.first()..ends.len() {
            self.push(Some(each.rule(k)), at, ends[k])?;
        }
        Ok(())
    }
}
