//! Stacks by their numbers.
ghost use Rattle.std.specs.Prelude.{◌≡◌, ◌<◌, ◌≤◌, ◌+◌, ◌^◌, ◌++◌, ◌∷◌, [], length, take, drop, slice_get};
ghost use Rattle.std.specs.Prelude.{IfOk, OnOk, MatchOption, option_map};
ghost use Rattle.std.specs.Bool.{MatchBool};
ghost use Rattle.um_verify.specs.StackShape.{join_items};
ghost use Rattle.um_stacks.specs.Stacks.{stack_at, shapes_at, Grows, IsPassed, IsNodeOf, IsJoinOf, join_both};
ghost use Rattle.um_stacks.specs.FlatShapes.{flat_shape, flat_shapes};

use crate::flat::{FlatShape, Item};
use std::alloc::{AllocError, Global};
use std::collections::BTreeMap;
use std::marker::Model;

/// The number of the empty stack.
pub const EMPTY: u32 = 0;

/// A step down a stack: the number of the lower part to which it goes, and the join of the shapes that it passes, if
/// they have one.
#[derive(Clone, Copy)]
struct Step {
    to: u32,
    passed: Option<FlatShape>,
}

/// A stack that isn't empty: its top, the number of the stack below the top, its height, and the step of a search.
#[derive(Clone, Copy)]
struct Node {
    top: FlatShape,
    below: u32,
    height: u32,
    jump: Step,
}

/// A join that was made: of two stacks, by their numbers. Nothing if they have none.
#[derive(Clone, Copy)]
struct KeptJoin {
    one: u32,
    other: u32,
    join: Option<u32>,
}

/// Stacks of shapes, by their numbers: number 0 is the empty stack. Contracts see the list of all stacks. A number that
/// no stack has stands for the empty one too.
#[derive(Drop)]
pub struct Stacks {
    nodes: Vec<Node>,
    joins: Vec<KeptJoin>,
    /// Where the join of two stacks may stand in `joins`.
    places: BTreeMap<(u32, u32), u32>,
}

impl Model for Stacks {
    ghost use Rattle.std.specs.Prelude.{List};
    ghost use Rattle.std.specs.Coded.{coded_list};
    ghost use Rattle.um_stacks.specs.declared.flat.FlatShape.{FlatShape};
    ghost use Rattle.um_stacks.specs.contracts.flat.FlatShape.{the_row};

    ghost Value = { List (List FlatShape) };

    ghost coded = { coded_list (coded_list the_row.coded) };

    ghost use Rattle.um_stacks.specs.Stacks.{stacks_of, AreNodes, AreKept};

    ghost view = { λ stacks. stacks_of stacks.nodes.items };

    ghost invariant = { λ stacks. AreNodes stacks.nodes.items × AreKept (stacks_of stacks.nodes.items)
        stacks.joins.items };
}

/// Whether the shapes are the same.
fn are_same(a: FlatShape, b: FlatShape) -> bool
    ensures { MatchBool result (flat_shape a ≡ flat_shape b) (0 ≤ a.lists) }
{
    if !a.fits(b) {
        return false;
    }
    b.fits(a)
}

/// The join of the shapes of two lists, from the joins of each.
fn joined(first: Option<FlatShape>, second: Option<FlatShape>) -> Option<FlatShape>
    ensures { option_map flat_shape result ≡ join_both (option_map flat_shape first) (option_map flat_shape second) }
{
    match first {
        None => None,
        Some(x) => match second {
            None => None,
            Some(y) => x.join(y),
        },
    }
}

impl Stacks {
    /// The empty stack alone. Takes no memory.
    pub fn new(alloc: Global) -> Stacks
        ensures { result ≡ [] ∷ [] }
    {
        Stacks {
            nodes: Vec::new(alloc),
            joins: Vec::new(alloc),
            places: BTreeMap::new(alloc),
        }
    }

    /// How many stacks there are.
    fn count(&self) -> usize
        ensures count { result ≡ length self.now }
        ensures some { 0 < result }
        ensures few { result ≤ 2 ^ 32 }
        ensures first { stack_at self.now 0 ≡ [] }
    {
        self.nodes.len() + 1
    }

    /// The node of a stack, if it isn't empty.
    fn node(&self, stack: u32) -> Option<Node>
        ensures { MatchOption result (stack_at self.now stack ≡ []) (IsNodeOf self.now stack) }
    {
        let count = self.nodes.len();
        if stack == EMPTY {
            return None;
        }
        let place = stack as usize - 1;
        if count <= place {
            return None;
        }
        Some(self.nodes[place])
    }

    /// How many shapes the stack has.
    pub fn height(&self, stack: u32) -> u32
        ensures height { result ≡ length (stack_at self.now stack) }
        ensures few { result ≤ stack }
    {
        match self.node(stack) {
            None => 0,
            Some(node) => node.height,
        }
    }

    /// The shape on the top and the number of the stack below it, if the stack isn't empty.
    pub fn pop(&self, stack: u32) -> Option<(FlatShape, u32)>
        ensures { MatchOption result (stack_at self.now stack ≡ [])
            (λ p. stack_at self.now stack ≡ stack_at self.now p.1 ++ p.0 ∷ []) }
    {
        match self.node(stack) {
            None => None,
            Some(node) => Some((node.top, node.below)),
        }
    }

    /// The two shapes on the top, the deeper first, and the number of the stack below them, if there are two.
    pub fn pop_two(&self, stack: u32) -> Option<(FlatShape, FlatShape, u32)>
        ensures { MatchOption result (length (stack_at self.now stack) < 2)
            (λ p. stack_at self.now stack ≡ stack_at self.now p.2 ++ p.0 ∷ p.1 ∷ []) }
    {
        match self.pop(stack) {
            None => None,
            Some((y, upper)) => match self.pop(upper) {
                None => None,
                Some((x, low)) => Some((x, y, low)),
            },
        }
    }

    /// A step to a lower part of a stack that is at least so high.
    fn step_down(&self, stack: u32, height: u32) -> Step
        requires { height < length (stack_at self.now stack) }
        ensures lower { result.to < stack }
        ensures high { height ≤ length (stack_at self.now result.to) }
        ensures passed { IsPassed (stack_at self.now result.to) (stack_at self.now stack) result.passed }
    {
        match self.node(stack) {
            None => Step {
                to: EMPTY,
                passed: None,
            },
            Some(node) => {
                if self.height(node.jump.to) >= height {
                    node.jump
                } else {
                    Step {
                        to: node.below,
                        passed: Some(node.top),
                    }
                }
            }
        }
    }

    /// The lower part of a stack that has this height, or the whole stack if it isn't higher. It takes time logarithmic
    /// in the height.
    pub fn lower(&self, stack: u32, height: u32) -> u32
        ensures part { stack_at self.now result ≡ take height (stack_at self.now stack) }
        ensures number { result ≤ stack }
    {
        let mut low = stack;
        while self.height(low) > height {
            low = self.step_down(low, height).to;
        }
        low
    }

    /// The join of the shapes from this place up to the top, if they have one: the shape of the items of a list of
    /// them. It takes time logarithmic in the height.
    pub fn joined_items(&self, stack: u32, place: u32) -> Option<FlatShape>
        requires { place ≤ length (stack_at self.now stack) }
        ensures { option_map flat_shape result ≡ join_items (flat_shapes (drop place (stack_at self.now stack))) }
    {
        let mut items = Some(FlatShape::of(Item::Void));
        let mut low = stack;
        while self.height(low) > place {
            let step = self.step_down(low, place);
            items = joined(step.passed, items);
            low = step.to;
        }
        items
    }

    /// The shape at a place, counted from 0 at the bottom, if there is one. It takes time logarithmic in the height.
    pub fn at(&self, stack: u32, place: u32) -> Option<FlatShape>
        ensures { result ≡ slice_get (stack_at self.now stack) place }
    {
        if self.height(stack) <= place {
            return None;
        }
        match self.pop(self.lower(stack, place + 1)) {
            None => None,
            Some((shape, _)) => Some(shape),
        }
    }

    /// The number itself if a stack has it, and otherwise that of the empty stack.
    pub fn known(&self, stack: u32) -> u32
        ensures number { result < length self.now }
        ensures stack { stack_at self.now result ≡ stack_at self.now stack }
    {
        if (stack as usize) < self.count() {
            stack
        } else {
            EMPTY
        }
    }

    /// The step of a search.
    fn jump(&self, stack: u32) -> Step
        requires { stack < length self.now }
        ensures number { result.to < length self.now }
        ensures passed { IsPassed (stack_at self.now result.to) (stack_at self.now stack) result.passed }
    {
        match self.node(stack) {
            None => Step {
                to: stack,
                passed: Some(FlatShape::of(Item::Void)),
            },
            Some(node) => node.jump,
        }
    }

    /// The jump of the stack with this top above this one. Jumps pass over 1, 3, 7, 15, .. shapes: over as
    /// many as two equal jumps below and the top together.
    fn jump_above(&self, below: u32, top: FlatShape) -> Step
        requires { below < length self.now }
        ensures number { result.to < length self.now }
        ensures passed { IsPassed (stack_at self.now result.to) (stack_at self.now below ++ top ∷ []) result.passed }
    {
        let first = self.jump(below);
        let second = self.jump(first.to);
        let middle = self.height(first.to) as u64;
        if self.height(below) as u64 + self.height(second.to) as u64 == middle + middle {
            let upper = joined(first.passed, Some(top));
            Step {
                to: second.to,
                passed: joined(second.passed, upper),
            }
        } else {
            Step {
                to: below,
                passed: Some(top),
            }
        }
    }

    /// The number of the stack with one more shape on its top. It takes the same time for each stack. Fails for want of
    /// memory alone, or if there are 2^32 stacks.
    pub fn push(&mut self, stack: u32, shape: FlatShape) -> Result<u32, AllocError>
        ensures number { IfOk result (λ number. number < length self.new) }
        ensures stack { IfOk result (λ number. stack_at self.new number ≡ stack_at self.old stack ++ shape ∷ []) }
        ensures grows { OnOk result (Grows self.old self.new) }
    {
        if self.count() > u32::MAX as usize {
            return Err(AllocError);
        }
        let node = self.node_above(self.known(stack), shape);
        self.add(node)
    }

    /// The node of one more stack.
    fn node_above(&self, below: u32, top: FlatShape) -> Node
        requires below { below < length self.now }
        requires few { length self.now < 2 ^ 32 }
        ensures below { result.below ≡ below }
        ensures top { result.top ≡ top }
        ensures node { IsNodeOf (self.now ++ (stack_at self.now below ++ top ∷ []) ∷ []) (length self.now) result }
    {
        Node {
            top,
            below,
            height: self.height(below) + 1,
            jump: self.jump_above(below, top),
        }
    }

    fn add(&mut self, node: Node) -> Result<u32, AllocError>
        requires few { length self.old < 2 ^ 32 }
        requires node { IsNodeOf (self.old ++ (stack_at self.old node.below ++ node.top ∷ []) ∷ []) (length self.old)
            node }
        ensures number { IfOk result (λ number. number ≡ length self.old) }
        ensures stacks { OnOk result (self.new ≡ self.old ++ (stack_at self.old node.below ++ node.top ∷ []) ∷ []) }
    {
        self.nodes.push(node)?;
        Ok(self.nodes.len() as u32)
    }

    /// Whether the stack has this top above this lower part.
    pub(crate) fn is_push(&self, stack: u32, below: u32, top: FlatShape) -> bool
        ensures number { MatchBool result (stack < length self.now) (0 ≤ stack) }
        ensures stack { MatchBool result (shapes_at self.now stack ≡ shapes_at self.now below ++ flat_shape top ∷ [])
            (0 ≤ stack) }
    {
        match self.node(stack) {
            None => false,
            Some(node) => {
                if node.below != below {
                    return false;
                }
                are_same(node.top, top)
            }
        }
    }

    /// The join of two stacks, if it was kept: its number, or that there is none.
    pub(crate) fn kept_join(&self, one: u32, other: u32) -> Option<Option<u32>>
        ensures { MatchOption result (0 ≤ one) (IsJoinOf self.now one other) }
    {
        let place = match self.places.get(&(one, other)) {
            None => return None,
            Some(place) => *place as usize,
        };
        if self.joins.len() <= place {
            return None;
        }
        let kept = self.joins[place];
        if kept.one == one && kept.other == other {
            Some(kept.join)
        } else {
            None
        }
    }

    /// Keeps a join, if the two numbers are those of stacks.
    pub(crate) fn keep_join(
        &mut self,
        one: u32,
        other: u32,
        join: Option<u32>,
    ) -> Result<(), AllocError>
        requires { IsJoinOf self.old one other join }
        ensures { OnOk result (self.new ≡ self.old) }
    {
        let count = self.nodes.len();
        if count < one as usize || count < other as usize {
            return Ok(());
        }
        let place = self.joins.len();
        if place >= u32::MAX as usize {
            return Ok(());
        }
        self.joins.push(KeptJoin { one, other, join })?;
        self.places.insert((one, other), place as u32)?;
        Ok(())
    }
}
