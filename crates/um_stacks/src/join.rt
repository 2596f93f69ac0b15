//! Joins of stacks.
ghost use Rattle.std.specs.Prelude.{◌≡◌, ◌<◌, ◌≤◌, ◌+◌, ◌++◌, ◌∷◌, [], length, option_map, IfOk, OnOk, MatchOption};
ghost use Rattle.std.specs.Prelude.{Some, None};
ghost use Rattle.um_verify.specs.StackShape.{join_all};
ghost use Rattle.um_stacks.specs.FlatShapes.{flat_shape, flat_shapes};
ghost use Rattle.um_stacks.specs.Stacks.{stack_at, shapes_at, Grows, IsPartOf, tops_of, IsJoinOf};
ghost use Rattle.um_stacks.specs.Stacks.{ClashUpTo, IsShared};

use crate::flat::FlatShape;
use crate::stacks::Stacks;
use std::alloc::{AllocError, Global};

/// Joins are kept of stacks whose height is a multiple of this, if the way down was so long.
const STRIDE: u32 = 16;

/// The join of two tops, and the numbers of what lies below them.
#[derive(Clone, Copy)]
struct Tops {
    join: FlatShape,
    one: u32,
    other: u32,
}

/// Two stacks on the way down, and the join of their tops.
#[derive(Clone, Copy)]
struct Passed {
    one: u32,
    other: u32,
    join: FlatShape,
}

/// Where the way down two stacks ends.
#[derive(Clone, Copy)]
enum Shared {
    /// At two stacks whose join has this number
    Join(u32),
    /// At two stacks of this height that have no join
    Clash(u32),
}

impl Stacks {
    /// The number of the join of two stacks: at each place the least shape that both fit. Nothing if they aren't
    /// equally high, or if a place has no such shape. It takes a step for each place above what the stacks share, and
    /// less if they, or lower parts of them, were joined before. Fails for want of memory alone, or if there are 2^32
    /// stacks. See X. Leroy, Java bytecode verification: algorithms and formalizations, 2003.
    pub fn join(&mut self, alloc: Global, one: u32, other: u32) -> Result<Option<u32>, AllocError>
        ensures join { IfOk result (λ join. MatchOption join (None ≡ join_all (shapes_at self.old one)
            (shapes_at self.old other)) (λ k. Some (shapes_at self.new k) ≡ join_all (shapes_at self.old one)
            (shapes_at self.old other))) }
        ensures number { IfOk result (λ join. MatchOption join (0 < length self.new) (λ k. k < length self.new)) }
        ensures grows { OnOk result (Grows self.old self.new) }
    {
        let first = self.known(one);
        let second = self.known(other);
        self.join_known(alloc, first, second)
    }

    fn join_known(&mut self, alloc: Global, one: u32, other: u32) -> Result<Option<u32>, AllocError>
        requires one { one < length self.old }
        requires other { other < length self.old }
        ensures join { IfOk result (λ join. MatchOption join (None ≡ join_all (shapes_at self.old one)
            (shapes_at self.old other)) (λ k. Some (shapes_at self.new k) ≡ join_all (shapes_at self.old one)
            (shapes_at self.old other))) }
        ensures number { IfOk result (λ join. MatchOption join (0 < length self.new) (λ k. k < length self.new)) }
        ensures grows { OnOk result (Grows self.old self.new) }
    {
        if self.height(one) != self.height(other) {
            return Ok(None);
        }
        let mut passed = Vec::new(alloc);
        match self.shared(one, other, &mut passed)? {
            Shared::Clash(height) => {
                self.keep_clashes(one, other, height)?;
                Ok(None)
            }
            Shared::Join(low) => {
                let from = self.height(low);
                let join = self.push_all(low, passed)?;
                self.keep_joins(one, other, join, from)?;
                Ok(Some(join))
            }
        }
    }

    /// The join of the tops of two stacks, if they have one.
    fn joined_tops(&self, one: u32, other: u32) -> Option<Tops>
        requires height { 0 < length (stack_at self.now one) }
        requires equal { length (stack_at self.now one) ≡ length (stack_at self.now other) }
        ensures join { MatchOption result (None ≡ join_all (shapes_at self.now one) (shapes_at self.now other)) (λ tops.
            join_all (shapes_at self.now one) (shapes_at self.now other) ≡ option_map (λ us. us ++ flat_shape tops.join
            ∷ []) (join_all (shapes_at self.now tops.one) (shapes_at self.now tops.other))) }
        ensures lower { MatchOption result (0 < length (stack_at self.now one)) (λ tops.
            length (stack_at self.now tops.one) < length (stack_at self.now one)) }
        ensures equal { MatchOption result (0 < length (stack_at self.now one)) (λ tops.
            length (stack_at self.now tops.one) ≡ length (stack_at self.now tops.other)) }
        ensures part { MatchOption result (0 < length (stack_at self.now one)) (λ tops.
            IsPartOf (stack_at self.now tops.one) (stack_at self.now one)) }
        ensures other_part { MatchOption result (0 < length (stack_at self.now one)) (λ tops.
            IsPartOf (stack_at self.now tops.other) (stack_at self.now other)) }
    {
        match self.pop(one) {
            None => None,
            Some((x, low)) => match self.pop(other) {
                None => None,
                Some((y, under)) => match x.join(y) {
                    None => None,
                    Some(join) => Some(Tops {
                        join,
                        one: low,
                        other: under,
                    }),
                },
            },
        }
    }

    /// The join of two stacks, if it was kept. It is looked for at some heights alone.
    fn join_at_stride(&self, one: u32, other: u32) -> Option<Option<u32>>
        ensures { MatchOption result (0 ≤ one) (IsJoinOf self.now one other) }
    {
        if self.height(one) % STRIDE == 0 {
            self.kept_join(one, other)
        } else {
            None
        }
    }

    /// Goes down two stacks that are equally high to what they share, to a join that was kept, or to two tops that
    /// have no join, and keeps the joins of the tops that are passed.
    fn shared(&self, one: u32, other: u32, passed: &mut Vec<Passed>) -> Result<Shared, AllocError>
        requires equal { length (stack_at self.now one) ≡ length (stack_at self.now other) }
        requires none { passed.old.items ≡ [] }
        ensures { IfOk result (λ shared. IsShared self.now one other passed.new.items shared) }
    {
        let mut low = one;
        let mut under = other;
        while low != under && self.height(low) > 0 {
            match self.join_at_stride(low, under) {
                Some(Some(join)) => return Ok(Shared::Join(join)),
                Some(None) => return Ok(Shared::Clash(self.height(low))),
                None => match self.joined_tops(low, under) {
                    None => return Ok(Shared::Clash(self.height(low))),
                    Some(tops) => {
                        passed.push(Passed {
                            one: low,
                            other: under,
                            join: tops.join,
                        })?;
                        low = tops.one;
                        under = tops.other;
                    }
                },
            }
        }
        Ok(Shared::Join(low))
    }

    /// The stack with the joins of these tops on it, the last of them first.
    fn push_all(&mut self, low: u32, mut passed: Vec<Passed>) -> Result<u32, AllocError>
        ensures number { IfOk result (λ number. number < length self.new) }
        ensures stack { IfOk result (λ number. shapes_at self.new number ≡ shapes_at self.old low ++ tops_of
            passed.items) }
        ensures grows { OnOk result (Grows self.old self.new) }
    {
        let mut stack = self.known(low);
        while let Some(last) = passed.pop() {
            stack = self.push_join(stack, last)?;
        }
        Ok(stack)
    }

    /// The stack with the join of two tops on it: one of the two stacks itself, if it is that.
    fn push_join(&mut self, below: u32, passed: Passed) -> Result<u32, AllocError>
        ensures number { IfOk result (λ number. number < length self.new) }
        ensures stack { IfOk result (λ number. shapes_at self.new number ≡ shapes_at self.old below ++
            flat_shape passed.join ∷ []) }
        ensures grows { OnOk result (Grows self.old self.new) }
    {
        if self.is_push(passed.one, below, passed.join) {
            return Ok(passed.one);
        }
        if self.is_push(passed.other, below, passed.join) {
            return Ok(passed.other);
        }
        self.push(below, passed.join)
    }

    /// Keeps the join of two stacks and those of their lower parts down to this height.
    fn keep_joins(&mut self, one: u32, other: u32, join: u32, from: u32) -> Result<(), AllocError>
        requires number { join < length self.old }
        requires join { Some (shapes_at self.old join) ≡ join_all (shapes_at self.old one) (shapes_at self.old other) }
        ensures { OnOk result (self.new ≡ self.old) }
    {
        let top = self.height(join);
        let mut height = top - top % STRIDE;
        while height > from {
            let low = self.lower(one, height);
            let under = self.lower(other, height);
            let part = self.lower(join, height);
            self.keep_join(low, under, Some(part))?;
            height = height.saturating_sub(STRIDE);
        }
        Ok(())
    }

    /// Keeps that the parts of two stacks from this height on have no join.
    fn keep_clashes(&mut self, one: u32, other: u32, from: u32) -> Result<(), AllocError>
        requires { ClashUpTo self.old one other from }
        ensures { OnOk result (self.new ≡ self.old) }
    {
        let top = self.height(one);
        let mut height = top - top % STRIDE;
        while height > from {
            let low = self.lower(one, height);
            let under = self.lower(other, height);
            self.keep_join(low, under, None)?;
            height = height.saturating_sub(STRIDE);
        }
        Ok(())
    }
}
