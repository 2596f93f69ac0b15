//! The operations on one word.
ghost use Rattle.um_tree.specs.ValueTree.{ValueTree};
ghost use Rattle.um_cells.specs.Stores.{DenotesIn};
ghost use Rattle.um_cells.specs.Operations.{IsOutcome};
ghost use Rattle.um_machine.specs.Machine.{part_of};
ghost use Rattle.um_words.specs.Applying.{applied};

use um_cells::{Store, Word, WordOutcome, negate, not, raise};

/// The operations on one value.
#[derive(Clone, Copy)]
pub enum Unary {
    Negate,
    Not,
    Power(i32),
    /// The part of this place
    Part(u32),
}

/// The operation on one value.
#[inline(never)]
pub fn apply(store: &Store, op: Unary, word: Word) -> WordOutcome
    ensures { (v : ValueTree) → DenotesIn store.now word v → IsOutcome store.now (applied op v) result }
{
    match op {
        Unary::Negate => negate(word),
        Unary::Not => not(word),
        Unary::Power(k) => raise(word, k),
        Unary::Part(k) => part(store, k, word),
    }
}

fn part(store: &Store, k: u32, word: Word) -> WordOutcome
    ensures { (v : ValueTree) → DenotesIn store.now word v → IsOutcome store.now (part_of k v) result }
{
    match store.part_of(k as usize, word) {
        Some(part) => WordOutcome::Value(part),
        None => WordOutcome::Wrong,
    }
}
