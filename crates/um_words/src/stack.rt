//! Words on a stack, over the cells that they name.
ghost use Rattle.um_cells.specs.Holding.{AllHold};

use crate::stop::Stop;
use crate::words::{append, put_values, replace, settle, settle_two, word_above};
use std::alloc::Global;
use um_cells::{Store, Word, WordOutcome};
use um_tree::Values;
use um_units::NoMemory;

/// A stack of words, the top last, and the cells that they name.
#[derive(Drop)]
pub struct Stack {
    pub store: Store,
    pub words: Vec<Word>,
    ghost held: { AllHold store words.items },
}

impl Stack {
    ghost use Rattle.std.specs.Prelude.{◌≡◌, ◌+◌, ◌-◌, ◌<◌, ◌≤◌, List, [], ◌∷◌, ◌++◌, Result, Ok, Some, length, map};
    ghost use Rattle.std.specs.Prelude.{take, drop, slice_get, IfOk, OnOk, IfSome, MatchOption};
    ghost use Rattle.um_tree.specs.ValueTree.{ValueTree, list_value, record_value, value_tree, values_in_order};
    ghost use Rattle.um_tree.specs.Meaning.{Stop as MeaningStop, longer};
    ghost use Rattle.um_cells.specs.declared.word.Word.{Word};
    ghost use Rattle.um_cells.specs.Stores.{DenotesIn, HasValue};
    ghost use Rattle.um_cells.specs.Holding.{HoldsIn};
    ghost use Rattle.um_cells.specs.Operations.{IsOutcome};
    ghost use Rattle.um_words.specs.Carrying.{Carries};
    ghost use Rattle.um_words.specs.Placing.{Placed};

    /// A stack of words that denote the values.
    pub fn new(alloc: Global, values: Values) -> Result<Stack, NoMemory>
        ensures { IfOk result (λ stack. Carries stack (map value_tree values.items.items)) }
    {
        let mut store = Store::new(alloc);
        let words = put_values(alloc, &mut store, values)?;
        Ok(Stack { store, words })
    }

    /// The word that stands `k` words above the base. No fewer words than the base stand on the stack.
    #[inline(always)]
    pub fn word_at(&self, base: usize, k: usize) -> Option<Word>
        requires { base ≤ length self.now.words.items }
        ensures { result ≡ slice_get self.now.words.items (base + k) }
    {
        word_above(&self.words, base, k)
    }

    /// Where the topmost `count` words begin, if so many stand above the base.
    #[inline(always)]
    pub fn place_of(&self, base: usize, count: usize) -> Option<usize>
        requires { base ≤ length self.now.words.items }
        ensures { MatchOption result (length self.now.words.items < base + count)
            (λ at. (base ≤ at) × (at + count ≡ length self.now.words.items)) }
    {
        if self.words.len() - base < count {
            return None;
        }
        Some(self.words.len() - count)
    }

    /// The topmost word and its place, if it stands above the base.
    #[inline(always)]
    pub fn one(&self, base: usize) -> Option<(usize, Word)>
        ensures { MatchOption result (length self.now.words.items < base + 1)
            (λ r. (base ≤ r.0) × (r.0 + 1 ≡ length self.now.words.items)
            × (slice_get self.now.words.items r.0 ≡ Some r.1)) }
    {
        if self.words.len() <= base {
            return None;
        }
        let at = self.words.len() - 1;
        Some((at, self.words[at]))
    }

    /// The two topmost words and the place of the lower one, if they stand above the base.
    #[inline(always)]
    pub fn two(&self, base: usize) -> Option<(usize, Word, Word)>
        requires { base ≤ length self.now.words.items }
        ensures { MatchOption result (length self.now.words.items < base + 2)
            (λ r. (base ≤ r.0) × (r.0 + 2 ≡ length self.now.words.items)
            × (slice_get self.now.words.items r.0 ≡ Some r.1)
            × (slice_get self.now.words.items (r.0 + 1) ≡ Some r.2)) }
    {
        if self.words.len() - base < 2 {
            return None;
        }
        let at = self.words.len() - 2;
        Some((at, self.words[at], self.words[at + 1]))
    }

    /// The topmost word, if there is one.
    pub fn top(&self) -> Option<Word>
        ensures holds { IfSome result (λ word. HoldsIn self.now.store word) }
        ensures value { (vs : List ValueTree) (v : ValueTree) → Carries self.now vs
            → slice_get vs (length vs - 1) ≡ Some v
            → (word : Word) × (result ≡ Some word) × DenotesIn self.now.store word v }
    {
        let count = self.words.len();
        if count == 0 {
            return None;
        }
        Some(self.words[count - 1])
    }

    /// The words from the place on go.
    #[inline(always)]
    pub fn cut(&mut self, at: usize)
        ensures values { (vs : List ValueTree) → Carries self.old vs → Carries self.new (take at vs) }
        ensures size { at ≤ length self.old.words.items → length self.new.words.items ≡ at }
    {
        self.words.truncate(at);
    }

    /// One word more.
    #[inline(always)]
    pub fn push(&mut self, word: Word) -> Result<(), Stop>
        requires { HasValue self.old.store word }
        ensures value { (vs : List ValueTree) (v : ValueTree) → Carries self.old vs → DenotesIn self.old.store word v
            → Placed self.new vs (Ok v) result }
        ensures size { length self.old.words.items ≤ length self.new.words.items }
    {
        match append(&mut self.words, word) {
            Ok(()) => Ok(()),
            Err(_) => Err(Stop::NoMemory),
        }
    }

    /// One word more, if there is room for it. Takes no memory.
    #[inline(always)]
    pub fn push_if_room(&mut self, word: Word) -> Option<()>
        requires { HasValue self.old.store word }
        ensures value { (vs : List ValueTree) → Carries self.old vs → MatchOption result (Carries self.new vs)
            (λ _. (v : ValueTree) → DenotesIn self.old.store word v → Carries self.new (vs ++ v ∷ [])) }
        ensures size { length self.old.words.items ≤ length self.new.words.items }
    {
        if self.words.len() < self.words.capacity() {
            self.words.push_reserved(word);
            return Some(());
        }
        None
    }

    /// The word in place of those from the place on.
    pub(crate) fn settle(&mut self, at: usize, word: Word) -> Result<(), Stop>
        requires place { at ≤ length self.old.words.items }
        requires value { HasValue self.old.store word }
        ensures value { (vs : List ValueTree) (v : ValueTree) → Carries self.old vs → DenotesIn self.old.store word v
            → Placed self.new (take at vs) (Ok v) result }
        ensures size { at ≤ length self.new.words.items }
    {
        match settle(&mut self.words, at, word) {
            Ok(()) => Ok(()),
            Err(_) => Err(Stop::NoMemory),
        }
    }

    /// The word in place of those from the place on, of which one is there.
    #[inline(always)]
    pub fn replace(&mut self, at: usize, word: Word)
        requires place { at < length self.old.words.items }
        requires value { HasValue self.old.store word }
        ensures value { (vs : List ValueTree) (v : ValueTree) → Carries self.old vs → DenotesIn self.old.store word v
            → Carries self.new (take at vs ++ v ∷ []) }
        ensures size { at ≤ length self.new.words.items }
    {
        replace(&mut self.words, at, word);
    }

    /// What an operation gave in place of the words from the place on, of which one is there.
    #[inline(always)]
    pub fn put(&mut self, at: usize, outcome: WordOutcome) -> Result<(), Stop>
        requires place { at < length self.old.words.items }
        requires value { (r : Result ValueTree MeaningStop) × IsOutcome self.old.store r outcome }
        ensures value { (vs : List ValueTree) (r : Result ValueTree MeaningStop) → Carries self.old vs
            → IsOutcome self.old.store r outcome → Placed self.new (take at vs) r result }
        ensures size { at ≤ length self.new.words.items }
    {
        match outcome {
            WordOutcome::Value(word) => {
                self.replace(at, word);
                Ok(())
            }
            WordOutcome::Trap(trap) => Err(Stop::Trap(trap)),
            WordOutcome::Wrong => Err(Stop::Stuck),
        }
    }

    /// Two words in place of the topmost.
    pub fn settle_two(&mut self, at: usize, first: Word, second: Word) -> Result<(), NoMemory>
        requires place { at + 1 ≡ length self.old.words.items }
        requires first { HasValue self.old.store first }
        requires second { HasValue self.old.store second }
        ensures values { (vs : List ValueTree) (v u : ValueTree) → Carries self.old vs
            → DenotesIn self.old.store first v → DenotesIn self.old.store second u
            → OnOk result (Carries self.new (take at vs ++ v ∷ u ∷ [])) }
        ensures size { at ≤ length self.new.words.items }
    {
        settle_two(&mut self.words, at, first, second)
    }

    /// The list `y` with `x` in front, in place of the words from the place on.
    #[inline(never)]
    pub fn cons(&mut self, at: usize, x: Word, y: Word) -> Result<(), Stop>
        requires place { at ≤ length self.old.words.items }
        requires item { HasValue self.old.store x }
        requires list { HasValue self.old.store y }
        ensures value { (vs : List ValueTree) (v u : ValueTree) → Carries self.old vs → DenotesIn self.old.store x v
            → DenotesIn self.old.store y u → Placed self.new (take at vs) (longer v u) result }
        ensures size { at ≤ length self.new.words.items }
    {
        match self.store.cons(x, y) {
            Ok(Some(word)) => self.settle(at, word),
            Ok(None) => Err(Stop::Stuck),
            Err(_) => Err(Stop::NoMemory),
        }
    }

    /// The list of the words from the place on, in their place.
    #[inline(never)]
    pub fn make_list(&mut self, at: usize) -> Result<(), Stop>
        requires { at ≤ length self.old.words.items }
        ensures value { (vs : List ValueTree) → Carries self.old vs
            → Placed self.new (take at vs) (Ok (list_value (values_in_order (drop at vs)))) result }
        ensures size { at ≤ length self.new.words.items }
    {
        match self.store.make_list(&self.words[at..]) {
            Ok(word) => self.settle(at, word),
            Err(_) => Err(Stop::NoMemory),
        }
    }

    /// The record of this number of the words from the place on, in their place.
    #[inline(never)]
    pub fn make_record(&mut self, at: usize, record_number: u32) -> Result<(), Stop>
        requires { at ≤ length self.old.words.items }
        ensures value { (vs : List ValueTree) → Carries self.old vs
            → Placed self.new (take at vs) (Ok (record_value record_number (values_in_order (drop at vs)))) result }
        ensures size { at ≤ length self.new.words.items }
    {
        match self.store.make_record(record_number, &self.words[at..]) {
            Ok(word) => self.settle(at, word),
            Err(_) => Err(Stop::NoMemory),
        }
    }
}
