//! The variables of the functions that run.
ghost use Rattle.std.specs.Prelude.{◌≤◌, length};

use std::alloc::{AllocError, Global};
use um_cells::Word;
use um_units::NoMemory;

/// The variables of the functions that run, on one vector: the callers' first, and those of the running function last.
#[derive(Drop)]
pub(crate) struct Scope {
    words: Vec<Word>,
    /// How many are the callers'
    base: usize,
    ghost callers: { base ≤ length words.items },
}

impl Scope {
    ghost use Rattle.std.specs.Prelude.{◌≡◌, ◌+◌, ◌-◌, ◌≤◌, [], ◌∷◌, ◌++◌, length, take, drop, slice_get, IfOk, OnOk};
    ghost use Rattle.um_eval.specs.Variables.{own_of, callers_of, HasOpened};

    /// No variables. Takes no memory.
    pub(crate) fn new(alloc: Global) -> Scope
        ensures { own_of result ≡ [] }
    {
        Scope {
            words: Vec::new(alloc),
            base: 0,
        }
    }

    /// Variable k of the running function.
    #[inline(always)]
    pub(crate) fn get(&self, k: usize) -> Option<Word>
        ensures { result ≡ slice_get self.now.words.items (self.now.base + k) }
    {
        if k < self.words.len() - self.base {
            Some(self.words[self.base + k])
        } else {
            None
        }
    }

    /// How many variables there are, the callers' among them.
    #[inline(always)]
    pub(crate) fn len(&self) -> usize
        ensures { result ≡ length (callers_of self.now) + length (own_of self.now) }
    {
        self.words.len()
    }

    /// One variable more.
    #[inline(always)]
    pub(crate) fn push(&mut self, word: Word) -> Result<(), NoMemory>
        ensures own { OnOk result (own_of self.new ≡ own_of self.old ++ word ∷ []) }
        ensures callers { OnOk result (callers_of self.new ≡ callers_of self.old) }
    {
        match self.words.push(word) {
            Ok(()) => Ok(()),
            Err(_) => Err(AllocError),
        }
    }

    /// Two variables more.
    #[inline(always)]
    pub(crate) fn push_both(&mut self, first: Word, second: Word) -> Result<(), NoMemory>
        ensures own { OnOk result (own_of self.new ≡ own_of self.old ++ first ∷ second ∷ []) }
        ensures callers { OnOk result (callers_of self.new ≡ callers_of self.old) }
    {
        self.push(first)?;
        self.push(second)?;
        Ok(())
    }

    /// The running function's variables again, as they were when there were so many variables.
    #[inline(always)]
    pub(crate) fn cut(&mut self, len: usize)
        requires { length (callers_of self.old) ≤ len }
        ensures own { own_of self.new ≡ take (len - length (callers_of self.old)) (own_of self.old) }
        ensures callers { callers_of self.new ≡ callers_of self.old }
    {
        self.words.truncate(len);
    }

    /// The variables of a function that is called: how many were the callers' before.
    pub(crate) fn open(&mut self, words: &[Word]) -> Result<usize, NoMemory>
        ensures { IfOk result (λ base. HasOpened self.old self.new base words.now) }
    {
        let outer = self.base;
        let base = self.words.len();
        match self.words.extend_from_slice(words) {
            Ok(()) => {
                self.base = base;
                Ok(outer)
            }
            Err(e) => Err(e),
        }
    }

    /// The caller's variables again, before which this many stand.
    #[inline(always)]
    pub(crate) fn close(&mut self, base: usize)
        requires { base ≤ length (callers_of self.old) }
        ensures own { own_of self.new ≡ drop base (callers_of self.old) }
        ensures callers { callers_of self.new ≡ take base (callers_of self.old) }
    {
        self.words.truncate(self.base);
        self.base = base;
    }
}
