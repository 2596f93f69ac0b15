//! The variables of a place in an expression.

ghost use Rattle.std.specs.Prelude.{◌≡◌, ◌∷◌, ◌++◌, [], OnOk, IfOk, length, take};
ghost use Rattle.um_measures.specs.Scopes.{is_bound, local_of, is_repeated, same_binding};

use std::alloc::{AllocError, Global};
use std::marker::Model;
use um_tree::{Binder, Name};

/// The variables of a scope, in the order in which they came into it; nothing for `_`.
pub struct Scope {
    names: Vec<Option<Name>>,
}

// A derived drop would be proved anew in each crate that lets scopes go. This one is proved here.
impl Drop for Scope {
    fn drop(self) {
        let Scope { names: _ } = self;
    }
}

impl Model for Scope {
    ghost use Rattle.std.specs.Prelude.{ℕ, List, Option, ◌≤◌, length};
    ghost use Rattle.std.specs.Coded.{coded_list, coded_option, coded_ℕ};

    ghost Value = { List (Option (List ℕ)) };

    ghost coded = { coded_list (coded_option (coded_list coded_ℕ)) };

    ghost view = { λ scope. scope.names.items };

    ghost invariant = { λ scope. length scope.names.items ≤ 4294967295 };
}

impl Scope {
    /// No variables. Takes no memory.
    pub fn new(alloc: Global) -> Scope
        ensures { result ≡ [] }
    {
        Scope {
            names: Vec::new(alloc),
        }
    }

    /// How many variables there are.
    pub fn count(&self) -> usize
        ensures { result ≡ length self.now }
    {
        self.names.len()
    }

    /// Takes one more variable. Fails for want of memory alone, or where there are 2^32 - 1 variables.
    pub fn push(&mut self, alloc: Global, binder: &Binder) -> Result<(), AllocError>
        ensures { OnOk result (self.new ≡ self.old ++ binder.now.name ∷ []) }
    {
        if self.names.len() >= u32::MAX as usize {
            return Err(AllocError);
        }
        let name = copy(alloc, &binder.name)?;
        self.names.push(name)?;
        Ok(())
    }

    /// Forgets the variables after the first ones.
    pub fn cut(&mut self, count: usize)
        ensures { self.new ≡ take count self.old }
    {
        self.names.truncate(count);
    }

    /// The number of the last variable of this name, from 0 on in the order in which they came. It takes time linear in
    /// the scope.
    pub fn local(&self, name: &[u8]) -> Option<u32>
        ensures { result ≡ local_of self.now name.now }
    {
        match last_named(&self.names, name) {
            Some(k) => Some(k as u32),
            None => None,
        }
    }

    /// Whether a variable has the binder's name; `_` has none.
    pub fn repeats(&self, binder: &Binder) -> bool
        ensures { result ≡ is_repeated self.now binder.now.name }
    {
        match &binder.name {
            None => false,
            Some(name) => self.local(name.as_slice()).is_some(),
        }
    }
}

/// A scope is at most some hundreds high, so that a search is fast enough.
fn last_named(names: &[Option<Name>], name: &[u8]) -> Option<usize>
    ensures { result ≡ local_of names.now name.now }
{
    for k in (0..names.len()).rev() {
        if binds(&names[k], name) {
            return Some(k);
        }
    }
    None
}

fn copy(alloc: Global, name: &Option<Name>) -> Result<Option<Name>, AllocError>
    ensures { IfOk result (λ copied. copied ≡ name.now) }
{
    match name {
        None => Ok(None),
        Some(name) => Ok(Some(Name::from_slice(alloc, name.as_slice())?)),
    }
}

fn binds(variable: &Option<Name>, name: &[u8]) -> bool
    ensures { result ≡ is_bound variable.now name.now }
{
    match variable {
        None => false,
        Some(variable) => name == variable.as_slice(),
    }
}

/// Whether two binders bind one name.
pub fn same_binding(first: &Binder, second: &Binder) -> bool
    ensures { result ≡ same_binding first.now.name second.now.name }
{
    match &first.name {
        None => false,
        Some(name) => binds(&second.name, name.as_slice()),
    }
}
