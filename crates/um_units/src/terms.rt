//! The terms of a unit. Most units have no more than two, which lie in the value itself. More lie on the heap.

ghost use Rattle.std.specs.Prelude.{◌≡◌, ◌++◌, ◌∷◌, [], IfOk, OnOk};
ghost use Rattle.um_units.specs.Storage.{stored_terms};

use crate::Term;
use crate::few::FewTerms;
use std::alloc::{AllocError, Global};
use std::marker::Model;

#[derive(Drop)]
enum Storage {
    Few(FewTerms),
    Heap(Vec<Term>),
}

/// These terms and one more, on the heap.
#[cold]
#[inline(never)]
fn on_heap(alloc: Global, terms: &[Term], last: Term) -> Result<Vec<Term>, AllocError>
    ensures { IfOk result (λ all. all.items ≡ terms.now ++ last ∷ []) }
{
    let mut all = Vec::with_capacity(alloc, 4)?;
    all.extend_from_slice(terms)?;
    all.push(last)?;
    Ok(all)
}

/// Adds a term at the end.
#[inline(always)]
fn push_stored(alloc: Global, storage: &mut Storage, term: Term) -> Result<(), AllocError>
    ensures { OnOk result (stored_terms storage.new ≡ stored_terms storage.old ++ term ∷ []) }
{
    match storage {
        Storage::Heap(terms) => terms.push(term)?,
        Storage::Few(few) => {
            if few.has_room() {
                few.push(term);
            } else {
                *storage = Storage::Heap(on_heap(alloc, few.as_slice(), term)?);
            }
        }
    }
    Ok(())
}

/// Adds terms at the end.
fn extend_stored(alloc: Global, storage: &mut Storage, terms: &[Term]) -> Result<(), AllocError>
    ensures { OnOk result (stored_terms storage.new ≡ stored_terms storage.old ++ terms.now) }
{
    if let Storage::Heap(all) = storage {
        return all.extend_from_slice(terms);
    }
    for term in terms {
        push_stored(alloc, storage, *term)?;
    }
    Ok(())
}

/// A list of terms. At most two take no memory.
pub(crate) struct Terms {
    storage: Storage,
}

// A derived drop would be proved anew in each crate that lets units go. This one is proved here.
impl Drop for Terms {
    fn drop(self) {
        let Terms { storage: _ } = self;
    }
}

impl Model for Terms {
    ghost use Rattle.std.specs.Prelude.{List};
    ghost use Rattle.um_units.specs.declared.Term.{Term as TermOf};

    ghost Value = { List TermOf };

    ghost use Rattle.um_units.specs.Storage.{stored_terms};

    ghost view = { λ terms. stored_terms terms.storage };
}

impl Terms {
    /// No terms. Takes no memory.
    #[inline]
    pub fn new() -> Terms
        ensures { result ≡ [] }
    {
        Terms {
            storage: Storage::Few(FewTerms::none()),
        }
    }

    /// One term. Takes no memory.
    #[inline]
    pub fn one(term: Term) -> Terms
        ensures { result ≡ term ∷ [] }
    {
        Terms {
            storage: Storage::Few(FewTerms::one(term)),
        }
    }

    /// The terms of a slice, copied.
    pub fn from_slice(alloc: Global, terms: &[Term]) -> Result<Terms, AllocError>
        ensures { IfOk result (λ all. all ≡ terms.now) }
    {
        let storage = match terms {
            [] => Storage::Few(FewTerms::none()),
            [only] => Storage::Few(FewTerms::one(*only)),
            [first, second] => Storage::Few(FewTerms::two(*first, *second)),
            _ => Storage::Heap(Vec::from_slice(alloc, terms)?),
        };
        Ok(Terms { storage })
    }

    /// The same terms.
    #[inline]
    pub fn copy(&self, alloc: Global) -> Result<Terms, AllocError>
        ensures { IfOk result (λ all. all ≡ self.now) }
    {
        let storage = match &self.storage {
            Storage::Few(few) => Storage::Few(few.copy()),
            Storage::Heap(terms) => Storage::Heap(Vec::from_slice(alloc, terms.as_slice())?),
        };
        Ok(Terms { storage })
    }

    /// The terms, in order. Takes no memory.
    #[inline]
    pub fn as_slice(&self) -> &[Term]
        ensures { result.now ≡ self.now }
    {
        match &self.storage {
            Storage::Few(few) => few.as_slice(),
            Storage::Heap(terms) => terms.as_slice(),
        }
    }

    /// Adds a term at the end.
    #[inline(always)]
    pub fn push(&mut self, alloc: Global, term: Term) -> Result<(), AllocError>
        ensures { OnOk result (self.new ≡ self.old ++ term ∷ []) }
    {
        push_stored(alloc, &mut self.storage, term)
    }

    /// Adds terms at the end.
    pub fn extend_from_slice(&mut self, alloc: Global, terms: &[Term]) -> Result<(), AllocError>
        ensures { OnOk result (self.new ≡ self.old ++ terms.now) }
    {
        extend_stored(alloc, &mut self.storage, terms)
    }
}
