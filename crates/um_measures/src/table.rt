//! Names, each once, with the numbers that they have in the order in which they came.

ghost use Rattle.std.specs.Prelude.{◌≡◌, ◌∷◌, ◌++◌, [], cond, map, IfOk, OnOk, length};
ghost use Rattle.um_measures.specs.Known.{is_among, number_of};

use crate::digest::{NameDigest, Places};
use std::alloc::{AllocError, Global};
use std::collections::HashMap;
use std::marker::Model;

/// Names, each once, in the order in which they came. A name is found in constant time, if the table is made with the
/// digest of all names that may come into it.
pub struct NameTable {
    /// The number of each name. The map keeps its entries in the order in which they came, since none is taken out.
    numbers: HashMap<Vec<u8>, u32, Places>,
}

// A derived drop would be proved anew in each crate that lets tables of names go. This one is proved here.
impl Drop for NameTable {
    fn drop(self) {
        let NameTable { numbers: _ } = self;
    }
}

impl Model for NameTable {
    ghost use Rattle.std.specs.Prelude.{ℕ, List};
    ghost use Rattle.std.specs.Coded.{coded_list, coded_ℕ};
    ghost use Rattle.um_measures.specs.NameNumbers.{AreNumbered, names_of};

    ghost Value = { List (List ℕ) };

    ghost coded = { coded_list (coded_list coded_ℕ) };

    ghost view = { λ table. names_of table.numbers };

    ghost invariant = { λ table. AreNumbered table.numbers };
}

impl NameTable {
    /// No names. Only names that no text decides may be added. Takes no memory.
    pub fn new(alloc: Global) -> NameTable
        ensures { result ≡ [] }
    {
        NameTable {
            numbers: HashMap::with_hasher(alloc, Places::fixed()),
        }
    }

    /// No names, with the digest of all names that may be added. Takes no memory.
    pub fn with_digest(alloc: Global, digest: NameDigest) -> NameTable
        ensures { result ≡ [] }
    {
        NameTable {
            numbers: HashMap::with_hasher(alloc, Places::after(digest)),
        }
    }

    /// The number of a name, from 0 on in the order in which they came.
    pub fn number(&self, name: &[u8]) -> Option<u32>
        ensures { result ≡ number_of self.now name.now }
    {
        match self.numbers.get(name) {
            Some(number) => Some(*number),
            None => None,
        }
    }

    /// The names in the order in which they came: the name at each place has this place as its number.
    pub fn in_order(&self, alloc: Global) -> Result<Vec<&[u8]>, AllocError>
        ensures { IfOk result (λ names. map (λ name. name.now) names.items ≡ self.now) }
    {
        let mut names = Vec::new(alloc);
        for name in self.numbers.keys() {
            names.push(name.as_slice())?;
        }
        Ok(names)
    }

    /// Whether a name is there.
    pub fn has(&self, name: &[u8]) -> bool
        ensures { result ≡ is_among self.now name.now }
    {
        self.numbers.contains_key(name)
    }

    /// How many names there are.
    pub fn count(&self) -> u32
        ensures { result ≡ length self.now }
    {
        self.numbers.len() as u32
    }

    /// Adds a name, unless it is there. Fails for want of memory alone, or where there are 2^32 - 1 names.
    pub fn add(&mut self, alloc: Global, name: &[u8]) -> Result<(), AllocError>
        ensures { OnOk result (self.new ≡ cond (is_among self.old name.now) self.old (self.old ++ name.now ∷ [])) }
    {
        let count = self.numbers.len();
        if count >= u32::MAX as usize {
            return Err(AllocError);
        }
        let key = Vec::from_slice(alloc, name)?;
        self.numbers.entry(key)?.or_insert(count as u32);
        Ok(())
    }
}
