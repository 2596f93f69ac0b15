//! What measures stand for.

ghost use Rattle.std.specs.Prelude.{◌≡◌, ◌∷◌, ◌++◌, [], false, is_some, ℕ, List, IfOk, OnOk};
ghost use Rattle.std.specs.Prelude.{None};
ghost use Rattle.std.specs.Option.{option_copied};
ghost use Rattle.um_measures.specs.Known.{short_unit};

use crate::abbreviation::Abbreviation;
use crate::digest::NameDigest;
use crate::table::NameTable;
use std::alloc::{AllocError, Global};
use std::marker::Model;
use um_tree::Name;
use um_units::Unit;

/// The units that measures stand for, in the order of their declaration.
pub struct Measures {
    names: NameTable,
    units: Vec<Abbreviation>,
}

// A derived drop would be proved anew in each crate that lets measures go. This one is proved here.
impl Drop for Measures {
    fn drop(self) {
        let Measures { names: _, units: _ } = self;
    }
}

impl Model for Measures {
    ghost use Rattle.std.specs.Prelude.{◌≡◌, List};
    ghost use Rattle.std.specs.Coded.{coded_list};
    ghost use Rattle.um_measures.specs.declared.abbreviation.Abbreviation.{Abbreviation};
    ghost use Rattle.um_measures.specs.AbbreviationCode.{abbreviation_code};
    ghost use Rattle.um_measures.specs.Known.{short_names};

    ghost Value = { List Abbreviation };

    ghost coded = { coded_list abbreviation_code };

    ghost view = { λ measures. measures.units.items };

    ghost invariant = { λ measures. measures.names ≡ short_names measures.units.items };
}

impl Measures {
    /// No measures, with the digest of all names that may be added. Takes no memory.
    pub fn new(alloc: Global, digest: NameDigest) -> Measures
        ensures { result ≡ [] }
    {
        Measures {
            names: NameTable::with_digest(alloc, digest),
            units: Vec::new(alloc),
        }
    }

    /// Whether a measure has this name, which is looked up in constant time.
    pub fn has(&self, name: &[u8]) -> bool
        ensures { result ≡ is_some (short_unit self.now name.now) }
    {
        self.names.has(name)
    }

    /// The unit of the first measure of this name, which is looked up in constant time.
    pub fn unit(&self, name: &[u8]) -> Option<&Unit>
        ensures { option_copied result ≡ short_unit self.now name.now }
    {
        match self.names.number(name) {
            Some(k) => Some(&self.units[k as usize].unit),
            None => None,
        }
    }

    /// These measures and after them one more, which is hidden if its name is known. Fails for want of memory
    /// alone.
    pub fn with(self, alloc: Global, name: &[u8], unit: Unit) -> Result<Measures, AllocError>
        ensures { IfOk result (λ measures. (x : List ℕ)
            → short_unit measures x ≡ short_unit (self ++ record { name = name.now; unit = unit } ∷ []) x) }
    {
        if self.names.has(name) {
            return Ok(self);
        }
        let Measures {
            mut names,
            mut units,
        } = self;
        names.add(alloc, name)?;
        let name = Name::from_slice(alloc, name)?;
        units.push(Abbreviation { name, unit })?;
        Ok(Measures { names, units })
    }
}
