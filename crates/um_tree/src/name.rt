// Names as they stand in a text.
ghost use Rattle.std.specs.Prelude.{◌≡◌, [], IfOk};

use std::alloc::{AllocError, Global};
use std::marker::Model;
use um_inline::InlineBytes;

/// A name: its bytes as they stand in the text.
pub struct Name {
    bytes: InlineBytes,
}

// A derived drop would be proved anew in each crate that lets names go. This one is proved here.
impl Drop for Name {
    fn drop(self) {
        let Name { bytes: _ } = self;
    }
}

impl Model for Name {
    ghost use Rattle.std.specs.Prelude.{ℕ, List};
    ghost use Rattle.std.specs.Coded.{coded_list, coded_ℕ};

    ghost Value = { List ℕ };

    ghost coded = { coded_list coded_ℕ };

    ghost view = { λ n. n.bytes };
}

impl Name {
    /// The name without bytes. Takes no memory.
    pub fn empty() -> Name
        ensures { result ≡ [] }
    {
        Name {
            bytes: InlineBytes::empty(),
        }
    }

    /// The name with these bytes, copied. Takes no memory if there are at most 16.
    pub fn from_slice(alloc: Global, bytes: &[u8]) -> Result<Name, AllocError>
        ensures { IfOk result (λ name. name ≡ bytes.now) }
    {
        let bytes = InlineBytes::from_slice(alloc, bytes)?;
        Ok(Name { bytes })
    }

    /// The name with these bytes. Takes no memory.
    pub fn from_bytes(bytes: InlineBytes) -> Name
        ensures { result ≡ bytes }
    {
        Name { bytes }
    }

    /// Its bytes.
    pub fn as_slice(&self) -> &[u8]
        ensures { result.now ≡ self.now }
    {
        self.bytes.as_slice()
    }
}

/// Some names, in order.
pub struct Names {
    items: Vec<Name>,
}

// A derived drop would be proved anew in each crate that lets names go. This one is proved here.
impl Drop for Names {
    fn drop(self) {
        let Names { items: _ } = self;
    }
}

impl Model for Names {
    ghost use Rattle.std.specs.Prelude.{ℕ, List};
    ghost use Rattle.std.specs.Coded.{coded_list, coded_ℕ};

    ghost Value = { List (List ℕ) };

    ghost coded = { coded_list (coded_list coded_ℕ) };

    ghost view = { λ n. n.items.items };
}

impl Names {
    /// These names.
    pub fn from_vec(items: Vec<Name>) -> Names
        ensures { result ≡ items.items }
    {
        Names { items }
    }

    /// The names, handed back.
    pub fn into_vec(self) -> Vec<Name>
        ensures { result.items ≡ self }
    {
        let Names { items } = self;
        items
    }

    /// The names.
    pub fn as_slice(&self) -> &[Name]
        ensures { result.now ≡ self.now }
    {
        &self.items
    }
}
