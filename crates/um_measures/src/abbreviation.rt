//! Abbreviations of units.

ghost use Rattle.std.specs.Prelude.{◌≡◌};

use std::marker::Model;
use um_tree::Name;
use um_units::Unit;

/// A name for a unit.
pub struct Abbreviation {
    pub name: Name,
    pub unit: Unit,
}

// A derived drop would be proved anew in each crate that lets abbreviations go. This one is proved here.
impl Drop for Abbreviation {
    fn drop(self) {
        let Abbreviation { name: _, unit: _ } = self;
    }
}

/// Some abbreviations, in order.
pub struct Abbreviations {
    items: Vec<Abbreviation>,
}

// A derived drop would be proved anew in each crate that lets abbreviations go. This one is proved here.
impl Drop for Abbreviations {
    fn drop(self) {
        let Abbreviations { items: _ } = self;
    }
}

impl Model for Abbreviations {
    ghost use Rattle.std.specs.Prelude.{List};
    ghost use Rattle.std.specs.Coded.{coded_list};
    ghost use Rattle.um_measures.specs.declared.abbreviation.Abbreviation.{Abbreviation};
    ghost use Rattle.um_measures.specs.AbbreviationCode.{abbreviation_code};

    ghost Value = { List Abbreviation };

    ghost coded = { coded_list abbreviation_code };

    ghost view = { λ shorts. shorts.items.items };
}

impl Abbreviations {
    /// These abbreviations.
    pub fn from_vec(items: Vec<Abbreviation>) -> Abbreviations
        ensures { result ≡ items.items }
    {
        Abbreviations { items }
    }

    /// The abbreviations, handed back.
    pub fn into_vec(self) -> Vec<Abbreviation>
        ensures { result.items ≡ self }
    {
        let Abbreviations { items } = self;
        items
    }

    /// The abbreviations.
    pub fn as_slice(&self) -> &[Abbreviation]
        ensures { result.now ≡ self.now }
    {
        &self.items
    }
}
