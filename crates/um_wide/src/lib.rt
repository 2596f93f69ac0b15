//! Units whose powers have 128 bits, in which sums of products of powers have room.
//!
//! In contracts such a unit is its exact value, as the units of `um_units` are: an element of the free abelian group on
//! the atoms (Kennedy, Programming Languages and Dimensions, 1996). No operation meets a range: each asks for the room
//! that it needs.
//!
//! ```
//! let high = WideUnit::power(alloc, &metre, 3_000_000_000)?; // a power that a Unit can't have let both =
//! high.mul(alloc, &other)?; // if both have room for the sums of their powers
//! ```
#![tactic(auto)]

ghost use Rattle.std.specs.Prelude.{◌≡◌, ◌↔◌, ◌*◌, ◌^◌, IfOk, OnErr, OnOk, IsTrue, nat_abs};
ghost use Rattle.um_units.specs.Atoms.{is_before, same_atom};
ghost use Rattle.um_units.specs.declared.Atom.TheVariants.{Base};
ghost use Rattle.um_units.specs.PowerMap.{one, atom, mul, pow, power_of, replace, nth};
ghost use Rattle.um_wide.specs.Room.{HaveRoom, IsNarrow, IsWithin};
ghost use Rattle.um_units.specs.Wide.{as_terms};

mod images;
mod merge;
mod narrow;

use merge::{multiply, scaled, widened};
use narrow::are_narrow;
use std::alloc::Global;
use std::marker::Model;
use um_units::wide::{WideTerm, merged, push_nonzero};
use um_units::{Atom, NoMemory, Unit};

/// Whether the atom is the base unit of this number.
pub fn is_base_unit(atom: Atom, n: u64) -> bool
    ensures { result ≡ same_atom (Base n) atom }
{
    match atom {
        Atom::Base(m) => n == u64::from(m),
        Atom::Var(_) => false,
    }
}

/// Whether the first atom comes before the second: base units come before variables, each kind by its number.
pub fn comes_before(first: Atom, second: Atom) -> bool
    ensures { result ≡ is_before first second }
{
    match (first, second) {
        (Atom::Base(m), Atom::Base(n)) => m < n,
        (Atom::Base(_), Atom::Var(_)) => true,
        (Atom::Var(_), Atom::Base(_)) => false,
        (Atom::Var(m), Atom::Var(n)) => m < n,
    }
}

/// A unit: a finite map from atoms to powers other than 0.
#[derive(Drop)]
pub struct WideUnit {
    terms: Vec<WideTerm>,
}

impl Model for WideUnit {
    ghost use Rattle.std.specs.Prelude.{IsTrue};
    ghost use Rattle.um_units.specs.PowerMap.{PowerMap, product};
    ghost use Rattle.um_units.specs.PowerMapCode.{power_map_code};
    ghost use Rattle.um_units.specs.Terms.{is_normal};
    ghost use Rattle.um_units.specs.Wide.{as_terms};

    ghost Value = { PowerMap };

    ghost coded = { power_map_code };

    ghost view = { λ wide. product (as_terms wide.terms.items) };

    ghost invariant = { λ wide. IsTrue (is_normal (as_terms wide.terms.items)) };
}

impl WideUnit {
    /// The dimensionless unit. Takes no memory.
    pub fn one(alloc: Global) -> WideUnit
        ensures exact { result ≡ one }
    {
        WideUnit {
            terms: Vec::new(alloc),
        }
    }

    /// The atom to the power.
    pub fn atom_power(alloc: Global, a: Atom, power: i128) -> Result<WideUnit, NoMemory>
        ensures exact { IfOk result (λ wide. wide ≡ pow (atom a) power) }
    {
        let mut terms = Vec::new(alloc);
        push_nonzero(&mut terms, a, power)?;
        Ok(WideUnit { terms })
    }

    /// The unit's k-th power.
    pub fn power(alloc: Global, unit: &Unit, k: i64) -> Result<WideUnit, NoMemory>
        ensures exact { IfOk result (λ wide. wide ≡ pow unit.now k) }
        ensures room { IfOk result (IsWithin (nat_abs k * 2147483647)) }
    {
        let wide = widened(alloc, unit.terms())?;
        let terms = scaled(alloc, &wide, k)?;
        Ok(WideUnit { terms })
    }

    /// The unit with `by[k]` put for each variable k. Base units stay, and so does a variable that has no unit in `by`.
    ///
    /// It takes about n log n steps for n terms that are put in.
    pub fn replaced(alloc: Global, unit: &Unit, by: &[Unit]) -> Result<WideUnit, NoMemory>
        ensures exact { IfOk result (λ wide. wide ≡ replace (nth by.now) unit.now) }
        ensures room { IfOk result (IsWithin (2 ^ 126)) }
    {
        images::product(alloc, unit.terms(), by)
    }

    /// The pairs of the map: base units before variables, each kind by its number, and no power 0. Takes no memory.
    pub fn terms(&self) -> &[WideTerm]
        ensures terms { as_terms result.now ≡ self.now.terms }
    {
        &self.terms
    }

    /// The power of an atom, which is 0 if the unit doesn't hold it. Takes no memory.
    pub fn power_of(&self, a: Atom) -> i128
        ensures power { result ≡ power_of self.now a }
    {
        match merge::term_of(&self.terms, a) {
            Some(term) => term.power,
            None => 0,
        }
    }

    /// The power of the base unit of this number, which is 0 if the unit doesn't hold it. Takes no memory.
    pub fn base_power(&self, n: u64) -> i128
        ensures power { result ≡ power_of self.now (Base n) }
    {
        match merge::base_term(&self.terms, n) {
            Some(term) => term.power,
            None => 0,
        }
    }

    /// Whether both are the same unit. Takes no memory.
    pub fn same(&self, other: &WideUnit) -> bool
        ensures same { IsTrue result ↔ (self.now ≡ other.now) }
    {
        self.terms == other.terms
    }

    /// The product: the powers of each atom are added, and an atom whose powers cancel is dropped.
    pub fn mul(&self, alloc: Global, other: &WideUnit) -> Result<WideUnit, NoMemory>
        requires room { HaveRoom self.now other.now }
        ensures exact { IfOk result (λ wide. wide ≡ mul self.now other.now) }
    {
        let terms = merged(alloc, &self.terms, &other.terms)?;
        Ok(WideUnit { terms })
    }

    /// The k-th power: each power is multiplied by k.
    pub fn pow(&self, alloc: Global, k: i64) -> Result<WideUnit, NoMemory>
        requires narrow { IsNarrow self.now }
        ensures exact { IfOk result (λ wide. wide ≡ pow self.now k) }
    {
        let terms = scaled(alloc, &self.terms, k)?;
        Ok(WideUnit { terms })
    }

    /// Multiplies the unit by the other's k-th power. If the other's atoms come after all of this unit's, its terms are
    /// added at the end, and the time that this takes depends on the other alone.
    ///
    /// With `NoMemory`, the one error, the unit stays as it is.
    pub fn mul_power(&mut self, alloc: Global, other: &WideUnit, k: i64) -> Result<(), NoMemory>
        requires narrow { IsNarrow other.now }
        requires room { HaveRoom self.old (pow other.now k) }
        ensures exact { OnOk result (self.new ≡ mul self.old (pow other.now k)) }
        ensures unchanged { OnErr result (self.new ≡ self.old) }
    {
        let power = scaled(alloc, &other.terms, k)?;
        multiply(alloc, &mut self.terms, &power)?;
        Ok(())
    }

    /// Whether each power lies in -9223372036854775807..9223372036854775807. Takes no memory.
    pub fn is_narrow(&self) -> bool
        ensures narrow { IsTrue result ↔ IsNarrow self.now }
    {
        are_narrow(&self.terms)
    }
}
