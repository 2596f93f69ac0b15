//! Units of measure as products of powers of base units and unit variables.
//!
//! Units form the free abelian group on these atoms (Kennedy, Programming Languages and Dimensions, 1996), and two
//! measures are equal by its laws (F# specification, Units Of Measure). In contracts a unit is its exact value, a
//! `PowerMap`, whose powers have no bound. The powers of a `Unit` lie in -2147483647..2147483647, which is this
//! project's own, and an operation answers Range exactly if its exact result has a power outside.
//!
//! ```
//! let metre = Unit::atom(alloc, Atom::Base(0))?;
//! let second = Unit::atom(alloc, Atom::Base(1))?;
//! let speed = metre.mul_pow(alloc, &second, -1)?; // m/s
//! let area = metre.pow(alloc, 2)?; // m^2, or UnitStop::Range
//! ```
#![tactic(auto)]

ghost use Rattle.std.specs.Prelude.{◌≡◌, ◌↔◌, IfOk, IsTrue, map, negsuc};
ghost use Rattle.std.specs.List.{find};
ghost use Rattle.std.specs.Option.{option_copied};
ghost use Rattle.um_units.specs.Atoms.{same_atom};
ghost use Rattle.um_units.specs.PowerMap.{one, atom, mul, inv, pow, power_of, product, replace, nth, scale};
ghost use Rattle.um_units.specs.Range.{all_in_range, fits, IsKept, RangeUnless};
ghost use Rattle.um_units.specs.Terms.{is_normal};
ghost use Rattle.um_units.specs.Variables.{variables_below};
ghost use Rattle.um_units.specs.Wide.{as_terms};

use std::alloc::{AllocError, AllocFailed, Global};
use std::marker::Model;
use thiserror::Error;

mod closed;
mod few;
mod images;
mod kept;
mod merge;
mod short;
mod staying;
mod terms;
pub mod wide;

use terms::Terms;
use wide::WideTerm;

/// Want of memory, if nothing else can go wrong.
pub type NoMemory = AllocError;

/// A base unit or a unit variable, by its number. Base units come before variables, each kind by its number.
#[derive(Clone, Copy, PartialEq, Eq, PartialOrd, Ord, Hash)]
pub enum Atom {
    Base(u32),
    Var(u32),
}

/// An atom and its power.
#[derive(Clone, Copy, PartialEq, Eq)]
pub struct Term {
    pub atom: Atom,
    pub power: i32,
}

/// Why an operation on units gives none.
#[derive(Clone, Copy, Debug, Error)]
pub enum UnitStop {
    /// A power of the result lies outside -2147483647..2147483647.
    #[error("a power is out of range")]
    Range,
    /// No memory was left.
    #[error("out of memory")]
    NoMemory,
}

impl<T: Drop> From<AllocFailed<T>> for UnitStop {
    ghost use Rattle.std.specs.Prelude.{◌≡◌};
    ghost use Rattle.um_units.specs.declared.UnitStop.TheVariants.{NoMemory};

    ghost from_gives = { λ _ stop. stop ≡ NoMemory };

    fn from(_failed: AllocFailed<T>) -> UnitStop {
        UnitStop::NoMemory
    }
}

impl From<AllocError> for UnitStop {
    ghost use Rattle.std.specs.Prelude.{◌≡◌};
    ghost use Rattle.um_units.specs.declared.UnitStop.TheVariants.{NoMemory};

    ghost from_gives = { λ _ stop. stop ≡ NoMemory };

    fn from(_error: AllocError) -> UnitStop {
        UnitStop::NoMemory
    }
}

/// A unit: a finite map from atoms to powers other than 0.
pub struct Unit {
    terms: Terms,
}

// A derived drop would be proved anew in each crate that lets units go. This one is proved here.
impl Drop for Unit {
    fn drop(self) {
        let Unit { terms: _ } = self;
    }
}

impl Model for Unit {
    ghost use Rattle.um_units.specs.PowerMap.{PowerMap, product};
    ghost use Rattle.um_units.specs.PowerMapCode.{power_map_code};

    ghost Value = { PowerMap };

    ghost coded = { power_map_code };

    ghost use Rattle.um_units.specs.Range.{IsKept};

    ghost view = { λ unit. product unit.terms };

    ghost invariant = { λ unit. IsKept unit.terms };
}

impl Unit {
    /// The dimensionless unit. Takes no memory.
    pub fn one(_alloc: Global) -> Unit
        ensures exact { result ≡ one }
    {
        Unit {
            terms: Terms::new(),
        }
    }

    /// The unit that is the atom itself.
    pub fn atom(_alloc: Global, a: Atom) -> Result<Unit, NoMemory>
        ensures exact { IfOk result (λ unit. unit ≡ atom a) }
    {
        Ok(Unit {
            terms: Terms::one(Term { atom: a, power: 1 }),
        })
    }

    /// The product of the terms, in which an atom may occur more than once, in any order.
    ///
    /// Range comes exactly if a power of the product is out of range, however large the powers in between are. It takes
    /// about n log n steps for n terms, and n if their atoms rise.
    pub fn from_terms(alloc: Global, terms: &[Term]) -> Result<Unit, UnitStop>
        ensures exact { IfOk result (λ unit. unit ≡ product terms.now) }
        ensures range { RangeUnless result (fits (product terms.now)) }
    {
        if kept::are_kept(terms) {
            return Ok(Unit::of_kept(alloc, terms)?);
        }
        let sum = images::product(alloc, terms, &[])?;
        Unit::of_sum(alloc, &sum)
    }

    /// The unit of terms that a unit keeps.
    fn of_kept(alloc: Global, terms: &[Term]) -> Result<Unit, NoMemory>
        requires { IsKept terms.now }
        ensures exact { IfOk result (λ unit. unit ≡ product terms.now) }
        ensures fits { IsTrue (fits (product terms.now)) }
    {
        let terms = Terms::from_slice(alloc, terms)?;
        Ok(Unit { terms })
    }

    /// An equal unit.
    pub fn copy(&self, alloc: Global) -> Result<Unit, NoMemory>
        ensures same { IfOk result (λ unit. unit ≡ self.now) }
        ensures fits { IsTrue (fits self.now) }
    {
        let terms = self.terms.copy(alloc)?;
        Ok(Unit { terms })
    }

    /// The pairs of the map: base units before variables, each kind by its number, and no power 0. Takes no memory.
    pub fn terms(&self) -> &[Term]
        ensures terms { result.now ≡ self.now.terms }
        ensures fits { IsTrue (fits self.now) }
    {
        self.terms.as_slice()
    }

    /// Whether the unit holds no variable. Takes no memory, and one step however many terms there are, since variables
    /// come after base units.
    pub fn is_closed(&self) -> bool
        ensures closed { result ≡ variables_below 0 self.now.terms }
        ensures fits { IsTrue (fits self.now) }
    {
        closed::are_closed(self.terms())
    }

    /// The power of an atom, which is 0 if the unit doesn't hold it. Takes no memory.
    pub fn power_of(&self, a: Atom) -> i32
        ensures power { result ≡ power_of self.now a }
        ensures fits { IsTrue (fits self.now) }
    {
        match term_of(self.terms.as_slice(), a) {
            Some(term) => term.power,
            None => 0,
        }
    }

    /// Whether both are the same unit. Takes no memory.
    pub fn same(&self, other: &Unit) -> bool
        ensures same { IsTrue result ↔ (self.now ≡ other.now) }
    {
        self.terms.as_slice() == other.terms.as_slice()
    }

    /// The product: the powers of each atom are added, and an atom whose powers cancel is dropped.
    ///
    /// Range comes exactly if a power of the product is out of range.
    pub fn mul(&self, alloc: Global, other: &Unit) -> Result<Unit, UnitStop>
        ensures exact { IfOk result (λ unit. unit ≡ mul self.now other.now) }
        ensures range { RangeUnless result (fits (mul self.now other.now)) }
    {
        self.mul_pow(alloc, other, 1)
    }

    /// The unit times the k-th power of the other.
    ///
    /// Range comes exactly if a power of the result is out of range, also if one of the other's k-th power is and the
    /// result's isn't.
    #[inline(always)]
    pub fn mul_pow(&self, alloc: Global, other: &Unit, k: i32) -> Result<Unit, UnitStop>
        ensures exact { IfOk result (λ unit. unit ≡ mul self.now (pow other.now k)) }
        ensures range { RangeUnless result (fits (mul self.now (pow other.now k))) }
    {
        let terms = merge::times_power(alloc, self.terms.as_slice(), other.terms.as_slice(), k)?;
        Ok(Unit { terms })
    }

    /// The inverse: each power is negated. The range is symmetric, so that no power leaves it.
    pub fn inv(&self, alloc: Global) -> Result<Unit, NoMemory>
        ensures exact { IfOk result (λ unit. unit ≡ inv self.now) }
        ensures fits { IsTrue (fits (inv self.now)) }
    {
        let terms = inverted(alloc, self.terms.as_slice())?;
        Ok(Unit { terms })
    }

    /// The k-th power: each power is multiplied by k.
    ///
    /// Range comes exactly if a power of the result is out of range.
    pub fn pow(&self, alloc: Global, k: i32) -> Result<Unit, UnitStop>
        ensures exact { IfOk result (λ unit. unit ≡ pow self.now k) }
        ensures range { RangeUnless result (fits (pow self.now k)) }
    {
        let one = Unit::one(alloc);
        one.mul_pow(alloc, self, k)
    }

    /// The unit with `by[k]` put for each variable k. Base units stay, and so does a variable that has no unit in `by`.
    ///
    /// Range comes exactly if a power of the result is out of range, however large the powers in between are. It takes
    /// about n log m steps for m variables for which n terms are put in, and one for each base unit.
    pub fn replace(&self, alloc: Global, by: &[Unit]) -> Result<Unit, UnitStop>
        ensures exact { IfOk result (λ unit. unit ≡ replace (nth by.now) self.now) }
        ensures range { RangeUnless result (fits (replace (nth by.now) self.now)) }
    {
        if self.terms().is_empty() {
            return Ok(Unit::one(alloc));
        }
        if self.stays(by) {
            return Ok(self.copy(alloc)?);
        }
        match self.terms() {
            [term] => short::put_in_power(alloc, by, self, *term),
            [first, second] => short::put_in_pair(alloc, by, self, *first, *second),
            _ => self.replace_terms(alloc, by),
        }
    }

    /// Whether `by` puts for each atom of the unit that atom itself, so that `replace` gives the same unit. Takes no
    /// memory.
    pub fn stays(&self, by: &[Unit]) -> bool
        ensures stays { IsTrue result → replace (nth by.now) self.now ≡ self.now }
        ensures fits { IsTrue (fits self.now) }
    {
        if self.is_closed() {
            return true;
        }
        staying::all_stay(by, self.terms())
    }

    /// The same as `replace`, however many terms there are.
    fn replace_terms(&self, alloc: Global, by: &[Unit]) -> Result<Unit, UnitStop>
        ensures exact { IfOk result (λ unit. unit ≡ replace (nth by.now) self.now) }
        ensures range { RangeUnless result (fits (replace (nth by.now) self.now)) }
    {
        let (base_units, others) = images::parted(self.terms.as_slice());
        if others.is_empty() {
            return Ok(self.copy(alloc)?);
        }
        let sum = images::times_product(alloc, base_units, others, by)?;
        Unit::of_sum(alloc, &sum)
    }

    /// The unit of the terms, which are in normal form.
    fn of_sum(alloc: Global, sum: &[WideTerm]) -> Result<Unit, UnitStop>
        requires { IsTrue (is_normal (as_terms sum.now)) }
        ensures exact { IfOk result (λ unit. unit ≡ product (as_terms sum.now)) }
        ensures range { RangeUnless result (fits (product (as_terms sum.now))) }
    {
        let terms = wide::narrowed(alloc, sum)?;
        Ok(Unit { terms })
    }
}

/// The term of the atom, of which a unit has at most one.
fn term_of(terms: &[Term], a: Atom) -> Option<&Term>
    ensures { option_copied result ≡ find (λ term. same_atom a term.atom) terms.now }
{
    terms.iter().find(|term| term.atom == a)
}

/// The terms with each power negated.
fn inverted(alloc: Global, terms: &[Term]) -> Result<Terms, AllocError>
    requires { IsTrue (all_in_range terms.now) }
    ensures { IfOk result (λ v. v ≡ map (scale (negsuc 0)) terms.now) }
{
    let mut out = Terms::new();
    for term in terms {
        let power = -term.power;
        out.push(
            alloc,
            Term {
                atom: term.atom,
                power,
            },
        )?;
    }
    Ok(out)
}

/// A list of units.
pub struct Units {
    items: Vec<Unit>,
}

// A derived drop would be proved anew in each crate that lets units go. This one is proved here.
impl Drop for Units {
    fn drop(self) {
        let Units { items: _ } = self;
    }
}

impl Model for Units {
    ghost use Rattle.std.specs.Prelude.{List};
    ghost use Rattle.std.specs.Coded.{coded_list};
    ghost use Rattle.um_units.specs.PowerMap.{PowerMap};
    ghost use Rattle.um_units.specs.PowerMapCode.{power_map_code};

    ghost Value = { List PowerMap };

    ghost coded = { coded_list power_map_code };

    ghost view = { λ units. units.items.items };
}

impl Units {
    /// The list of the units. Takes no memory.
    pub fn from_vec(items: Vec<Unit>) -> Units
        ensures items { result ≡ items.items }
    {
        Units { items }
    }

    /// The units, in order. Takes no memory.
    pub fn into_vec(self) -> Vec<Unit>
        ensures items { result.items ≡ self }
    {
        let Units { items } = self;
        items
    }

    /// The units, in order. Takes no memory.
    pub fn as_slice(&self) -> &[Unit]
        ensures items { result.now ≡ self.now }
    {
        &self.items
    }

    /// An equal list.
    pub fn copy(&self, alloc: Global) -> Result<Units, NoMemory>
        ensures same { IfOk result (λ units. units ≡ self.now) }
    {
        let mut items = Vec::new(alloc);
        for unit in &self.items {
            items.push(unit.copy(alloc)?)?;
        }
        Ok(Units { items })
    }
}
