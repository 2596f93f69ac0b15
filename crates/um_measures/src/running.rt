//! Products of many units, which grow by one unit after another.

ghost use Rattle.std.specs.Prelude.{◌≡◌, IfOk, OnOk, ◌+ℤ◌};
ghost use Rattle.um_units.specs.PowerMap.{one, mul};
ghost use Rattle.um_units.specs.Range.{fits, in_range, RangeUnless};
ghost use Rattle.um_measures.specs.RunningPowers.{power_at, Raises};

use std::alloc::{AllocError, Global};
use std::collections::HashMap;
use std::marker::Model;
use um_units::{Atom, Term, Unit, UnitStop};

/// The greatest absolute power that a unit may have.
const MAX_POWER: u64 = 2147483647;

/// A product that grows by one unit after another. Each step takes time linear in that unit alone.
pub(crate) struct RunningProduct {
    /// The terms of all units so far, in which an atom may stand more than once.
    terms: Vec<Term>,
    /// The power of each atom in their product.
    powers: HashMap<Atom, i32>,
}

// A derived drop would be proved anew in each crate that lets products go. This one is proved here.
impl Drop for RunningProduct {
    fn drop(self) {
        let RunningProduct {
            terms: _,
            powers: _,
        } = self;
    }
}

impl Model for RunningProduct {
    ghost use Rattle.um_units.specs.PowerMap.{PowerMap, product};
    ghost use Rattle.um_units.specs.PowerMapCode.{power_map_code};
    ghost use Rattle.um_measures.specs.RunningPowers.{ArePowersOf};

    ghost Value = { PowerMap };

    ghost coded = { power_map_code };

    ghost view = { λ running. product running.terms.items };

    ghost invariant = { λ running. ArePowersOf running.powers running.terms.items };
}

impl RunningProduct {
    /// The product of no units. Takes no memory.
    pub fn new(alloc: Global) -> RunningProduct
        ensures { result ≡ one }
    {
        let powers = HashMap::new(alloc);
        RunningProduct {
            terms: Vec::new(alloc),
            powers,
        }
    }

    /// The product times a unit. Range comes exactly where a power of the result is out of range.
    pub fn times(self, unit: &Unit) -> Result<RunningProduct, UnitStop>
        ensures exact { IfOk result (λ running. running ≡ mul self unit.now) }
        ensures range { RangeUnless result (fits (mul self unit.now)) }
    {
        let RunningProduct {
            mut terms,
            mut powers,
        } = self;
        let factors = unit.terms();
        for term in factors {
            raise(&mut powers, *term)?;
            terms.push(*term)?;
        }
        Ok(RunningProduct { terms, powers })
    }

    /// The product as a unit. It takes about n log n steps for n terms.
    pub fn to_unit(&self, alloc: Global) -> Result<Unit, AllocError>
        ensures { IfOk result (λ unit. unit ≡ self.now) }
    {
        match Unit::from_terms(alloc, &self.terms) {
            Ok(unit) => Ok(unit),
            Err(UnitStop::NoMemory) => Err(AllocError),
            Err(UnitStop::Range) => unreachable!(),
        }
    }
}

/// The power of an atom, which is 0 where there is none.
fn power_at(powers: &HashMap<Atom, i32>, atom: Atom) -> i32
    ensures { result ≡ power_at powers.now atom }
{
    match powers.get(&atom) {
        Some(power) => *power,
        None => 0,
    }
}

/// Adds the term's power to that of its atom. Range comes exactly where the sum is out of range.
fn raise(powers: &mut HashMap<Atom, i32>, term: Term) -> Result<(), UnitStop>
    ensures exact { OnOk result (Raises powers.old powers.new term) }
    ensures range { RangeUnless result (in_range (power_at powers.old term.atom +ℤ term.power)) }
{
    let power = i64::from(power_at(powers, term.atom)) + i64::from(term.power);
    if power.unsigned_abs() > MAX_POWER {
        return Err(UnitStop::Range);
    }
    powers.insert(term.atom, power as i32)?;
    Ok(())
}
