// The sizes of base units.
ghost use Rattle.std.specs.Prelude.{◌≡◌, ◌<◌, ◌≤ℤ◌, All, IfOk, IfSome, length, pos, set};
ghost use Rattle.um_frac.specs.Fraction.{numerator, denominator};
ghost use Rattle.um_scaling.specs.Rescaling.{factor};
ghost use Rattle.um_scale.specs.Sizes.{AreSizes, size_of, sizes, times_power, factor_within, IsFactor};

use std::alloc::Global;
use std::marker::Model;
use um_frac::Frac;
use um_units::{Atom, NoMemory, Term, Unit};

/// A positive number for each base unit: how many of its new size make one of its old size.
///
/// Contracts see the list of these numbers.
#[derive(Drop)]
pub struct Scales {
    items: Vec<Frac>,
}

impl Model for Scales {
    ghost use Rattle.std.specs.Prelude.{List};
    ghost use Rattle.std.specs.Coded.{coded_list};
    ghost use Rattle.um_frac.specs.declared.number.Frac.{Frac};
    ghost use Rattle.um_scale.specs.SizesCode.{number_code};
    ghost use Rattle.um_scale.specs.Sizes.{AreSizes};

    ghost Value = { List Frac };

    ghost coded = { coded_list number_code };

    ghost view = { λ scales. scales.items.items };

    ghost invariant = { λ scales. AreSizes scales.items.items };
}

impl Scales {
    /// So many base units, each of the scale 1. `NoMemory` is its one error.
    pub fn ones(alloc: Global, bases: u32) -> Result<Scales, NoMemory>
        ensures many { IfOk result (λ scales. length scales ≡ bases) }
        ensures ones { IfOk result (λ scales. All (λ c. (numerator c ≡ pos 1) × (denominator c ≡ pos 1)) scales) }
    {
        let mut items = Vec::new(alloc);
        for _ in 0..bases {
            items.push(Frac::one())?;
        }
        Ok(Scales { items })
    }

    /// Changes the scale of this base unit and of no other. Takes no memory.
    ///
    /// The base unit is in range, and the scale is above 0.
    pub fn set(&mut self, base: u32, to: Frac)
        requires base { base < length self.old }
        requires positive { pos 1 ≤ℤ numerator to }
        ensures { self.new ≡ set self.old base to }
    {
        self.items[base as usize] = to;
    }

    /// How many base units have a scale. Takes no memory.
    pub fn len(&self) -> usize
        ensures value { result ≡ length self.now }
        ensures positive { AreSizes self.now }
    {
        self.items.len()
    }

    /// The factor of a unit: the product of the scales to the unit's powers, over the base units in order of
    /// declaration.
    ///
    /// A unit variable, and a base unit without a scale, has the scale 1. `None` exactly if one of the powers or
    /// one of the partial products is out of range. Takes no memory.
    ///
    /// The rule is Kennedy's (1997): numbers of a unit change by the product of its base units' factors to their
    /// powers.
    pub fn factor(&self, unit: &Unit) -> Option<Frac>
        ensures value { result ≡ factor_within self.now unit.now }
        ensures exact { IfSome result (λ c. IsFactor (factor (sizes self.now) unit.now) c) }
    {
        let _items = &self.items;
        let mut product = Frac::one();
        for term in unit.terms() {
            product = self.times_power(product, *term)?;
        }
        Some(product)
    }

    /// The scale of the atom, if it has one.
    fn size(&self, atom: Atom) -> Option<Frac>
        ensures { result ≡ size_of self.now atom }
    {
        match atom {
            Atom::Base(base) => self.items.get(base as usize).copied(),
            Atom::Var(_) => None,
        }
    }

    /// The number times the scale of the term's atom to the term's power, if both are in range.
    fn times_power(&self, number: Frac, term: Term) -> Option<Frac>
        ensures { result ≡ times_power (size_of self.now term.atom) number term.power }
    {
        match self.size(term.atom) {
            Some(size) => {
                let power = size.pow(term.power).ok()?;
                number.mul(power).ok()
            }
            None => Some(number),
        }
    }
}
