// Unit texts with their heights beside them, so that no height is counted again.
ghost use Rattle.std.specs.Prelude.{◌≡◌, ◌++◌, ◌+◌, ◌∷◌, [], IfOk, map};
ghost use Rattle.um_tree.specs.RawTree.{unit_syntax, units_in_order, one_syntax, measure_syntax, variable_syntax};
ghost use Rattle.um_tree.specs.RawTree.{power_syntax, side_syntax, times_syntax, over_syntax, inverse_syntax};
ghost use Rattle.um_tree.specs.RawTree.{bracket_syntax};
ghost use Rattle.um_tree.specs.Heights.{unit_height, tallest_unit};
ghost use Rattle.um_unit_texts.specs.UnitCount.{counted};

use crate::height::{higher, one_higher};
use crate::name::name_of;
use std::alloc::{AllocError, Global};
use um_syntax::Letters;
use um_tree::{RawUnit, RawUnits};

/// A unit text and its height, counted.
#[derive(Drop)]
pub struct Operand {
    pub unit: RawUnit,
    pub height: u32,
    ghost counted_height: { height ≡ counted (unit_height (unit_syntax unit)) },
}

/// The first unit texts of a juxtaposition and the height of the highest, counted.
#[derive(Drop)]
pub(crate) struct Operands {
    pub units: Vec<RawUnit>,
    pub height: u32,
    ghost counted_height: { height ≡ counted (tallest_unit (units_in_order (map unit_syntax units.items))) },
}

impl Operand {
    ghost use Rattle.um_unit_texts.specs.UnitFrames.{operand_syntax};

    /// `1`
    pub fn one(at: u32) -> Operand
        ensures { operand_syntax result ≡ one_syntax at }
    {
        Operand {
            unit: RawUnit::One(at),
            height: 1,
        }
    }

    /// A measure
    pub fn measure(at: u32, letters: Letters) -> Operand
        ensures { operand_syntax result ≡ measure_syntax at letters }
    {
        Operand {
            unit: RawUnit::Name(at, name_of(letters)),
            height: 1,
        }
    }

    /// A variable
    pub fn variable(at: u32, letters: Letters) -> Operand
        ensures { operand_syntax result ≡ variable_syntax at letters }
    {
        Operand {
            unit: RawUnit::Var(at, name_of(letters)),
            height: 1,
        }
    }

    /// Raised to a power
    pub fn power(self, alloc: Global, power: i32) -> Result<Operand, AllocError>
        ensures { IfOk result (λ p. operand_syntax p ≡ power_syntax (operand_syntax self) power) }
    {
        let Operand { unit, height } = self;
        let unit = RawUnit::Power(Box::new(alloc, unit)?, power);
        Ok(Operand {
            unit,
            height: one_higher(height),
        })
    }

    /// In brackets
    #[inline(always)]
    pub fn bracket(self, alloc: Global, at: u32) -> Result<Operand, AllocError>
        ensures { IfOk result (λ p. operand_syntax p ≡ bracket_syntax at (operand_syntax self)) }
    {
        let Operand { unit, height } = self;
        let unit = RawUnit::Bracket(at, Box::new(alloc, unit)?);
        Ok(Operand {
            unit,
            height: one_higher(height),
        })
    }

    /// After a leading `/`
    pub fn inverse(self, alloc: Global, at: u32) -> Result<Operand, AllocError>
        ensures { IfOk result (λ p. operand_syntax p ≡ inverse_syntax at (operand_syntax self)) }
    {
        let Operand { unit, height } = self;
        let unit = RawUnit::Inverse(at, Box::new(alloc, unit)?);
        Ok(Operand {
            unit,
            height: one_higher(height),
        })
    }

    /// A product
    pub fn times(self, alloc: Global, right: Operand) -> Result<Operand, AllocError>
        ensures { IfOk result (λ p. operand_syntax p ≡ times_syntax (operand_syntax self) (operand_syntax right)) }
    {
        let Operand { unit, height } = self;
        let unit = RawUnit::Times(Box::new(alloc, unit)?, Box::new(alloc, right.unit)?);
        Ok(Operand {
            unit,
            height: one_higher(higher(height, right.height)),
        })
    }

    /// A quotient
    pub fn over(self, alloc: Global, right: Operand) -> Result<Operand, AllocError>
        ensures { IfOk result (λ p. operand_syntax p ≡ over_syntax (operand_syntax self) (operand_syntax right)) }
    {
        let Operand { unit, height } = self;
        let unit = RawUnit::Over(Box::new(alloc, unit)?, Box::new(alloc, right.unit)?);
        Ok(Operand {
            unit,
            height: one_higher(higher(height, right.height)),
        })
    }
}

impl Operands {
    ghost use Rattle.um_unit_texts.specs.UnitFrames.{operand_syntax, operands_syntax};

    /// A juxtaposition begins.
    pub fn empty(alloc: Global) -> Operands
        ensures { operands_syntax result ≡ [] }
    {
        Operands {
            units: Vec::new(alloc),
            height: 0,
        }
    }

    /// With one unit text more
    pub fn with(self, last: Operand) -> Result<Operands, AllocError>
        ensures { IfOk result (λ f. operands_syntax f ≡ operands_syntax self ++ operand_syntax last ∷ []) }
    {
        let Operands { mut units, height } = self;
        let Operand {
            unit,
            height: last_height,
        } = last;
        units.push(unit)?;
        Ok(Operands {
            units,
            height: higher(height, last_height),
        })
    }

    /// The juxtaposition
    pub fn whole(self) -> Operand
        ensures { operand_syntax result ≡ side_syntax (units_in_order (operands_syntax self)) }
    {
        let Operands { units, height } = self;
        Operand {
            unit: RawUnit::Side(RawUnits { items: units }),
            height: one_higher(height),
        }
    }
}
