//! The core of rows that have no joint solution.
ghost use Rattle.std.specs.Prelude.{◌<◌, ◌≤◌, ◌+◌, ◌-◌, ◌^◌, All, IfOk, [], ◌∷◌, length};
ghost use Rattle.um_units.specs.Variables.{VariablesBelow};
ghost use Rattle.um_elim.specs.Solution.{parameter_rows};
ghost use Rattle.um_equal_types.specs.declared.row.Row.{Row};
ghost use Rattle.um_equal_types.specs.Steps.{units_of};
ghost use Rattle.um_reasons.specs.Core.{IsCore};
ghost use Rattle.um_reasons.specs.CoreLaws.{EndsUnsolvable};

use crate::search::{Next, next_row};
use std::alloc::Global;
use um_rows::Row;
use um_units::NoMemory;

/// Rows that have no joint solution, none of which can be left out.
#[derive(Drop)]
pub struct Core {
    /// The numbers of the rows, counted from 0, in the order in which they came in. The last row's is the first.
    pub rows: Vec<usize>,
    /// Whether the core was cut off at 17 rows.
    pub cut_off: bool,
}

/// The core of these rows, of which the last is the first unsolvable one.
///
/// The rows are over so many slots, and the slot of unit parameter k is k. If each unit parameter is a unit of its own,
/// it is the base unit `bases + k`; with no parameters they are slots like the others. A solution counts whatever the
/// size of its powers. The rows are solved with powers in range, and once more with powers of 64 bits if one is out of
/// range. A power that doesn't fit in 64 bits is want of memory. At most 17 times each row is eliminated either way.
pub fn core_of(
    alloc: Global,
    slots: u32,
    bases: u32,
    parameters: u32,
    rows: &[Row],
) -> Result<Core, NoMemory>
    requires few { slots ≤ 2000 }
    requires parameters { parameters ≤ slots }
    requires bases { bases + parameters < 2 ^ 32 }
    requires variables { All (λ (row : Row). VariablesBelow slots row.unit) rows.now }
    requires unsolvable { EndsUnsolvable slots (parameter_rows bases parameters) (units_of rows.now) }
    ensures core { IfOk result (λ core. IsCore slots (parameter_rows bases parameters) (units_of rows.now)
        core.rows.items core.cut_off) }
{
    let mut list = Vec::new(alloc);
    list.push(rows.len() - 1)?;
    for _ in 1..17_usize {
        match next_row(alloc, slots, bases, parameters, rows, &list)? {
            Next::Unsolvable => {
                return Ok(Core {
                    rows: list,
                    cut_off: false,
                });
            }
            Next::Row(j) => list.push(j)?,
        }
    }
    let cut_off = next_row(alloc, slots, bases, parameters, rows, &list)?.has_row();
    Ok(Core {
        rows: list,
        cut_off,
    })
}
