//! Products of rows to powers.

ghost use Rattle.std.specs.Prelude.{◌≡◌, ◌↔◌, ◌*◌, ◌≤◌, IfOk, IsTrue, length};
ghost use Rattle.um_wide.specs.Room.{IsWithin};
ghost use Rattle.um_equal_types.specs.Steps.{units_of};
ghost use Rattle.um_check.specs.Combination.{combined, NamesRowsBelow};

use crate::Part;
use std::alloc::Global;
use um_rows::Row;
use um_units::NoMemory;
use um_wide::WideUnit;

/// Whether each part names one of so many rows.
pub fn names_below(parts: &[Part], rows: usize) -> bool
    ensures { IsTrue result ↔ NamesRowsBelow rows parts.now }
{
    parts.iter().all(|part| (part.row as usize) < rows)
}

/// The product of the rows that the parts name, by halves.
pub fn product_of_rows(alloc: Global, rows: &[Row], parts: &[Part]) -> Result<WideUnit, NoMemory>
    requires named { NamesRowsBelow (length rows.now) parts.now }
    requires few { length parts.now ≤ 4294967295 }
    ensures product { IfOk result (λ wide. wide ≡ combined (units_of rows.now) parts.now) }
    ensures room { IfOk result (IsWithin (length parts.now * (9223372036854775808 * 2147483647))) }
{
    match parts {
        [] => Ok(WideUnit::one(alloc)),
        [part] => WideUnit::power(alloc, &rows[part.row as usize].unit, part.times),
        _ => {
            let (front, back) = parts.split_at(parts.len() / 2);
            let left = product_of_rows(alloc, rows, front)?;
            let right = product_of_rows(alloc, rows, back)?;
            left.mul(alloc, &right)
        }
    }
}
