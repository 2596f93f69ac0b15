//! Rows treated one after another.

ghost use Rattle.std.specs.Prelude.{◌≡◌, ◌≤◌, ◌<◌, ◌+◌, ◌^◌, ℕ, All, length, pos, IfOk, MatchResult};
ghost use Rattle.um_units.specs.declared.Atom.TheVariants.{Base};
ghost use Rattle.um_units.specs.PowerMap.{power_of};
ghost use Rattle.um_units.specs.Variables.{VariablesBelow};
ghost use Rattle.um_equal_types.specs.declared.row.Row.{Row as RowData};
ghost use Rattle.um_wide.specs.Room.{IsNarrow};
ghost use Rattle.um_check.specs.Combination.{NamesRowsBelow};
ghost use Rattle.um_check.specs.Existence.{exponents};
ghost use Rattle.um_check.specs.Tidy.{AreTidyParts};
ghost use Rattle.um_kept.specs.Answers.{AreMade, CarriesInRows};

use crate::CertStop;
use crate::kept::{Head, PartialCertificate, first_kept};
use crate::row::{Refused, make_row};
use std::alloc::Global;
use um_check::{Part, Parts};
use um_rows::Row;
use um_units::{Atom, NoMemory};
use um_wide::WideUnit;

/// What rows come to: what is kept after all of them, or the first that has no solution together with those before it.
pub enum Treated {
    Made(PartialCertificate),
    Refused { row: u32, refused: Refused },
}

/// Treats the rows in order.
pub fn make_rows(alloc: Global, head: Head, rows: &[Row]) -> Result<Treated, CertStop>
    requires few { head.slots ≤ 2000 }
    requires parameters { head.parameters ≤ head.slots }
    requires bases { head.bases + head.parameters < 2 ^ 32 }
    requires rows { All (λ (row : RowData). VariablesBelow head.slots row.unit) rows.now }
    requires number { length rows.now ≤ 4294967295 }
    ensures { MatchResult result (AreMade head rows.now) (CarriesInRows head rows.now) }
{
    let mut partial = first_kept(alloc, head)?;
    for k in 0..rows.len() {
        match make_row(alloc, &mut partial, head, k as u32, &rows[k].unit) {
            Ok(None) => {}
            Ok(Some(refused)) => {
                drop(partial);
                return Ok(Treated::Refused {
                    row: k as u32,
                    refused,
                });
            }
            Err(stop) => {
                drop(partial);
                return Err(stop);
            }
        }
    }
    Ok(Treated::Made(partial))
}

/// The powers of rows as parts, in the order of the rows.
pub fn parts_of(alloc: Global, powers: &WideUnit) -> Result<Parts, NoMemory>
    requires narrow { IsNarrow powers.now }
    requires rows { (n : ℕ) → power_of powers.now (Base n) ≡ pos 0 }
    ensures exact { IfOk result (λ parts. exponents parts ≡ powers.now) }
    ensures named { (n : ℕ) → VariablesBelow n powers.now → IfOk result (NamesRowsBelow n) }
    ensures tidy { (n : ℕ) → n ≤ 4294967295 → VariablesBelow n powers.now → IfOk result AreTidyParts }
{
    let mut items = Vec::new(alloc);
    for term in powers.terms() {
        match term.atom {
            Atom::Var(row) => items.push(Part {
                row,
                times: term.power as i64,
            })?,
            Atom::Base(_) => unreachable!(),
        }
    }
    Ok(Parts::from_vec(items))
}
