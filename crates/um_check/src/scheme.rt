//! The check of a Yes.

ghost use Rattle.std.specs.Prelude.{◌≡◌, ◌↔◌, ◌≤◌, IfOk, IsTrue, All, length, pos, ◌<ℤ◌};
ghost use Rattle.um_units.specs.PowerMap.{nth};
ghost use Rattle.um_tree.specs.ProgramTree.{scheme_tree};
ghost use Rattle.um_tree.specs.Typing.{put_signature};
ghost use Rattle.um_rows.specs.Answers.{rows_signature};
ghost use Rattle.um_equal_types.specs.Steps.{units_of};
ghost use Rattle.um_check.specs.Tests.{IsSized};
ghost use Rattle.um_check.specs.Validity.{IsValidYes, HoldSlots, IsExactScheme};

use crate::Yes;
use crate::becomes::{solves, type_becomes, types_become};
use crate::below::{is_over_own, units_below};
use crate::comes_back::all_come_back;
use crate::general::shows_general;
use std::alloc::Global;
use um_rows::{Row, Rows};
use um_tree::Scheme;
use um_units::{NoMemory, Unit};

/// Whether there is a unit and a list of parts for each slot and a way back for each variable, the divisor is positive,
/// and variables are below their numbers.
fn is_sized(slots: u32, scheme: &Scheme, cert: &Yes) -> bool
    ensures sized { IsTrue result ↔ IsSized slots (scheme_tree scheme.now) cert.now }
    ensures few { slots ≤ 4294967295 }
{
    let solution = cert.solution.as_slice();
    if solution.len() != slots as usize {
        return false;
    }
    if cert.parts.as_slice().len() != solution.len() {
        return false;
    }
    let back = cert.back.as_slice();
    if back.len() != cert.vars as usize {
        return false;
    }
    if cert.divisor <= 0 {
        return false;
    }
    units_below(solution, cert.vars) && is_over_own(scheme)
}

/// Whether the units, put for the slots, give the scheme's types.
fn gives_scheme(
    alloc: Global,
    rows: &Rows,
    scheme: &Scheme,
    units: &[Unit],
) -> Result<bool, NoMemory>
    ensures { IfOk result (λ b. IsTrue b
        ↔ (put_signature (nth units.now) (rows_signature rows.now) ≡ (scheme_tree scheme.now).signature)) }
{
    if !types_become(alloc, &rows.params.items, units, &scheme.params.items)? {
        return Ok(false);
    }
    let shown = type_becomes(alloc, &rows.result, units, &scheme.result)?;
    Ok(shown)
}

/// Whether the certificate is valid for the scheme of a function with these rows with this number of unit parameters,
/// in a program with this number of base units. Then the scheme's instances are exactly what the joint solutions of the
/// rows give for the function's types, and with unit parameters some joint solution has a unit of its own for each.
///
/// It adds up powers, at 128 bits, and eliminates nothing.
pub fn check_yes(
    alloc: Global,
    rows: &Rows,
    units: u32,
    bases: u32,
    scheme: &Scheme,
    cert: &Yes,
) -> Result<bool, NoMemory>
    requires few { All (λ parts. length parts ≤ 4294967295) cert.now.parts }
    ensures exact { IfOk result (λ b. IsTrue b ↔ IsValidYes bases units rows.now.slots
        (units_of rows.now.list.items.items) (rows_signature rows.now) (scheme_tree scheme.now) cert.now) }
    ensures shows { IfOk result (λ b. IsTrue b → HoldSlots rows.now → IsExactScheme rows.now (scheme_tree scheme.now)) }
{
    let list: &[Row] = &rows.list.items;
    let solution = cert.solution.as_slice();
    if !is_sized(rows.slots, scheme, cert) {
        return Ok(false);
    }
    if !solves(alloc, list, solution)? {
        return Ok(false);
    }
    if !gives_scheme(alloc, rows, scheme, solution)? {
        return Ok(false);
    }
    if !shows_general(alloc, rows, units, bases, cert.rigid.as_slice())? {
        return Ok(false);
    }
    let back = cert.back.as_slice();
    let parts = cert.parts.as_slice();
    let all = all_come_back(alloc, list, solution, back, cert.divisor, parts)?;
    Ok(all)
}
