//! The making of a No.

ghost use Rattle.std.specs.Prelude.{◌≡◌, ◌≤◌, ◌<◌, ℕ, true, false, List, All, length, pos, IfOk, IfErr};
ghost use Rattle.um_units.specs.declared.Atom.TheVariants.{Base};
ghost use Rattle.um_units.specs.PowerMap.{PowerMap, power_of};
ghost use Rattle.um_units.specs.Variables.{VariablesBelow};
ghost use Rattle.um_elim.specs.Solution.{own_variables};
ghost use Rattle.um_wide.specs.Room.{IsNarrow};
ghost use Rattle.um_equal_types.specs.declared.row.Row.{Row as RowData};
ghost use Rattle.um_rows.specs.FirstUnsolvable.{out_of_range, rows_up_to, solve, solved, unsolved};
ghost use Rattle.um_equal_types.specs.Steps.{units_of};
ghost use Rattle.um_check.specs.Combination.{NamesRowsBelow};
ghost use Rattle.um_check.specs.Refutation.{IsValidNo};
ghost use Rattle.um_check.specs.Existence.{exponents};
ghost use Rattle.um_check.specs.Tidy.{IsTidyNo};
ghost use Rattle.um_kept.specs.declared.stop.CertStop.TheVariants.{NoMemory};
ghost use Rattle.um_kept.specs.Answers.{AreRefused, CarriesInRows};
ghost use Rattle.um_proof.specs.Answers.{AreFunctionRows, judged, IsRefused, IsNoMade};

use std::alloc::{AllocError, Global};
use um_check::No;
use um_elim::{ElimStop, Solver};
use um_kept::{CertStop, Head, Refused, Treated, make_rows, parts_of};
use um_rows::{Row, Rows};

/// A certificate that `infer` refuses a function with these rows, with this number of unit parameters, in a program
/// with this number of declared base units. It names the first unsolvable row.
///
/// It is `loose` if the rows up to that one have no solution with the unit parameters as slots like the others.
/// CertRange comes only if one of the numbers that are formed for it overflows what a certificate can hold, and carries
/// the number. With Ok the certificate is valid and tidy.
pub fn make_no(alloc: Global, rows: &Rows, units: u32, bases: u32) -> Result<No, CertStop>
    requires rows { AreFunctionRows bases units rows.now }
    requires refused { IsRefused (judged bases units 0 rows.now) }
    ensures made { IsNoMade bases units rows.now (judged bases units 0 rows.now) result }
    ensures tidy { IfOk result IsTidyNo }
{
    let head = Head {
        slots: rows.slots,
        parameters: units,
        bases,
    };
    match make_rows(alloc, head, &rows.list.items) {
        Ok(Treated::Refused { row, refused }) => refusal(alloc, rows, units, bases, row, refused),
        Ok(Treated::Made(partial)) => {
            drop(partial);
            unreachable!()
        }
        Err(stop) => Err(stop),
    }
}

/// The No of the rows that are refused at this one with each unit parameter as a unit of its own.
fn refusal(
    alloc: Global,
    rows: &Rows,
    units: u32,
    bases: u32,
    row: u32,
    refused: Refused,
) -> Result<No, CertStop>
    requires rows { AreFunctionRows bases units rows.now }
    requires judged { IsRefused (judged bases units 0 rows.now) }
    requires refused { AreRefused (record { slots = rows.now.slots; parameters = units; bases = bases })
        rows.now.list.items.items row refused }
    ensures made { IsNoMade bases units rows.now (judged bases units 0 rows.now) result }
    ensures tidy { IfOk result IsTidyNo }
{
    if units == 0 {
        return no_of(alloc, true, row, refused);
    }
    match have_solution(alloc, rows.slots, up_to(&rows.list.items, row)) {
        Ok(true) => no_of(alloc, false, row, refused),
        Ok(false) => {
            drop(refused);
            loose_no(alloc, rows.slots, bases, &rows.list.items, row)
        }
        Err(_error) => {
            drop(refused);
            Err(CertStop::NoMemory)
        }
    }
}

/// The rows up to this one.
fn up_to(rows: &[Row], row: u32) -> &[Row]
    requires { row < length rows.now }
    ensures { result.now ≡ rows_up_to row rows.now }
{
    &rows[..row as usize + 1]
}

/// The No of rows that have no solution up to the last with the unit parameters as slots like the others.
fn loose_no(alloc: Global, slots: u32, bases: u32, rows: &[Row], last: u32) -> Result<No, CertStop>
    requires few { slots ≤ 2000 }
    requires number { length rows.now ≤ 4294967295 }
    requires rows { All (λ (row : RowData). VariablesBelow slots row.unit) rows.now }
    requires last { last < length rows.now }
    requires refused { (row at : ℕ) × (solve 0 (rows_up_to last rows.now) (own_variables slots) ≡ unsolved row at) }
    ensures valid { (parameters : ℕ) → IfOk result (IsValidNo bases parameters (units_of rows.now)) }
    ensures last { IfOk result (λ no. no.last ≡ last) }
    ensures loose { IfOk result (λ no. no.loose ≡ true) }
    ensures tidy { IfOk result IsTidyNo }
    ensures range { IfErr result (CarriesInRows (record { slots = slots; parameters = 0; bases = bases }) rows.now) }
{
    let head = Head {
        slots,
        parameters: 0,
        bases,
    };
    match make_rows(alloc, head, rows) {
        Ok(Treated::Refused { row: _, refused }) => no_of(alloc, true, last, refused),
        Ok(Treated::Made(partial)) => {
            drop(partial);
            unreachable!()
        }
        Err(stop) => Err(stop),
    }
}

/// Whether the rows have a joint solution, no power of which is out of range.
fn have_solution(alloc: Global, slots: u32, rows: &[Row]) -> Result<bool, AllocError>
    requires few { slots ≤ 2000 }
    requires rows { All (λ (row : RowData). VariablesBelow slots row.unit) rows.now }
    requires range { (at : ℕ) → solve 0 rows.now (own_variables slots) ≡ out_of_range at → ⊥ }
    ensures solved { IfOk result (λ b. b ≡ true
        → (units : List PowerMap) × (solve 0 rows.now (own_variables slots) ≡ solved units)) }
    ensures unsolved { IfOk result (λ b. b ≡ false
        → (row at : ℕ) × (solve 0 rows.now (own_variables slots) ≡ unsolved row at)) }
{
    let mut solver = Solver::new(alloc, slots)?;
    let found = add_rows(alloc, &mut solver, rows);
    drop(solver);
    found
}

/// Whether each row can be added.
fn add_rows(alloc: Global, solver: &mut Solver, rows: &[Row]) -> Result<bool, AllocError>
    requires unspent { solver.old.spent ≡ false }
    requires rows { All (λ (row : RowData). VariablesBelow (length solver.old.units) row.unit) rows.now }
    requires range { (at : ℕ) → solve 0 rows.now solver.old.units ≡ out_of_range at → ⊥ }
    ensures solved { IfOk result (λ b. b ≡ true
        → (units : List PowerMap) × (solve 0 rows.now solver.old.units ≡ solved units)) }
    ensures unsolved { IfOk result (λ b. b ≡ false
        → (row at : ℕ) × (solve 0 rows.now solver.old.units ≡ unsolved row at)) }
{
    for row in rows {
        match solver.add(alloc, &row.unit) {
            Ok(()) => {}
            Err(ElimStop::NoSolution) => return Ok(false),
            Err(ElimStop::NoMemory) => return Err(AllocError),
            Err(ElimStop::Range) => unreachable!(),
            Err(ElimStop::Spent) => unreachable!(),
        }
    }
    Ok(true)
}

fn no_of(alloc: Global, loose: bool, last: u32, refused: Refused) -> Result<No, CertStop>
    requires narrow { IsNarrow refused.total }
    requires rows { (n : ℕ) → power_of refused.total (Base n) ≡ pos 0 }
    ensures loose { IfOk result (λ no. no.loose ≡ loose) }
    ensures last { IfOk result (λ no. no.last ≡ last) }
    ensures modulus { IfOk result (λ no. no.modulus ≡ refused.modulus) }
    ensures parts { IfOk result (λ no. exponents no.parts ≡ refused.total) }
    ensures named { (n : ℕ) → VariablesBelow n refused.total → IfOk result (λ no. NamesRowsBelow n no.parts) }
    ensures tidy { (n : ℕ) → n ≤ 4294967295 → VariablesBelow n refused.total → IfOk result IsTidyNo }
    ensures memory { IfErr result (λ stop. stop ≡ NoMemory) }
{
    let made = parts_of(alloc, &refused.total);
    let modulus = refused.modulus;
    drop(refused);
    Ok(No {
        loose,
        last,
        modulus,
        parts: made?,
    })
}
