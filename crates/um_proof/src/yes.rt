//! The making of a Yes.

ghost use Rattle.std.specs.Prelude.{◌≡◌, ◌≤◌, ◌<◌, ℕ, nat_eq, if◌then◌else◌, [], All, filter, map, length, pos, IfOk};
ghost use Rattle.std.specs.Prelude.{MatchResult};
ghost use Rattle.um_units.specs.declared.Atom.TheVariants.{Base, Var};
ghost use Rattle.um_units.specs.declared.Term.{Term as TermData};
ghost use Rattle.um_units.specs.PowerMap.{one, atom, inv, mul, nth, power_of, replace};
ghost use Rattle.um_units.specs.Variables.{VariablesBelow};
ghost use Rattle.um_tree.specs.Formed.{BasesBelow};
ghost use Rattle.um_tree.specs.ProgramTree.{SchemeTree, scheme_tree};
ghost use Rattle.um_wide.specs.Room.{IsNarrow};
ghost use Rattle.um_equal_types.specs.Steps.{units_of};
ghost use Rattle.um_rows.specs.Judgement.{has_scheme};
ghost use Rattle.um_check.specs.Combination.{NamesRowsBelow};
ghost use Rattle.um_check.specs.Validity.{returned};
ghost use Rattle.um_check.specs.Existence.{exponents};
ghost use Rattle.um_check.specs.Tidy.{AreTidyParts, IsTidyYes};
ghost use Rattle.um_kept.specs.Kept.{Kept, IsReached};
ghost use Rattle.um_kept.specs.Answers.{Agrees, CarriesPower, start};
ghost use Rattle.um_proof.specs.Steps.{CarriesReturned};
ghost use Rattle.um_proof.specs.Renaming.{is_base};
ghost use Rattle.um_proof.specs.Answers.{AreFunctionRows, judged, IsYesMade};

use crate::renaming::{Renaming, renamed_solution};
use std::alloc::{AllocError, Global};
use um_check::{PartLists, Parts, Yes};
use um_kept::{CertStop, Head, PartialCertificate, Treated, make_rows, narrowed, parts_of};
use um_rows::Rows;
use um_tree::Scheme;
use um_units::{Atom, NoMemory, Term, Unit, UnitStop, Units};
use um_wide::WideUnit;

/// A certificate of the scheme that `infer` gives a function with these rows, with this number of unit parameters, in a
/// program with this number of declared base units.
///
/// Beside the elimination of the rows an inverse substitution of the solution is kept (Kennedy 1996; what is kept is
/// this project's own). CertRange comes only if one of the numbers that are formed for it overflows what a certificate
/// can hold, and carries the number. With Ok the certificate is valid, and tidy if the rows hold declared base units
/// alone.
pub fn make_yes(
    alloc: Global,
    rows: &Rows,
    units: u32,
    bases: u32,
    scheme: &Scheme,
) -> Result<Yes, CertStop>
    requires rows { AreFunctionRows bases units rows.now }
    requires judged { (at : ℕ) × (judged bases units at rows.now ≡ has_scheme (scheme_tree scheme.now)) }
    ensures made { IsYesMade bases units rows.now (scheme_tree scheme.now) result }
    ensures tidy { All (BasesBelow bases) (units_of rows.now.list.items.items)
        → IfOk result (IsTidyYes bases units) }
{
    let head = Head {
        slots: rows.slots,
        parameters: units,
        bases,
    };
    match make_rows(alloc, head, &rows.list.items) {
        Ok(Treated::Made(partial)) => {
            let made = certificate(alloc, rows, units, bases, &partial);
            drop(partial);
            made
        }
        Ok(Treated::Refused { row: _, refused }) => {
            drop(refused);
            unreachable!()
        }
        Err(stop) => Err(stop),
    }
}

/// The certificate by what is kept after all rows.
fn certificate(
    alloc: Global,
    rows: &Rows,
    units: u32,
    bases: u32,
    partial: &PartialCertificate,
) -> Result<Yes, CertStop>
    requires rows { AreFunctionRows bases units rows.now }
    requires reached { (kept : Kept) × IsReached (units_of rows.now.list.items.items)
        (start (record { slots = rows.now.slots; parameters = units; bases = bases }))
        (length rows.now.list.items.items) kept
        × Agrees (record { slots = rows.now.slots; parameters = units; bases = bases }) partial.now kept }
    requires judged { (at : ℕ) × (s : SchemeTree) × (judged bases units at rows.now ≡ has_scheme s) }
    ensures made { (at : ℕ) (s : SchemeTree) → judged bases units at rows.now ≡ has_scheme s
        → IsYesMade bases units rows.now s result }
    ensures tidy { All (BasesBelow bases) (units_of rows.now.list.items.items)
        → IfOk result (IsTidyYes bases units) }
{
    let head = Head {
        slots: rows.slots,
        parameters: units,
        bases,
    };
    let renaming = renamed_solution(alloc, head, rows, &partial.solution, &partial.back)?;
    match all_return(alloc, &renaming.solution, &renaming.back) {
        Ok(()) => Ok(with_parts(alloc, units, partial, renaming)?),
        Err(stop) => {
            drop(renaming);
            Err(stop)
        }
    }
}

/// The certificate with the renamed solution and its inverse substitution.
fn with_parts(
    alloc: Global,
    units: u32,
    partial: &PartialCertificate,
    renaming: Renaming,
) -> Result<Yes, AllocError>
    requires narrow { All IsNarrow partial.now.parts.items }
    requires rows { All (λ u. (n : ℕ) → power_of u (Base n) ≡ pos 0) partial.now.parts.items }
    ensures vars { IfOk result (λ yes. yes.vars ≡ renaming.vars) }
    ensures solution { IfOk result (λ yes. yes.solution ≡ renaming.solution.items) }
    ensures back { IfOk result (λ yes. yes.back ≡ renaming.back.items) }
    ensures divisor { IfOk result (λ yes. yes.divisor ≡ partial.now.divisor) }
    ensures parts { IfOk result (λ yes. map exponents yes.parts ≡ partial.now.parts.items) }
    ensures named { (n : ℕ) → All (VariablesBelow n) partial.now.parts.items
        → IfOk result (λ yes. All (NamesRowsBelow n) yes.parts) }
    ensures tidy { (n : ℕ) → n ≤ 4294967295 → All (VariablesBelow n) partial.now.parts.items
        → IfOk result (λ yes. All AreTidyParts yes.parts) }
    ensures rigid { IfOk result (λ yes. yes.rigid
        ≡ (if nat_eq units 0 then [] else map (replace (λ _. one)) partial.now.solution.items)) }
{
    let parts = part_lists(alloc, &partial.parts)?;
    let rigid = rigid_solution(alloc, units, &partial.solution)?;
    Ok(Yes {
        vars: renaming.vars,
        solution: Units::from_vec(renaming.solution),
        back: Units::from_vec(renaming.back),
        divisor: partial.divisor,
        parts,
        rigid: Units::from_vec(rigid),
    })
}

/// With unit parameters the units with 1 put for their variables, otherwise none.
fn rigid_solution(alloc: Global, parameters: u32, solution: &[Unit]) -> Result<Vec<Unit>, NoMemory>
    ensures { IfOk result (λ units. units.items
        ≡ (if nat_eq parameters 0 then [] else map (replace (λ _. one)) solution.now)) }
{
    if parameters == 0 {
        return Ok(Vec::new(alloc));
    }
    closed_units(alloc, solution)
}

fn closed_units(alloc: Global, units: &[Unit]) -> Result<Vec<Unit>, NoMemory>
    ensures { IfOk result (λ made. made.items ≡ map (replace (λ _. one)) units.now) }
{
    let mut out = Vec::new(alloc);
    for unit in units {
        out.push(closed(alloc, unit)?)?;
    }
    Ok(out)
}

/// The unit with 1 put for its variables.
fn closed(alloc: Global, unit: &Unit) -> Result<Unit, AllocError>
    ensures { IfOk result (λ made. made ≡ replace (λ _. one) unit.now) }
{
    let terms = base_terms(alloc, unit.terms())?;
    match Unit::from_terms(alloc, &terms) {
        Ok(unit) => Ok(unit),
        Err(UnitStop::NoMemory) => Err(AllocError),
        Err(UnitStop::Range) => unreachable!(),
    }
}

fn base_terms(alloc: Global, terms: &[Term]) -> Result<Vec<Term>, AllocError>
    ensures { IfOk result (λ made. made.items ≡ filter (λ (t : TermData). is_base t.atom) terms.now) }
{
    let mut out = Vec::new(alloc);
    for term in terms {
        if is_base(term.atom) {
            out.push(*term)?;
        }
    }
    Ok(out)
}

fn is_base(atom: Atom) -> bool
    ensures { result ≡ is_base atom }
{
    match atom {
        Atom::Base(_) => true,
        Atom::Var(_) => false,
    }
}

/// Looks whether what each slot goes to and back, over the slot, has powers in 64 bits.
fn all_return(alloc: Global, solution: &[Unit], back: &[Unit]) -> Result<(), CertStop>
    requires { length solution.now ≤ 4294967295 }
    ensures { MatchResult result
        (λ _. (j : ℕ) → j < length solution.now → IsNarrow (returned solution.now back.now j))
        (CarriesReturned solution.now back.now) }
{
    for j in 0..solution.len() {
        match returned_slot(alloc, &solution[j], back, j as u32) {
            Ok(image) => drop(image),
            Err(stop) => return Err(stop),
        }
    }
    Ok(())
}

/// What the inverse substitution makes of the slot's unit, over the slot, with its powers in 64 bits.
fn returned_slot(alloc: Global, unit: &Unit, back: &[Unit], slot: u32) -> Result<WideUnit, CertStop>
    ensures { MatchResult result (λ _. IsNarrow (mul (replace (nth back.now) unit.now) (inv (atom (Var slot)))))
        (CarriesPower 9223372036854775807 (mul (replace (nth back.now) unit.now) (inv (atom (Var slot))))) }
{
    let image = WideUnit::replaced(alloc, unit, back)?;
    let inverse = WideUnit::atom_power(alloc, Atom::Var(slot), -1)?;
    let returned = image.mul(alloc, &inverse)?;
    narrowed(returned)
}

/// The parts of each slot.
fn part_lists(alloc: Global, powers: &[WideUnit]) -> Result<PartLists, NoMemory>
    requires narrow { All IsNarrow powers.now }
    requires rows { All (λ u. (n : ℕ) → power_of u (Base n) ≡ pos 0) powers.now }
    ensures exact { IfOk result (λ lists. map exponents lists ≡ powers.now) }
    ensures named { (n : ℕ) → All (VariablesBelow n) powers.now → IfOk result (All (NamesRowsBelow n)) }
    ensures tidy { (n : ℕ) → n ≤ 4294967295 → All (VariablesBelow n) powers.now → IfOk result (All AreTidyParts) }
{
    let mut items: Vec<Parts> = Vec::new(alloc);
    for slot in powers {
        items.push(parts_of(alloc, slot)?)?;
    }
    Ok(PartLists::from_vec(items))
}
