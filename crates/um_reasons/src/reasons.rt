//! What is told of the agreement that fails.

ghost use Rattle.std.specs.Prelude.{◌≡◌, ◌<◌, ◌≤◌, ◌+◌, ◌^◌, false, All, IfOk, IsTrue, length};
ghost use Rattle.std.specs.List.{list_any};
ghost use Rattle.um_units.specs.PowerMap.{PowerMap, nth, replace};
ghost use Rattle.um_units.specs.Range.{fits};
ghost use Rattle.um_units.specs.Variables.{VariablesBelow};
ghost use Rattle.um_tree.specs.TypeTree.{type_tree, num_type};
ghost use Rattle.um_tree.specs.Typing.{put};
ghost use Rattle.um_equal_types.specs.declared.row.Row.{Row};
ghost use Rattle.um_equal_types.specs.Steps.{units_of};
ghost use Rattle.um_reasons.specs.Reasons.{disagree, is_open, factor, by_units, reason};
ghost use Rattle.um_reasons.specs.Answers.{reason_tree, IsApplied};

use crate::question::{Question, others_solved};
use std::alloc::{AllocError, Global};
use um_agree::Agreement;
use um_elim::{ElimStop, Solver};
use um_rows::Row;
use um_tree::Ty;
use um_units::{Atom, Term, Unit};

/// What is told of the agreement of a core's last row.
#[derive(Drop)]
pub enum Reason {
    /// Its two types, as general as the core's other rows leave them. The first times the factor is the second, if the
    /// units differ by a closed unit.
    Disagree {
        first: Ty,
        second: Ty,
        factor: Option<Unit>,
    },
    /// A power is out of range: of the elimination of the core's other rows, or of the two types after it.
    UnitsPass,
}

/// Why the agreement of the last row fails: its two types after the elimination of the core's other rows, in the order
/// of their numbers (Kennedy 1996). The factor, and the range of powers, are this project's own.
pub fn reason_of(
    alloc: Global,
    question: &Question,
    agreement: &Agreement,
) -> Result<Reason, AllocError>
    requires few { question.now.slots ≤ 2000 }
    requires parameters { question.now.parameters ≤ question.now.slots }
    requires bases { question.now.bases + question.now.parameters < 2 ^ 32 }
    requires variables { All (λ (row : Row). VariablesBelow question.now.slots row.unit) question.now.rows.now }
    requires some { 0 < length question.now.rows.now }
    ensures { IfOk result (λ r. reason_tree r ≡ reason question.now.bases question.now.parameters question.now.slots
        (units_of question.now.rows.now) question.now.core.now
        (type_tree agreement.now.first) (type_tree agreement.now.second)) }
{
    let Some(solver) = others_solved(alloc, question)? else {
        return Ok(Reason::UnitsPass);
    };
    let last = &question.rows[question.rows.len() - 1];
    by_solver(alloc, question.bases, &solver, agreement, last)
}

/// The same, from the solution of the other rows.
fn by_solver(
    alloc: Global,
    bases: u32,
    solver: &Solver,
    agreement: &Agreement,
    last: &Row,
) -> Result<Reason, AllocError>
    requires { solver.now.spent ≡ false }
    ensures { IfOk result (λ r. reason_tree r ≡ by_units bases (type_tree agreement.now.first)
        (type_tree agreement.now.second) last.now.unit solver.now.units) }
{
    let Some(first) = applied(alloc, solver, &agreement.first)? else {
        return Ok(Reason::UnitsPass);
    };
    match applied(alloc, solver, &agreement.second) {
        Ok(Some(second)) => disagreement(alloc, bases, solver, first, second, last),
        Ok(None) => {
            drop(first);
            Ok(Reason::UnitsPass)
        }
        Err(AllocError) => {
            drop(first);
            Err(AllocError)
        }
    }
}

/// The type with the solution put in, or none if a power is out of range.
fn applied(alloc: Global, solver: &Solver, ty: &Ty) -> Result<Option<Ty>, AllocError>
    requires { solver.now.spent ≡ false }
    ensures { IfOk result (IsApplied (put (nth solver.now.units) (type_tree ty.now))) }
{
    match solver.apply(alloc, ty) {
        Ok(ty) => Ok(Some(ty)),
        Err(ElimStop::Range) => Ok(None),
        Err(ElimStop::NoMemory) => Err(AllocError),
        Err(ElimStop::Spent | ElimStop::NoSolution) => unreachable!(),
    }
}

/// The two types with the factor.
fn disagreement(
    alloc: Global,
    bases: u32,
    solver: &Solver,
    first: Ty,
    second: Ty,
    last: &Row,
) -> Result<Reason, AllocError>
    requires { solver.now.spent ≡ false }
    ensures { IfOk result (λ r. reason_tree r ≡ disagree (type_tree first) (type_tree second)
        (factor bases (replace (nth solver.now.units) last.now.unit))) }
{
    match factor_of(alloc, bases, solver, &last.unit) {
        Ok(factor) => Ok(Reason::Disagree {
            first,
            second,
            factor,
        }),
        Err(AllocError) => {
            drop(first);
            drop(second);
            Err(AllocError)
        }
    }
}

/// What the first type is multiplied by to give the second, if that is a closed unit in range.
fn factor_of(
    alloc: Global,
    bases: u32,
    solver: &Solver,
    row: &Unit,
) -> Result<Option<Unit>, AllocError>
    requires { solver.now.spent ≡ false }
    ensures { IfOk result (λ u. u ≡ factor bases (replace (nth solver.now.units) row.now)) }
{
    let row = Ty::Num(row.copy(alloc)?);
    match applied(alloc, solver, &row) {
        Ok(Some(ty)) => {
            drop(row);
            factor_of_type(alloc, bases, ty)
        }
        Ok(None) => {
            drop(row);
            Ok(None)
        }
        Err(AllocError) => {
            drop(row);
            Err(AllocError)
        }
    }
}

/// The same, from the type of numbers in the unit that is left.
fn factor_of_type(alloc: Global, bases: u32, ty: Ty) -> Result<Option<Unit>, AllocError>
    ensures { (u : PowerMap) → type_tree ty ≡ num_type u → IsTrue (fits u) → IfOk result (λ f. f ≡ factor bases u) }
{
    match &ty {
        Ty::Num(unit) => closed_inverse(alloc, bases, unit),
        Ty::Bool | Ty::List(_) | Ty::Rec(_, _) => Ok(None),
    }
}

/// The inverse of a unit without variables and base units of unit parameters.
fn closed_inverse(alloc: Global, bases: u32, unit: &Unit) -> Result<Option<Unit>, AllocError>
    ensures { IfOk result (λ u. u ≡ factor bases unit.now) }
{
    if is_any_open(bases, unit.terms()) {
        return Ok(None);
    }
    Ok(Some(unit.inv(alloc)?))
}

fn is_any_open(bases: u32, terms: &[Term]) -> bool
    ensures { result ≡ list_any (λ t. is_open bases t.atom) terms.now }
{
    terms.iter().any(|term| is_open(bases, term.atom))
}

/// Whether it is a variable, or the base unit of a unit parameter.
fn is_open(bases: u32, atom: Atom) -> bool
    ensures { result ≡ is_open bases atom }
{
    match atom {
        Atom::Base(n) => bases <= n,
        Atom::Var(_) => true,
    }
}
