//! The solver: it takes rows one by one and keeps their most general solution.

ghost use Rattle.std.specs.Prelude.{◌≡◌, ◌≤◌, ◌<◌, ◌+◌, ◌^◌, nat_lt, if◌then◌else◌, [], ◌∷◌, length, map, All, IfOk};
ghost use Rattle.std.specs.Prelude.{IsTrue, OnOk, MatchResult, false};
ghost use Rattle.std.specs.List.{range_with_len};
ghost use Rattle.um_elim.specs.Index.{IsIndex};
ghost use Rattle.um_units.specs.PowerMap.{nth};
ghost use Rattle.um_units.specs.Variables.{VariablesBelow};
ghost use Rattle.um_tree.specs.TypeTree.{type_tree};
ghost use Rattle.um_tree.specs.Typing.{put};
ghost use Rattle.um_elim.specs.Application.{IsApplied, VariablesAreBelow, type_fits};
ghost use Rattle.um_elim.specs.Adding.{IsAdded, HasInstances, SolvesRows, VariablesStayBelow};
ghost use Rattle.um_elim.specs.Elimination.{Solved, eliminate};
ghost use Rattle.um_elim.specs.Instances.{SolvesExactly};
ghost use Rattle.um_elim.specs.Solution.{fresh, rigid, rigid_unit, rigid_units, parameter_rows};
ghost use Rattle.um_elim.specs.Steps.{StopsAs};

use crate::ElimStop;
use crate::application::{put_in_type, stays_in_type};
use crate::index::SlotList;
use crate::step::{AfterStep, take_step};
use std::alloc::{AllocError, Global};
use std::marker::Model;
use um_tree::Ty;
use um_units::{Atom, NoMemory, Unit};

/// The most general solution of the rows that were added: a unit for each slot.
pub struct Solver {
    units: Vec<Unit>,
    index: Vec<SlotList>,
    spent: bool,
}

// A derived drop would be proved anew in each crate that lets solvers go. This one is proved here.
impl Drop for Solver {
    fn drop(self) {
        let Solver {
            units: _,
            index: _,
            spent: _,
        } = self;
    }
}

impl Model for Solver {
    ghost use Rattle.um_elim.specs.Solution.{Solution, solution_code};

    ghost Value = { Solution };

    ghost coded = { solution_code };

    ghost use Rattle.std.specs.Prelude.{◌≡◌, false};
    ghost use Rattle.um_elim.specs.Index.{IsIndex};

    ghost view = { λ solver. record { units = solver.units.items; spent = solver.spent } };

    ghost invariant = { λ solver. solver.spent ≡ false → IsIndex solver.units.items solver.index.items };
}

impl Solver {
    /// A solver without rows: each slot's unit is the slot's own variable.
    pub fn new(alloc: Global, slots: u32) -> Result<Solver, NoMemory>
        requires { slots ≤ 2000 }
        ensures fresh { IfOk result (λ solver. solver ≡ fresh slots) }
        ensures rows { IfOk result (λ solver. SolvesExactly slots [] solver.units) }
        ensures variables { IfOk result (λ solver. All (VariablesBelow slots) solver.units) }
    {
        Solver::with_parameters(alloc, slots, 0, 0)
    }

    /// A solver without rows whose first slots are those of unit parameters: the unit of slot k below `parameters` is
    /// the base unit `bases + k`, and that of each other slot its own variable.
    pub fn with_parameters(
        alloc: Global,
        slots: u32,
        bases: u32,
        parameters: u32,
    ) -> Result<Solver, NoMemory>
        requires slots { slots ≤ 2000 }
        requires parameters { parameters ≤ slots }
        requires bases { bases + parameters < 2 ^ 32 }
        ensures rigid { IfOk result (λ solver. solver ≡ rigid bases parameters slots) }
        ensures rows { IfOk result (λ solver. SolvesExactly slots (parameter_rows bases parameters) solver.units) }
        ensures variables { IfOk result (λ solver. All (VariablesBelow slots) solver.units) }
    {
        let units = first_units(alloc, slots, bases, parameters)?;
        let index = first_index(alloc, slots, parameters)?;
        Ok(Solver {
            units,
            index,
            spent: false,
        })
    }

    /// Adds a row, which is to be equal to 1. Its variables are slots.
    ///
    /// After Ok the instances of the solution are exactly those instances of the one before that make the row equal to
    /// 1, and so exactly the joint solutions of the rows that were added. NoSolution comes exactly if no instance does
    /// and no power was out of range before, Range exactly if a power is out of range in between, and Spent exactly if
    /// a row was refused before, for any cause.
    pub fn add(&mut self, alloc: Global, row: &Unit) -> Result<(), ElimStop>
        requires { VariablesBelow (length self.old.units) row.now }
        ensures outcome { IsAdded self.old row.now self.new result }
        ensures instances { HasInstances self.old row.now self.new result }
        ensures rows { SolvesRows self.old row.now self.new result }
        ensures slots { length self.new.units ≡ length self.old.units }
        ensures variables { OnOk result (VariablesStayBelow self.old.units self.new.units) }
    {
        if self.spent {
            return Err(ElimStop::Spent);
        }
        self.spent = true;
        eliminate_row(alloc, &mut self.units, &mut self.index, row)?;
        self.spent = false;
        Ok(())
    }

    /// The type with the solution's unit put for each slot. It forms no power but those of its result.
    ///
    /// Range comes exactly if the result has a power out of range, and Spent exactly if a row was refused before.
    pub fn apply(&self, alloc: Global, ty: &Ty) -> Result<Ty, ElimStop>
        ensures applied { IsApplied self.now (type_tree ty.now) result }
        ensures variables { IfOk result (λ t. VariablesAreBelow self.now (type_tree ty.now) (type_tree t)) }
    {
        if !self.spent {
            return Ok(put_in_type(alloc, &self.units, ty)?);
        }
        Err(ElimStop::Spent)
    }

    /// The same as `apply`, of a type that is handed over: it comes back as it is if the solution leaves it alone.
    pub fn apply_to(&self, alloc: Global, ty: Ty) -> Result<Ty, ElimStop>
        ensures { IsApplied self.now (type_tree ty) result }
    {
        if self.leaves(&ty) {
            return Ok(ty);
        }
        let solved = self.apply(alloc, &ty);
        drop(ty);
        solved
    }

    /// Whether the solution's unit for each slot of the type is the slot itself, and no row was refused.
    fn leaves(&self, ty: &Ty) -> bool
        ensures unspent { IsTrue result → self.now.spent ≡ false }
        ensures left { IsTrue result → put (nth self.now.units) (type_tree ty.now) ≡ type_tree ty.now }
        ensures fits { IsTrue result → IsTrue (type_fits (type_tree ty.now)) }
    {
        if !self.spent {
            return stays_in_type(&self.units, ty);
        }
        false
    }
}

/// The base units of the parameters, and the other slots' own variables.
fn first_units(
    alloc: Global,
    slots: u32,
    bases: u32,
    parameters: u32,
) -> Result<Vec<Unit>, NoMemory>
    requires { bases + parameters < 2 ^ 32 }
    ensures { IfOk result (λ units. units.items ≡ rigid_units bases parameters slots) }
{
    let mut units = Vec::new(alloc);
    units.reserve(slots as usize)?;
    for slot in 0..slots {
        units.push(first_unit(alloc, slot, bases, parameters)?)?;
    }
    Ok(units)
}

fn first_unit(alloc: Global, slot: u32, bases: u32, parameters: u32) -> Result<Unit, NoMemory>
    requires { bases + parameters < 2 ^ 32 }
    ensures { IfOk result (λ unit. unit ≡ rigid_unit bases parameters slot) }
{
    if slot < parameters {
        return Unit::atom(alloc, Atom::Base(bases + slot));
    }
    Unit::atom(alloc, Atom::Var(slot))
}

/// Each variable except the parameters' occurs in the unit of its own slot.
fn first_index(alloc: Global, slots: u32, parameters: u32) -> Result<Vec<SlotList>, NoMemory>
    ensures { IfOk result (λ index. index.items
        ≡ map (λ k. if nat_lt k parameters then [] else k ∷ []) (range_with_len 0 slots)) }
{
    let mut index = Vec::new(alloc);
    index.reserve(slots as usize)?;
    for slot in 0..slots {
        index.push(first_holders(alloc, slot, parameters)?)?;
    }
    Ok(index)
}

/// The slots that hold the slot's variable.
fn first_holders(alloc: Global, slot: u32, parameters: u32) -> Result<SlotList, AllocError>
    ensures { IfOk result (λ list. list ≡ (if nat_lt slot parameters then [] else slot ∷ [])) }
{
    if slot < parameters {
        return Ok(SlotList::empty(alloc));
    }
    SlotList::single(alloc, slot)
}

/// The elimination of a row, which changes the units of the slots.
fn eliminate_row(
    alloc: Global,
    units: &mut Vec<Unit>,
    index: &mut Vec<SlotList>,
    row: &Unit,
) -> Result<(), ElimStop>
    requires indexed { IsIndex units.old.items index.old.items }
    requires variables { VariablesBelow (length units.old.items) row.now }
    ensures outcome { MatchResult result (λ _. eliminate units.old.items row.now ≡ Solved units.new.items)
        (StopsAs (eliminate units.old.items row.now)) }
    ensures slots { length units.new.items ≡ length units.old.items }
    ensures indexed { OnOk result (IsIndex units.new.items index.new.items) }
{
    if row.terms().is_empty() {
        return Ok(());
    }
    let mut r = row.replace(alloc, units)?;
    loop {
        match take_step(alloc, units, index, &r)? {
            AfterStep::Again(remainder) => r = remainder,
            AfterStep::Ended => return Ok(()),
        }
    }
}
