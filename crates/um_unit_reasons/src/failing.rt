//! A function whose rows have no joint solution, and what is told of it.

ghost use Rattle.std.specs.Prelude.{◌≡◌, ◌≤◌, ◌∷◌, [], ℕ, List, Option, IfOk, Contains, length};
ghost use Rattle.um_units.specs.PowerMap.{PowerMap};
ghost use Rattle.um_tree.specs.TypeTree.{TypeTree};
ghost use Rattle.um_tree.specs.ProgramTree.{program_tree};
ghost use Rattle.um_rows.specs.FirstUnsolvable.{rows_up_to};
ghost use Rattle.um_agree.specs.Agreements.{Agreement};
ghost use Rattle.um_reasons.specs.Reasons.{disagree};
ghost use Rattle.um_reasons.specs.Answers.{reason_tree as tree_of_reason};
ghost use Rattle.um_unit_reasons.specs.UnitReasons.{IsUnitReason, IsOfCore, core_reason, by_reason};
ghost use Rattle.um_unit_reasons.specs.Answers.{reason_tree, refusal_of, IsSound, HaveSlots, AreAllOf};

use crate::others::{CoreAgreements, core_agreements};
use crate::reason::UnitReason;
use crate::telling::told_types;
use std::alloc::{AllocError, Global};
use um_agree::Agreements;
use um_measures::NameTable;
use um_reasons::{Core, Question, Reason, core_of, reason_of};
use um_rows::Row;
use um_tree::Program;
use um_units::UnitStop;

/// A function whose rows have no joint solution.
#[derive(Clone, Copy)]
pub(crate) struct Failing<'a> {
    pub(crate) program: &'a Program,
    /// The names of its named variables, and the slots of those that have one, by their numbers.
    pub(crate) names: &'a NameTable,
    pub(crate) variables: &'a [Option<u32>],
    pub(crate) found: &'a Agreements,
    /// How many unit parameters are units of their own.
    pub(crate) parameters: u32,
    /// The first row that is unsolvable with those before it.
    pub(crate) row: usize,
}

/// How many base units the program declares.
pub(crate) fn base_count(program: &Program) -> u32
    requires { length (program_tree program.now).bases ≤ 16777216 }
    ensures { result ≡ length (program_tree program.now).bases }
{
    program.bases.as_slice().len() as u32
}

/// The rows up to this one.
fn up_to(rows: &[Row], row: usize) -> &[Row]
    ensures { result.now ≡ rows_up_to row rows.now }
{
    if row < rows.len() {
        return &rows[..row + 1];
    }
    rows
}

/// What is told of the function's core.
pub(crate) fn core_reason(alloc: Global, x: &Failing) -> Result<UnitReason, AllocError>
    requires sound { (agreed : List Agreement) × IsSound x.now agreed }
    ensures { (agreed : List Agreement) → IsSound x.now agreed →
        IfOk result (λ r. IsUnitReason (refusal_of x.now agreed) (reason_tree r)) }
{
    let rows = up_to(&x.found.rows.list.items, x.row);
    let core = core_of(
        alloc,
        x.found.rows.slots,
        base_count(x.program),
        x.parameters,
        rows,
    )?;
    let told = by_core(alloc, x, &core);
    drop(core);
    told
}

/// What is told of this core.
fn by_core(alloc: Global, x: &Failing, core: &Core) -> Result<UnitReason, AllocError>
    requires sound { (agreed : List Agreement) × IsSound x.now agreed }
    requires last { Contains core.now.rows.items x.now.row }
    ensures { (agreed : List Agreement) → IsSound x.now agreed →
        IfOk result (λ r. IsOfCore (refusal_of x.now agreed) core.now.rows.items core.now.cut_off (reason_tree r)) }
{
    match core_agreements(alloc, x.found, &core.rows, x.row) {
        Ok(agreements) => {
            let told = by_agreements(alloc, x, core, &agreements);
            drop(agreements);
            told
        }
        Err(UnitStop::Range) => Ok(UnitReason::OutOfRange),
        Err(UnitStop::NoMemory) => Err(AllocError),
    }
}

/// What is told of a core with these agreements.
fn by_agreements(
    alloc: Global,
    x: &Failing,
    core: &Core,
    agreements: &CoreAgreements,
) -> Result<UnitReason, AllocError>
    requires sound { (agreed : List Agreement) × IsSound x.now agreed
        × AreAllOf agreed core.now.rows.items x.now.row agreements.now }
    ensures { (agreed : List Agreement) → IsSound x.now agreed →
        AreAllOf agreed core.now.rows.items x.now.row agreements.now →
        IfOk result (λ r. reason_tree r
        ≡ core_reason (refusal_of x.now agreed) core.now.rows.items core.now.cut_off) }
{
    let question = Question {
        slots: x.found.rows.slots,
        bases: base_count(x.program),
        parameters: x.parameters,
        rows: up_to(&x.found.rows.list.items, x.row),
        core: &core.rows,
    };
    let reason = reason_of(alloc, &question, &agreements.last[0].agreement)?;
    told_by(alloc, x, core.cut_off, agreements, reason)
}

/// What is told of the agreements of a core, of which the last fails for this reason.
fn told_by(
    alloc: Global,
    x: &Failing,
    cut_off: bool,
    agreements: &CoreAgreements,
    reason: Reason,
) -> Result<UnitReason, AllocError>
    requires sound { (agreed : List Agreement) × (core : List ℕ) × IsSound x.now agreed
        × AreAllOf agreed core x.now.row agreements.now }
    requires low { (first second : TypeTree) (factor : Option PowerMap) →
        tree_of_reason reason ≡ disagree first second factor → HaveSlots x.now (first ∷ second ∷ []) }
    ensures { (agreed : List Agreement) (core : List ℕ) → IsSound x.now agreed →
        AreAllOf agreed core x.now.row agreements.now →
        IfOk result (λ r. reason_tree r
        ≡ by_reason (refusal_of x.now agreed) core cut_off (tree_of_reason reason)) }
{
    match reason {
        Reason::UnitsPass => Ok(UnitReason::OutOfRange),
        Reason::Disagree {
            first,
            second,
            factor,
        } => match told_types(alloc, x, agreements, first, second) {
            Ok(told) => Ok(UnitReason::Told {
                told,
                factor,
                cut_off,
            }),
            Err(AllocError) => {
                drop(factor);
                Err(AllocError)
            }
        },
    }
}
