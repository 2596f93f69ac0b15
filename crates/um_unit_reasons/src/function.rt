//! What is told of a function of a program.

ghost use Rattle.std.specs.Prelude.{◌≡◌, ◌<◌, ◌≤◌, ◌&&◌, ℕ, List, Some, None, is_some, IfOk, length, slice_get, map};
ghost use Rattle.std.specs.Prelude.{slice_index_or};
ghost use Rattle.um_tree.specs.RawTree.{program_syntax};
ghost use Rattle.um_tree.specs.ProgramTree.{FunctionTree, SchemeTree, program_tree, function_tree};
ghost use Rattle.um_tree.specs.ProgramTree.{scheme_tree, result_tree};
ghost use Rattle.um_tree.specs.Formed.{IsFormed};
ghost use Rattle.um_tree.specs.Shapes.{IsShaped};
ghost use Rattle.um_slots.specs.Slots.{function_slots};
ghost use Rattle.um_rows.specs.Answers.{AreRowsOf};
ghost use Rattle.um_agree.specs.Answers.{AreAgreementsOf};
ghost use Rattle.um_infer.specs.Answers.{scheme_trees};
ghost use Rattle.um_infer.specs.Inference.{all_schemes, infer_first};
ghost use Rattle.um_infer.specs.Schemes.{IsJudged};
ghost use Rattle.um_unit_reasons.specs.UnitReasons.{unsolvable, slot_in, rigid_parameters, IsReasonOf};
ghost use Rattle.um_unit_reasons.specs.Answers.{reason_tree, IsRefused, IsToldOf};

use crate::failing::{Failing, core_reason};
use crate::names::function_variables;
use crate::reason::UnitReason;
use crate::rows::first_unsolvable;
use std::alloc::{AllocError, Global};
use um_agree::{Agreements, agreed_rows};
use um_infer::{InferStop, infer_first};
use um_measures::NameTable;
use um_rows::RowStop;
use um_shape::Shaped;
use um_slots::{Definition, Environment, Numbering, SlotStop, Slots, number_slots};
use um_tree::{Note, Program, RawProgram, Scheme, Schemes};

/// Why the units of function `i` disagree.
///
/// Either no units satisfy its equations, or some do, but none in which each unit parameter is a unit of its own: then
/// it is `rigid`. `infer` says which. What is told is the agreement of the first equation that fails, as general as the
/// others of a smallest set leave it (Kennedy 1996), and the agreements that force it to fail (Tamiz, Mardle and Jones
/// 1996). `AllocError` is the one error.
pub fn reason_of_function(
    alloc: Global,
    raw: &RawProgram,
    shaped: &Shaped,
    i: u32,
    rigid: bool,
) -> Result<UnitReason, AllocError>
    requires judged { (row : ℕ) × (at : ℕ) × IsJudged (program_tree shaped.now) i (unsolvable rigid row at) }
    ensures { IfOk result (λ r. IsReasonOf (program_syntax raw.now) (program_tree shaped.now) i rigid
        (reason_tree r)) }
{
    let names = function_variables(alloc, raw, i)?;
    let function = Function {
        shaped,
        names: &names,
        number: i,
        rigid,
    };
    let schemes = schemes_before(alloc, shaped, i)?;
    let told = by_schemes(alloc, &function, &schemes);
    drop(schemes);
    told
}

/// A function of a program that is refused for units.
#[derive(Clone, Copy)]
pub(crate) struct Function<'a> {
    pub(crate) shaped: &'a Shaped,
    pub(crate) names: &'a NameTable,
    pub(crate) number: u32,
    pub(crate) rigid: bool,
}

/// The schemes of the functions before function `i`.
fn schemes_before(alloc: Global, shaped: &Shaped, i: u32) -> Result<Schemes, AllocError>
    requires few { i ≤ length (program_tree shaped.now).functions }
    requires given { (schemes : List SchemeTree) × (infer_first (program_tree shaped.now) i ≡ all_schemes schemes) }
    ensures { IfOk result (λ schemes. infer_first (program_tree shaped.now) i
        ≡ all_schemes (scheme_trees schemes)) }
{
    match infer_first(alloc, shaped, i) {
        Ok(schemes) => Ok(schemes),
        Err(InferStop::NoMemory) => Err(AllocError),
        Err(
            InferStop::Units { .. }
            | InferStop::NotGeneral { .. }
            | InferStop::PowerRange { .. }
            | InferStop::Slots { .. },
        ) => unreachable!(),
    }
}

/// What is told, given the schemes of the functions before.
fn by_schemes(
    alloc: Global,
    function: &Function,
    schemes: &Schemes,
) -> Result<UnitReason, AllocError>
    requires refused { IsRefused (program_tree function.now.shaped.now) (scheme_trees schemes.now)
        function.now.number function.now.rigid }
    ensures { IfOk result (λ r. IsToldOf function.now (scheme_trees schemes.now) (reason_tree r)) }
{
    let bases = bases_of(function.shaped);
    let found = agreements(alloc, function, schemes)?;
    let told = by_agreements(alloc, function, bases, schemes, &found);
    drop(found);
    told
}

/// The equations with their agreements.
fn agreements(
    alloc: Global,
    function: &Function,
    schemes: &Schemes,
) -> Result<Agreements, AllocError>
    requires formed { IsFormed (program_tree function.now.shaped.now) }
    requires shaped { IsShaped (program_tree function.now.shaped.now) }
    requires refused { IsRefused (program_tree function.now.shaped.now) (scheme_trees schemes.now)
        function.now.number function.now.rigid }
    ensures rows { IfOk result (λ found. AreRowsOf (program_tree function.now.shaped.now)
        (scheme_trees schemes.now) function.now.number found.rows) }
    ensures agreed { IfOk result (AreAgreementsOf (program_tree function.now.shaped.now)
        (scheme_trees schemes.now) function.now.number) }
{
    match agreed_rows(alloc, function.shaped, function.number, schemes) {
        Ok(found) => Ok(found),
        Err(RowStop::NoMemory) => Err(AllocError),
        Err(RowStop::Slots | RowStop::Range { .. }) => unreachable!(),
    }
}

/// What is told, given the equations and agreements.
fn by_agreements(
    alloc: Global,
    function: &Function,
    bases: u32,
    schemes: &Schemes,
    found: &Agreements,
) -> Result<UnitReason, AllocError>
    requires formed { IsFormed (program_tree function.now.shaped.now) }
    requires shaped { IsShaped (program_tree function.now.shaped.now) }
    requires bases { bases ≡ length (program_tree function.now.shaped.now).bases }
    requires refused { IsRefused (program_tree function.now.shaped.now) (scheme_trees schemes.now)
        function.now.number function.now.rigid }
    requires rows { AreRowsOf (program_tree function.now.shaped.now) (scheme_trees schemes.now)
        function.now.number found.now.rows }
    requires agreed { AreAgreementsOf (program_tree function.now.shaped.now) (scheme_trees schemes.now)
        function.now.number found.now }
    ensures { IfOk result (λ r. IsToldOf function.now (scheme_trees schemes.now) (reason_tree r)) }
{
    let units = unit_parameters(function.shaped, function.number);
    let variables = name_slots(alloc, function, schemes)?;
    let row = first_unsolvable(
        alloc,
        found.rows.slots,
        bases,
        units,
        &found.rows.list.items,
    )?;
    let failing = Failing {
        program: function.shaped.program(),
        names: function.names,
        variables: &variables,
        found,
        parameters: rigid_parameters(function.rigid, units),
        row,
    };
    core_reason(alloc, &failing)
}

/// How many unit parameters function `i` has.
fn unit_parameters(shaped: &Shaped, i: u32) -> u32
    requires { i < length (program_tree shaped.now).functions }
    ensures { (f : FunctionTree) → slice_get (program_tree shaped.now).functions i ≡ Some f → result ≡ f.units }
{
    shaped.program().functions.items[i as usize].units
}

/// How many base units the program declares, which is formed and of which each node has its shape.
fn bases_of(shaped: &Shaped) -> u32
    ensures count { result ≡ length (program_tree shaped.now).bases }
    ensures formed { IsFormed (program_tree shaped.now) }
    ensures shaped { IsShaped (program_tree shaped.now) }
{
    shaped.program().bases.as_slice().len() as u32
}

/// The slot of each named variable that has one.
fn name_slots(
    alloc: Global,
    function: &Function,
    schemes: &Schemes,
) -> Result<Vec<Option<u32>>, AllocError>
    requires few { function.now.number < length (program_tree function.now.shaped.now).functions }
    ensures { (f : FunctionTree) →
        slice_get (program_tree function.now.shaped.now).functions function.now.number ≡ Some f →
        IfOk result (λ slots. (v : ℕ) → slice_index_or slots.items v None ≡ slot_in (function_slots
        (program_tree function.now.shaped.now).records (scheme_trees schemes.now) function.now.number f) v) }
{
    let program = function.shaped.program();
    declared_slots(
        alloc,
        program,
        &program.functions.items[function.number as usize],
        &schemes.items,
        function.number,
    )
}

/// The slots of a function that has this number.
fn declared_slots(
    alloc: Global,
    program: &Program,
    declared: &um_tree::Function,
    schemes: &[Scheme],
    number: u32,
) -> Result<Vec<Option<u32>>, AllocError>
    ensures { IfOk result (λ slots. (v : ℕ) → slice_index_or slots.items v None ≡ slot_in (function_slots
        (program_tree program.now).records (map scheme_tree schemes.now) number (function_tree declared.now)) v) }
{
    let environment = Environment {
        alloc,
        records: &program.records.items,
        schemes,
        number,
        recurs: may_recur(declared.recursive, &declared.result),
    };
    let definition = Definition {
        at: declared.at,
        recursive: declared.recursive,
        units: declared.units,
        params: &declared.params.items,
        result: &declared.result,
        body: &declared.body,
    };
    match number_slots(&environment, &definition) {
        Ok(Numbering { slots, .. }) => Ok(names_of(slots)),
        Err(SlotStop::TooMany | SlotStop::NoMemory) => Err(AllocError),
    }
}

fn names_of(slots: Slots) -> Vec<Option<u32>>
    ensures { result ≡ slots.names }
{
    let Slots {
        count: _,
        holes,
        names,
    } = slots;
    drop(holes);
    names
}

/// A function without a note of its result doesn't call itself.
fn may_recur(recursive: bool, note: &Option<Note>) -> bool
    ensures { result ≡ (recursive && is_some (result_tree note.now)) }
{
    recursive && note.is_some()
}

/// How many unit parameters are units of their own.
fn rigid_parameters(rigid: bool, units: u32) -> u32
    ensures { result ≡ rigid_parameters rigid units }
{
    if rigid {
        return units;
    }
    0
}
