//! The equations of a function with who asks for them.

ghost use Rattle.std.specs.Prelude.{◌≡◌, ◌<◌, ◌≤◌, ◌^◌, List, Some, IfOk, IfErr, IsTrue, length, map, drop};
ghost use Rattle.std.specs.Prelude.{◌+◌, slice_get};
ghost use Rattle.um_units.specs.Range.{RangeUnless};
ghost use Rattle.um_tree.specs.TypeTree.{type_tree};
ghost use Rattle.um_tree.specs.ProgramTree.{FunctionTree, program_tree, scheme_tree, result_tree};
ghost use Rattle.um_elim.specs.Application.{type_fits};
ghost use Rattle.um_equal_types.specs.Steps.{units_of};
ghost use Rattle.um_rows.specs.NodeTypes.{typed_nodes};
ghost use Rattle.um_rows.specs.Answers.{AreRowsOf, RowsStopFor, HaveVariablesBelow};
ghost use Rattle.um_rows.specs.Equations.{slot_equations};
ghost use Rattle.um_rows.specs.RightShapes.{HaveRightShapes};
ghost use Rattle.um_agree.specs.Agreements.{Agreement as Agreed};
ghost use Rattle.um_agree.specs.Asked.{function_asked, result_rule};
ghost use Rattle.um_agree.specs.Made.{node_type, known_type, units_in, made_of, AreAgreed};
ghost use Rattle.um_agree.specs.Answers.{AreAgreementsOf, AreKept, IsTold, agreement_tree, agreement_fits};

use crate::agreement::{Agreement, known_part, made, units_in};
use crate::found::{Asked, Found};
use crate::rule::Rule;
use crate::walk::ask;
use std::alloc::{AllocError, Global};
use um_rows::{NodeTypes, Row, RowStop, Rows, TypedRows, typed_rows};
use um_shape::Shaped;
use um_slots::copied;
use um_tree::{Note, Schemes, Ty};
use um_units::UnitStop;

/// The equations of a function, the types of its nodes, and who asks for the equations.
#[derive(Drop)]
pub struct Agreements {
    pub rows: Rows,
    pub nodes: NodeTypes,
    pub asked: Vec<Asked>,
}

/// The equations of function `i` with their agreements, given the schemes of the functions before it.
///
/// The agreements come in the order in which the rules are followed, each node's after those of its parts, and at last
/// that of the result's note; their rows, one after another, are the equations (Kennedy 1996). No part has a wrong
/// shape. The errors are those of `um_rows::rows`.
pub fn agreed_rows(
    alloc: Global,
    shaped: &Shaped,
    i: u32,
    schemes: &Schemes,
) -> Result<Agreements, RowStop>
    requires function { i < length (program_tree shaped.now).functions }
    requires schemes { HaveVariablesBelow i (map scheme_tree schemes.now.items.items) }
    requires right { (f : FunctionTree) → slice_get (program_tree shaped.now).functions i ≡ Some f →
        HaveRightShapes (slot_equations (program_tree shaped.now).records
        (map scheme_tree schemes.now.items.items) i f).steps }
    ensures equations { IfOk result (λ found. AreRowsOf (program_tree shaped.now)
        (map scheme_tree schemes.now.items.items) i found.rows) }
    ensures stops { IfErr result (RowsStopFor (program_tree shaped.now) (map scheme_tree schemes.now.items.items) i) }
    ensures agreements { IfOk result (AreAgreementsOf (program_tree shaped.now)
        (map scheme_tree schemes.now.items.items) i) }
{
    let TypedRows { rows, nodes } = typed_rows(alloc, shaped, i, schemes)?;
    match function_asked(alloc, shaped, i) {
        Ok(asked) => Ok(Agreements { rows, nodes, asked }),
        Err(AllocError) => {
            drop(rows);
            drop(nodes);
            Err(RowStop::NoMemory)
        }
    }
}

/// The agreements of the body, and that of the result's note.
fn function_asked(alloc: Global, shaped: &Shaped, i: u32) -> Result<Vec<Asked>, AllocError>
    requires function { i < length (program_tree shaped.now).functions }
    ensures asked { IfOk result (λ asked. (f : FunctionTree) →
        slice_get (program_tree shaped.now).functions i ≡ Some f → asked.items ≡ function_asked f) }
{
    let function = &shaped.program().functions.items[i as usize];
    let mut found = Found {
        nodes: 0,
        asked: Vec::new(alloc),
    };
    let own = ask(alloc, &function.body, &mut found)?;
    found.push(noted(&function.result), function.at, own)?;
    let Found { nodes: _, asked } = found;
    Ok(asked)
}

/// Whether the body must have the type of a note.
fn noted(note: &Option<Note>) -> Option<Rule>
    ensures { result ≡ result_rule (result_tree note.now) }
{
    match note {
        Some(_) => Some(Rule::ResultNote),
        None => None,
    }
}

/// The agreement that a row is of, and its number, counted from 0.
#[derive(Drop)]
pub struct Told {
    pub number: usize,
    pub agreement: Agreement,
}

impl Agreements {
    /// The agreement that row `k` is of. Range comes exactly if a power of one of its two types is out of range.
    pub fn of_row(&self, alloc: Global, k: usize) -> Result<Told, UnitStop>
        requires some { k < length self.now.rows.list.items.items }
        requires agreed { (agreed : List Agreed) × AreKept agreed self.now }
        ensures { (agreed : List Agreed) → AreKept agreed self.now → IsTold agreed k result }
    {
        row_agreement(alloc, &self.asked, &self.nodes, &self.rows.list.items, k)
    }
}

/// The agreement that row `k` of these is of.
fn row_agreement(
    alloc: Global,
    asked: &[Asked],
    nodes: &NodeTypes,
    rows: &[Row],
    k: usize,
) -> Result<Told, UnitStop>
    requires some { k < length rows.now }
    requires agreed { (agreed : List Agreed) × AreAgreed agreed (typed_nodes nodes.now) rows.now asked.now }
    ensures { (agreed : List Agreed) → AreAgreed agreed (typed_nodes nodes.now) rows.now asked.now →
        IsTold agreed k result }
{
    let mut start: usize = 0;
    for m in 0..asked.len() {
        let one = &asked[m];
        let units = units_known(nodes, one);
        if units > k - start {
            return told_of(alloc, m, one, nodes, rows, start);
        }
        start += units;
    }
    unreachable!()
}

/// How many units the type has that an agreement speaks of at its node.
fn units_known(nodes: &NodeTypes, asked: &Asked) -> usize
    ensures { result ≡ units_in (known_type asked.now.rule (node_type (typed_nodes nodes.now) asked.now.node)) }
{
    match nodes.items.get(asked.node) {
        Some(node) => units_in(known_part(asked.rule, &node.ty)),
        None => 0,
    }
}

/// A copy of the type that an agreement speaks of at its node.
fn known(alloc: Global, nodes: &NodeTypes, asked: &Asked) -> Result<Ty, AllocError>
    ensures same { IfOk result (λ ty. type_tree ty
        ≡ known_type asked.now.rule (node_type (typed_nodes nodes.now) asked.now.node)) }
    ensures fits { IfOk result (λ ty. IsTrue (type_fits (type_tree ty))) }
{
    match nodes.items.get(asked.node) {
        Some(node) => copied(alloc, known_part(asked.rule, &node.ty)),
        None => Ok(Ty::Bool),
    }
}

/// The agreement of this number, from the rows from its first on.
fn told_of(
    alloc: Global,
    number: usize,
    asked: &Asked,
    nodes: &NodeTypes,
    rows: &[Row],
    start: usize,
) -> Result<Told, UnitStop>
    requires within { start + units_in (known_type asked.now.rule (node_type (typed_nodes nodes.now) asked.now.node))
        ≤ length rows.now }
    ensures number { IfOk result (λ told. told.number ≡ number) }
    ensures exact { IfOk result (λ told. agreement_tree told.agreement
        ≡ made_of asked.now.rule asked.now.at
        (known_type asked.now.rule (node_type (typed_nodes nodes.now) asked.now.node))
        (units_of (drop start rows.now))) }
    ensures fits { RangeUnless result (agreement_fits (made_of asked.now.rule asked.now.at
        (known_type asked.now.rule (node_type (typed_nodes nodes.now) asked.now.node))
        (units_of (drop start rows.now)))) }
{
    let known = known(alloc, nodes, asked)?;
    let agreement = made(alloc, asked.rule, asked.at, known, &rows[start..])?;
    Ok(Told { number, agreement })
}
