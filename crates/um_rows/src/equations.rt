//! The equations of a function, from its parts.

ghost use Rattle.std.specs.Prelude.{◌≡◌, ◌+◌, ◌≤◌, ◌&&◌, is_some, All, IfOk, IsTrue, MatchResult, length, map};
ghost use Rattle.um_tree.specs.TypeTree.{type_tree};
ghost use Rattle.um_tree.specs.ExprTree.{expr_tree};
ghost use Rattle.um_tree.specs.ProgramTree.{record_tree, scheme_tree, result_tree};
ghost use Rattle.um_equal_types.specs.Steps.{first_past};
ghost use Rattle.um_equal_types.specs.Pushed.{ArePushed, StopsPast};
ghost use Rattle.um_rows.specs.Closed.{AreClosedBefore, IsClosedRecord};
ghost use Rattle.um_rows.specs.Body.{AreBodyRows, noted_rows, holes_in, walk_derived, walk_steps};
ghost use Rattle.um_rows.specs.Answers.{defined, AreEquations, StopsFor};
ghost use Rattle.um_rows.specs.NodeTypes.{typed_nodes, derived_nodes, function_nodes};

use crate::nodes::{NodeTypes, TypedRows};
use crate::progress::{Progress, State};
use crate::walk::derive;
use crate::walker::Walk;
use std::alloc::Global;
use um_equal_types::{Row, RowList, RowStop, Rows, against};
use um_slots::{
    Definition, Environment, Numbering, Slots, context_of, copied_types, name_units, number_slots,
};
use um_tree::{Note, Record, Scheme, Ty, Types};
use um_units::UnitStop;

/// Pushes the rows of the body's type against the result's note, if there is one.
fn note_against(
    alloc: Global,
    at: u32,
    ty: &Ty,
    noted: &Ty,
    note: &Option<Note>,
    rows: &mut Vec<Row>,
) -> Result<(), RowStop>
    ensures { ArePushed (noted_rows at (type_tree ty.now) (type_tree noted.now) (result_tree note.now)) rows.old.items
        rows.new.items result }
{
    match note {
        Some(_) => against(alloc, at, ty, noted, rows),
        None => Ok(()),
    }
}

/// The equations of the function's body, with so many slots and so many holes before it, and the types of its nodes if
/// the walk keeps them.
fn body_rows(
    walk: &Walk,
    slots: u32,
    head: usize,
    definition: &Definition,
) -> Result<TypedRows, RowStop>
    requires room { head + holes_in walk.now (expr_tree definition.now.body.now)
        ≤ length walk.now.context.holes.items }
    ensures rows { MatchResult result
        (λ typed. AreBodyRows (walk_steps walk.now head definition.now) (walk_derived walk.now head definition.now)
        (map type_tree walk.now.context.params.items) slots typed.rows)
        (StopsPast (first_past (walk_steps walk.now head definition.now))) }
    ensures nodes { IsTrue walk.now.keep → IfOk result (λ typed. typed_nodes typed.nodes
        ≡ derived_nodes (walk_derived walk.now head definition.now)) }
{
    let alloc = walk.alloc;
    let context = &walk.context;
    let at = definition.at;
    let scope = copied_types(alloc, &context.params)?;
    let progress = Progress {
        rows: Vec::new(alloc),
        holes: head,
    };
    let kept = Vec::new(alloc);
    let mut state = State {
        scope,
        progress,
        kept,
    };
    let result = derive(walk, definition.body, &mut state)?;
    let State {
        scope,
        mut progress,
        kept,
    } = state;
    let rows = &mut progress.rows;
    note_against(alloc, at, &result, &context.result, definition.result, rows)?;
    let rows = Rows {
        slots,
        list: RowList {
            items: progress.rows,
        },
        params: Types { items: scope },
        result,
    };
    Ok(TypedRows {
        rows,
        nodes: NodeTypes { items: kept },
    })
}

/// A function without a note of its result doesn't call itself.
fn may_recur(recursive: bool, note: &Option<Note>) -> bool
    ensures { result ≡ (recursive && is_some (result_tree note.now)) }
{
    recursive && note.is_some()
}

/// The equations of the function of this number.
pub(crate) fn equations(
    alloc: Global,
    records: &[Record],
    schemes: &[Scheme],
    number: u32,
    definition: &Definition,
) -> Result<Rows, RowStop>
    requires schemes { AreClosedBefore number schemes.now }
    requires records { All IsClosedRecord records.now }
    ensures { MatchResult result
        (AreEquations (map record_tree records.now) (map scheme_tree schemes.now) number (defined definition.now))
        (StopsFor (map record_tree records.now) (map scheme_tree schemes.now) number (defined definition.now)) }
{
    match typed_equations(alloc, records, schemes, number, definition, false) {
        Ok(TypedRows { rows, nodes }) => {
            drop(nodes);
            Ok(rows)
        }
        Err(stop) => Err(stop),
    }
}

/// The equations of the function of this number, with the types of its body's nodes if `keep` asks for them.
pub(crate) fn typed_equations(
    alloc: Global,
    records: &[Record],
    schemes: &[Scheme],
    number: u32,
    definition: &Definition,
    keep: bool,
) -> Result<TypedRows, RowStop>
    requires schemes { AreClosedBefore number schemes.now }
    requires records { All IsClosedRecord records.now }
    ensures equations { MatchResult result
        (λ typed. AreEquations (map record_tree records.now) (map scheme_tree schemes.now) number
        (defined definition.now) typed.rows)
        (StopsFor (map record_tree records.now) (map scheme_tree schemes.now) number (defined definition.now)) }
    ensures nodes { IsTrue keep → IfOk result (λ typed. typed_nodes typed.nodes
        ≡ function_nodes (map record_tree records.now) (map scheme_tree schemes.now) number
        (defined definition.now)) }
{
    let recurs = may_recur(definition.recursive, definition.result);
    let environment = Environment {
        alloc,
        records,
        schemes,
        number,
        recurs,
    };
    let Numbering {
        slots,
        params: first,
        head,
    } = number_slots(&environment, definition)?;
    let Slots {
        count,
        holes,
        names,
    } = slots;
    let names = name_units(alloc, &names)?;
    match context_of(&environment, first, holes, names, definition) {
        Ok(context) => {
            let walk = Walk {
                alloc,
                records,
                schemes,
                context,
                keep,
            };
            let rows = body_rows(&walk, count, head, definition);
            drop(walk);
            rows
        }
        Err(UnitStop::Range) => Err(RowStop::Range { at: definition.at }),
        Err(UnitStop::NoMemory) => Err(RowStop::NoMemory),
    }
}
