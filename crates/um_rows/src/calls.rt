//! Calls: the rows of parameters against arguments, and the type of a result.

ghost use Rattle.std.specs.Prelude.{◌≡◌, ◌+◌, ◌≤◌, Bool, All, IfOk, IsTrue, List, Some, length, map, take, drop};
ghost use Rattle.um_units.specs.PowerMap.{nth};
ghost use Rattle.um_units.specs.Variables.{VariablesBelow};
ghost use Rattle.um_tree.specs.TypeTree.{type_tree};
ghost use Rattle.um_tree.specs.declared.program.Record.{Record};
ghost use Rattle.um_tree.specs.ProgramTree.{scheme_tree};
ghost use Rattle.um_tree.specs.Typing.{put, put_signature};
ghost use Rattle.um_elim.specs.Application.{type_fits};
ghost use Rattle.um_tree.specs.Laws.{TypeHas};
ghost use Rattle.um_slots.specs.SlotUnits.{AreVariables};
ghost use Rattle.um_equal_types.specs.Against.{types_against as types_against_steps};
ghost use Rattle.um_equal_types.specs.Pushed.{ArePushed};
ghost use Rattle.um_slots.specs.Holes.{callee_holes};
ghost use Rattle.um_slots.specs.Callees.{callee_of};
ghost use Rattle.um_rows.specs.Rules.{call_rule};
ghost use Rattle.um_rows.specs.Walk.{node};
ghost use Rattle.um_rows.specs.Reached.{IsReached};
ghost use Rattle.um_rows.specs.Body.{noted_signature, called, offer};
ghost use Rattle.um_rows.specs.Closed.{IsClosedScheme, AreClosedBefore};

use crate::progress::Progress;
use crate::rules::mismatch;
use crate::walker::Walk;
use std::alloc::Global;
use um_equal_types::{Row, RowStop, against, push_never, types_against};
use um_slots::{Context, copied, renamed};
use um_tree::{Scheme, Ty};
use um_units::Unit;
use um_uses::callee_units;

/// The units of so many holes from the first on.
pub(crate) fn hole_units(context: &Context, first: usize, many: usize) -> &[Unit]
    requires room { first + many ≤ length context.now.holes.items }
    ensures { result.now ≡ take many (drop first context.now.holes.items) }
{
    &context.holes[first..first + many]
}

/// Pushes the rows of parameters, whose variables are renamed, against arguments.
#[tactic(auto, using(um_equal_types::proofs::PushLaws::stops_front))]
fn arguments_against(
    alloc: Global,
    at: u32,
    by: &[Unit],
    params: &[Ty],
    arguments: &[Ty],
    rows: &mut Vec<Row>,
) -> Result<(), RowStop>
    requires variables { AreVariables by.now }
    requires below { All (λ t. TypeHas (VariablesBelow (length by.now)) (type_tree t)) params.now }
    ensures { ArePushed (types_against_steps at (map (put (nth by.now)) (map type_tree params.now))
        (map type_tree arguments.now)) rows.old.items rows.new.items result }
{
    match params {
        [] => match arguments {
            [] => Ok(()),
            [_, ..] => push_never(alloc, at, rows),
        },
        [param, params @ ..] => match arguments {
            [] => push_never(alloc, at, rows),
            [argument, arguments @ ..] => {
                let param = renamed(alloc, by, param)?;
                against(alloc, at, &param, argument, rows)?;
                arguments_against(alloc, at, by, params, arguments, rows)
            }
        },
    }
}

/// How many units a call of function j leaves open.
pub(crate) fn open_units(walk: &Walk, j: u32) -> usize
    ensures { result ≡ callee_holes (called walk.now.schemes.now walk.now.context j) }
{
    callee_units(walk.schemes, walk.context.number, j)
}

/// A call of an earlier function, at an instance of its scheme.
#[tactic(auto, using(crate::proofs::NodeLaws::node_made, crate::proofs::NodeLaws::node_stops))]
fn scheme_call(
    alloc: Global,
    at: u32,
    by: &[Unit],
    scheme: &Scheme,
    arguments: &[Ty],
    progress: &mut Progress,
) -> Result<Ty, RowStop>
    requires variables { AreVariables by.now }
    requires many { length by.now ≡ scheme.now.vars }
    requires closed { IsClosedScheme scheme.now }
    ensures reached { IsReached (node progress.old.rows.items progress.old.holes
        (call_rule at (Some (put_signature (nth by.now) (scheme_tree scheme.now).signature))
        (map type_tree arguments.now))) progress.new result }
    ensures fits { IfOk result (λ ty. IsTrue (type_fits (type_tree ty))) }
{
    arguments_against(
        alloc,
        at,
        by,
        &scheme.params.items,
        arguments,
        &mut progress.rows,
    )?;
    let result = renamed(alloc, by, &scheme.result)?;
    Ok(result)
}

/// A call of the function itself.
#[tactic(auto, using(crate::proofs::NodeLaws::node_made, crate::proofs::NodeLaws::node_stops))]
fn own_call(
    alloc: Global,
    at: u32,
    context: &Context,
    arguments: &[Ty],
    progress: &mut Progress,
) -> Result<Ty, RowStop>
    ensures reached { IsReached (node progress.old.rows.items progress.old.holes
        (call_rule at (Some (noted_signature context.now)) (map type_tree arguments.now))) progress.new result }
    ensures fits { IfOk result (λ ty. IsTrue (type_fits (type_tree ty))) }
{
    types_against(alloc, at, &context.params, arguments, &mut progress.rows)?;
    let result = copied(alloc, &context.result)?;
    Ok(result)
}

/// A call of function j, whose holes are numbered from the first on.
pub(crate) fn call(
    walk: &Walk,
    at: u32,
    first: usize,
    j: u32,
    arguments: &[Ty],
    progress: &mut Progress,
) -> Result<Ty, RowStop>
    requires room { first + callee_holes (called walk.now.schemes.now walk.now.context j)
        ≤ length walk.now.context.holes.items }
    ensures reached { IsReached (node progress.old.rows.items progress.old.holes
        (call_rule at (offer walk.now.records.now walk.now.schemes.now walk.now.context first j)
        (map type_tree arguments.now))) progress.new result }
    ensures fits { IfOk result (λ ty. IsTrue (type_fits (type_tree ty))) }
{
    let alloc = walk.alloc;
    let context = &walk.context;
    if j < context.number {
        return match walk.schemes.get(j as usize) {
            Some(scheme) => {
                let by = hole_units(context, first, scheme.vars as usize);
                scheme_call(alloc, at, by, scheme, arguments, progress)
            }
            None => mismatch(alloc, at, progress),
        };
    }
    if j == context.number && context.recurs {
        return own_call(alloc, at, context, arguments, progress);
    }
    mismatch(alloc, at, progress)
}
