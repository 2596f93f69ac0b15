//! Operations of one part and of two parts.

ghost use Rattle.std.specs.Prelude.{IfOk, IsTrue, map};
ghost use Rattle.um_tree.specs.TypeTree.{type_tree};
ghost use Rattle.um_tree.specs.ProgramTree.{record_tree};
ghost use Rattle.um_elim.specs.Application.{type_fits};
ghost use Rattle.um_rows.specs.Operations.{unary_rule, binary_rule};
ghost use Rattle.um_rows.specs.Walk.{node};
ghost use Rattle.um_rows.specs.Reached.{IsReached};

use crate::progress::{Pair, Progress};
use crate::walker::Walk;
use crate::{records as values, rules};
use std::alloc::Global;
use um_equal_types::RowStop;
use um_tree::{Arith, Ty};

/// The operations of one part.
#[derive(Clone, Copy)]
pub(crate) enum Unary {
    Negate,
    Not,
    Power(i32),
    /// The record's number and the field's
    Field(u32, u32),
}

/// The operations of two parts.
#[derive(Clone, Copy)]
pub(crate) enum Binary {
    Arith(Arith),
    Compare,
    /// `&&` and `||`
    Truths,
    Cons,
}

/// The operation on a part of this type.
pub(crate) fn unary_node(
    walk: &Walk,
    at: u32,
    op: Unary,
    part: Ty,
    progress: &mut Progress,
) -> Result<Ty, RowStop>
    requires fits { IsTrue (type_fits (type_tree part)) }
    ensures reached { IsReached (node progress.old.rows.items progress.old.holes
        (unary_rule (map record_tree walk.now.records.now) at op (type_tree part))) progress.new result }
    ensures fits { IfOk result (λ ty. IsTrue (type_fits (type_tree ty))) }
{
    let alloc = walk.alloc;
    match op {
        Unary::Negate => rules::negate(alloc, at, part, progress),
        Unary::Power(k) => rules::pown(alloc, at, part, k, progress),
        Unary::Not => {
            let whole = rules::not(alloc, at, &part, progress);
            drop(part);
            whole
        }
        Unary::Field(r, k) => {
            let whole = values::field(walk, at, r, k, &part, progress);
            drop(part);
            whole
        }
    }
}

/// The operation on parts of these types.
pub(crate) fn binary_node(
    alloc: Global,
    at: u32,
    op: Binary,
    parts: Pair,
    progress: &mut Progress,
) -> Result<Ty, RowStop>
    requires first_fits { IsTrue (type_fits (type_tree parts.first)) }
    requires second_fits { IsTrue (type_fits (type_tree parts.second)) }
    ensures reached { IsReached (node progress.old.rows.items progress.old.holes
        (binary_rule at op (type_tree parts.first) (type_tree parts.second))) progress.new result }
    ensures fits { IfOk result (λ ty. IsTrue (type_fits (type_tree ty))) }
{
    let Pair { first, second } = parts;
    match op {
        Binary::Arith(op) => {
            let whole = rules::arith(alloc, at, op, first, &second, progress);
            drop(second);
            whole
        }
        Binary::Cons => {
            let whole = rules::cons(alloc, at, &first, second, progress);
            drop(first);
            whole
        }
        Binary::Compare => {
            let whole = rules::compare(alloc, at, &first, &second, progress);
            drop(first);
            drop(second);
            whole
        }
        Binary::Truths => {
            let whole = rules::truths(alloc, at, &first, &second, progress);
            drop(first);
            drop(second);
            whole
        }
    }
}
