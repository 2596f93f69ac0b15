//! The body of a function whose text is handed over: each part of the text is let go after it was resolved.

ghost use Rattle.std.specs.Prelude.{◌≡◌, ◌∷◌, ◌++◌, [], Ok, IfOk, IfErr, OnOk, map};
ghost use Rattle.um_tree.specs.ExprTree.{expr_tree, in_order};
ghost use Rattle.um_tree.specs.RawTree.{expr_syntax, exprs_in_order};
ghost use Rattle.um_measures.specs.Stops.{IsFirst};
ghost use Rattle.um_names.specs.Bodies.{resolved_in, resolved_all_in};

use crate::expr::expr;
use crate::lookup::Lookup;
use crate::node::located;
use um_measures::{NameStop, Scope};
use um_tree::{Expr, Exprs, Node, RawExpr, RawNode};

/// The expression of a body. The items of a list are let go one after another, so that the memory of each serves the
/// next, and a long text and its tree don't stand side by side.
pub(crate) fn body(lookup: &Lookup, scope: &mut Scope, raw: RawExpr) -> Result<Expr, NameStop>
    ensures exact { IfOk result (λ r.
        resolved_in lookup.now.tables.now lookup.now.body.now scope.old (expr_syntax raw) ≡ Ok (expr_tree r)) }
    ensures faults { IfErr result (IsFirst (resolved_in lookup.now.tables.now lookup.now.body.now scope.old
        (expr_syntax raw))) }
    ensures scope { OnOk result (scope.new ≡ scope.old) }
{
    let (at, node) = raw.into_parts();
    match node {
        RawNode::List(items) => {
            let items = parts(lookup, scope, items.items)?;
            located(at, Node::List(Exprs { items }))
        }
        node => part(lookup, scope, RawExpr { at, node }),
    }
}

/// The expression of a text, which is let go.
fn part(lookup: &Lookup, scope: &mut Scope, raw: RawExpr) -> Result<Expr, NameStop>
    ensures exact { IfOk result (λ r.
        resolved_in lookup.now.tables.now lookup.now.body.now scope.old (expr_syntax raw) ≡ Ok (expr_tree r)) }
    ensures faults { IfErr result (IsFirst (resolved_in lookup.now.tables.now lookup.now.body.now scope.old
        (expr_syntax raw))) }
    ensures scope { OnOk result (scope.new ≡ scope.old) }
{
    let resolved = expr(lookup, scope, &raw);
    drop(raw);
    resolved
}

/// The expressions of texts, each of which is let go before the next.
fn parts(lookup: &Lookup, scope: &mut Scope, items: Vec<RawExpr>) -> Result<Vec<Expr>, NameStop>
    ensures exact { IfOk result (λ es. resolved_all_in lookup.now.tables.now lookup.now.body.now scope.old
        (exprs_in_order (map expr_syntax items.items)) ≡ Ok (in_order (map expr_tree es.items))) }
    ensures faults { IfErr result (IsFirst (resolved_all_in lookup.now.tables.now lookup.now.body.now scope.old
        (exprs_in_order (map expr_syntax items.items)))) }
    ensures scope { OnOk result (scope.new ≡ scope.old) }
{
    let mut es = Vec::new(lookup.alloc);
    es.reserve(items.len())?;
    for item in items {
        es.push(part(lookup, scope, item)?)?;
    }
    Ok(es)
}
