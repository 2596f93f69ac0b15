//! The slots of an expression: of its holes and its named variables, a node before its parts.

ghost use Rattle.std.specs.Prelude.{◌≡◌, ◌+◌, ◌++◌, OnOk, length, map};
ghost use Rattle.um_tree.specs.ExprTree.{expr_tree, in_order};
ghost use Rattle.um_slots.specs.Keys.{hole_keys};
ghost use Rattle.um_slots.specs.Slotting.{HaveSlots};
ghost use Rattle.um_slots.specs.Contexts.{keys_in, all_keys_in, holes_in, all_holes_in};

use crate::definition::Environment;
use crate::slots::{Slots, note_slots, unit_slots};
use crate::stop::SlotStop;
use um_tree::{Expr, Node};
use um_uses::{callee_units, record_units};

/// Gives slots to the holes and the named variables of an expression.
#[cycle(slots)]
pub(crate) fn expr_slots(
    environment: &Environment,
    e: &Expr,
    slots: &mut Slots,
) -> Result<(), SlotStop>
    ensures slots { HaveSlots (keys_in environment.now (length slots.old.holes.items) (expr_tree e.now)) slots.old
        slots.new result }
    ensures counted { OnOk result (length slots.new.holes.items ≡ length slots.old.holes.items
        + holes_in environment.now (expr_tree e.now)) }
{
    match &e.node {
        Node::Bool(_) | Node::Local(_) => Ok(()),
        Node::Num(_, note) => unit_slots(environment.alloc, note, slots),
        Node::Nil(note) => note_slots(environment.alloc, note, slots),
        Node::Neg(a) => expr_slots(environment, a, slots),
        Node::Not(a) => expr_slots(environment, a, slots),
        Node::Pow(a, _) => expr_slots(environment, a, slots),
        Node::Field(_, _, a) => expr_slots(environment, a, slots),
        Node::Arith(_, a, b) => pair_slots(environment, a, b, slots),
        Node::Compare(_, a, b) => pair_slots(environment, a, b, slots),
        Node::And(a, b) => pair_slots(environment, a, b, slots),
        Node::Or(a, b) => pair_slots(environment, a, b, slots),
        Node::Let(a, b) => pair_slots(environment, a, b, slots),
        Node::Cons(a, b) => pair_slots(environment, a, b, slots),
        Node::If(c, a, b) => {
            expr_slots(environment, c, slots)?;
            pair_slots(environment, a, b, slots)
        }
        Node::Match(c, a, b) => {
            expr_slots(environment, c, slots)?;
            pair_slots(environment, a, b, slots)
        }
        Node::List(items) => exprs_slots(environment, &items.items, slots),
        Node::Call(j, parts) => {
            let many = callee_units(environment.schemes, environment.number, *j);
            use_slots(environment, many, &parts.items, slots)
        }
        Node::Rec(r, parts) => {
            let many = record_units(environment.records, *r);
            use_slots(environment, many, &parts.items, slots)
        }
    }
}

/// Gives slots to two expressions, one after the other.
#[cycle(slots)]
fn pair_slots(
    environment: &Environment,
    a: &Expr,
    b: &Expr,
    slots: &mut Slots,
) -> Result<(), SlotStop>
    ensures slots { HaveSlots (keys_in environment.now (length slots.old.holes.items) (expr_tree a.now)
        ++ keys_in environment.now (length slots.old.holes.items + holes_in environment.now (expr_tree a.now))
        (expr_tree b.now)) slots.old slots.new result }
    ensures counted { OnOk result (length slots.new.holes.items ≡ length slots.old.holes.items
        + (holes_in environment.now (expr_tree a.now) + holes_in environment.now (expr_tree b.now))) }
{
    expr_slots(environment, a, slots)?;
    expr_slots(environment, b, slots)
}

/// Gives slots to the units that a call or a record leaves open, so many, and to its parts.
#[cycle(slots)]
fn use_slots(
    environment: &Environment,
    many: usize,
    parts: &[Expr],
    slots: &mut Slots,
) -> Result<(), SlotStop>
    ensures slots { HaveSlots (hole_keys (length slots.old.holes.items) many
        ++ all_keys_in environment.now (length slots.old.holes.items + many) (in_order (map expr_tree parts.now)))
        slots.old slots.new result }
    ensures counted { OnOk result (length slots.new.holes.items ≡ length slots.old.holes.items
        + (many + all_holes_in environment.now (in_order (map expr_tree parts.now)))) }
{
    slots.add_holes(environment.alloc, many)?;
    exprs_slots(environment, parts, slots)
}

/// Gives slots to expressions, one after another.
#[cycle(slots)]
fn exprs_slots(environment: &Environment, parts: &[Expr], slots: &mut Slots) -> Result<(), SlotStop>
    ensures slots { HaveSlots (all_keys_in environment.now (length slots.old.holes.items)
        (in_order (map expr_tree parts.now))) slots.old slots.new result }
    ensures counted { OnOk result (length slots.new.holes.items ≡ length slots.old.holes.items
        + all_holes_in environment.now (in_order (map expr_tree parts.now))) }
{
    for i in 0..parts.len() {
        expr_slots(environment, &parts[i], slots)?;
    }
    Ok(())
}
