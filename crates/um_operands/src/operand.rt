// Expressions with their heights beside them, so that no height is counted again.
ghost use Rattle.std.specs.Prelude.{◌≡◌, ◌≤◌, IfOk, None, Some};
ghost use Rattle.um_tree.specs.RawTree.{expr_syntax, binder_syntax, type_syntax, written_note, truth_syntax};
ghost use Rattle.um_tree.specs.RawTree.{number_syntax, name_syntax, negate_syntax, not_syntax, pown_syntax, if_syntax};
ghost use Rattle.um_tree.specs.RawTree.{let_syntax, nil_syntax, field_syntax, bracket_expr_syntax};
ghost use Rattle.um_tree.specs.Heights.{expr_height};
ghost use Rattle.um_types.specs.TypeHeights.{whole_height};
ghost use Rattle.um_unit_texts.specs.UnitCount.{counted};
ghost use Rattle.um_unit_texts.specs.UnitStops.{greatest_height};
ghost use Rattle.um_operands.specs.ExprHeights.{notes_in, written_height};
ghost use Rattle.um_operands.specs.Ranks.{infix_text};

use crate::composite;
use crate::infix::Infix;
use std::alloc::{AllocError, Global};
use std::mem;
use um_frac::Frac;
use um_tree::{Binder, Name, RawExpr, RawNode, RawNote, RawType};
use um_unit_texts::{higher, one_higher};

/// An expression and its height, counted. No unit text or type text in it is too high. The tree stands in a box, as the
/// node around it holds it, so an operand is handed on at little cost.
#[derive(Drop)]
pub struct Operand {
    pub tree: Box<RawExpr>,
    pub height: u32,
    ghost exact: { height ≡ counted (expr_height (expr_syntax tree.value)) },
    ghost low: { notes_in (expr_syntax tree.value) ≤ greatest_height },
}

impl Operand {
    ghost use Rattle.um_operands.specs.ExprKinds.{is_name, is_plain_number, is_power};
    ghost use Rattle.um_operands.specs.ExprOperands.{operand_expr};

    /// The operand of a tree whose height is this, counted
    pub fn of_tree(alloc: Global, tree: RawExpr, height: u32) -> Result<Operand, AllocError>
        requires exact { height ≡ counted (expr_height (expr_syntax tree)) }
        requires low { notes_in (expr_syntax tree) ≤ greatest_height }
        ensures { IfOk result (λ p. operand_expr p ≡ expr_syntax tree) }
    {
        let tree = Box::new(alloc, tree)?;
        Ok(Operand { tree, height })
    }

    /// The same in a box whose own tree was used up. A number and a truth value hold nothing that has to be let go.
    pub fn in_room(room: Box<RawExpr>, tree: RawExpr, height: u32) -> Operand
        requires exact { height ≡ counted (expr_height (expr_syntax tree)) }
        requires low { notes_in (expr_syntax tree) ≤ greatest_height }
        ensures { operand_expr result ≡ expr_syntax tree }
    {
        let mut room = room;
        match &room.node {
            RawNode::Num(_, None) | RawNode::Bool(_) => {
                mem::forget(mem::replace(&mut *room, tree));
            }
            _ => drop(mem::replace(&mut *room, tree)),
        }
        Operand { tree: room, height }
    }

    /// `true` or `false`
    pub fn truth(alloc: Global, at: u32, value: bool) -> Result<Operand, AllocError>
        ensures { IfOk result (λ p. operand_expr p ≡ truth_syntax at value) }
    {
        let node = RawNode::Bool(value);
        Operand::of_tree(alloc, RawExpr { at, node }, 1)
    }

    /// A number, with its note if it has one
    pub fn number(
        alloc: Global,
        at: u32,
        value: Frac,
        note: Option<RawNote>,
    ) -> Result<Operand, AllocError>
        requires { written_height (written_note note) ≤ greatest_height }
        ensures { IfOk result (λ p. operand_expr p ≡ number_syntax at value (written_note note)) }
    {
        let node = RawNode::Num(value, note);
        Operand::of_tree(alloc, RawExpr { at, node }, 1)
    }

    /// A number with its note, in the box of the number without one
    pub fn noted(room: Box<RawExpr>, at: u32, value: Frac, note: RawNote) -> Operand
        requires { written_height (written_note (Some note)) ≤ greatest_height }
        ensures { operand_expr result ≡ number_syntax at value (written_note (Some note)) }
    {
        let node = RawNode::Num(value, Some(note));
        Operand::in_room(room, RawExpr { at, node }, 1)
    }

    /// A name, in a box whose own tree was used up
    pub fn named(room: Box<RawExpr>, at: u32, name: Name) -> Operand
        ensures { operand_expr result ≡ name_syntax at name }
    {
        let node = RawNode::Name(name);
        Operand::in_room(room, RawExpr { at, node }, 1)
    }

    /// A name
    pub fn name(alloc: Global, at: u32, name: Name) -> Result<Operand, AllocError>
        ensures { IfOk result (λ p. operand_expr p ≡ name_syntax at name) }
    {
        let node = RawNode::Name(name);
        Operand::of_tree(alloc, RawExpr { at, node }, 1)
    }

    /// `-e`
    pub fn negate(self, alloc: Global, at: u32) -> Result<Operand, AllocError>
        ensures { IfOk result (λ p. operand_expr p ≡ negate_syntax at (operand_expr self)) }
    {
        let Operand { tree, height } = self;
        let node = RawNode::Neg(tree);
        Operand::of_tree(alloc, RawExpr { at, node }, one_higher(height))
    }

    /// `not e`
    pub fn not(self, alloc: Global, at: u32) -> Result<Operand, AllocError>
        ensures { IfOk result (λ p. operand_expr p ≡ not_syntax at (operand_expr self)) }
    {
        let Operand { tree, height } = self;
        let node = RawNode::Not(tree);
        Operand::of_tree(alloc, RawExpr { at, node }, one_higher(height))
    }

    /// `pown e k`
    pub fn pown(self, alloc: Global, at: u32, k: i32) -> Result<Operand, AllocError>
        ensures { IfOk result (λ p. operand_expr p ≡ pown_syntax at (operand_expr self) k) }
    {
        let Operand { tree, height } = self;
        let node = RawNode::Pow(tree, k);
        Operand::of_tree(alloc, RawExpr { at, node }, one_higher(height))
    }

    /// `(e)`
    pub fn bracket(self, alloc: Global, at: u32) -> Result<Operand, AllocError>
        ensures { IfOk result (λ p. operand_expr p ≡ bracket_expr_syntax at (operand_expr self)) }
    {
        let Operand { tree, height } = self;
        let node = RawNode::Bracket(tree);
        Operand::of_tree(alloc, RawExpr { at, node }, one_higher(height))
    }

    /// `e.x`, with the place of the field's name
    pub fn field(
        self,
        alloc: Global,
        at: u32,
        place: u32,
        name: Name,
    ) -> Result<Operand, AllocError>
        ensures { IfOk result (λ p. operand_expr p ≡ field_syntax at place name (operand_expr self)) }
    {
        let Operand { tree, height } = self;
        let node = RawNode::Field(place, name, tree);
        Operand::of_tree(alloc, RawExpr { at, node }, one_higher(height))
    }

    /// A sign with both operands
    #[inline(always)]
    pub fn infix(
        self,
        alloc: Global,
        at: u32,
        sign: Infix,
        right: Operand,
    ) -> Result<Operand, AllocError>
        ensures { IfOk result (λ p. operand_expr p
            ≡ infix_text at sign (operand_expr self) (operand_expr right)) }
    {
        let Operand { tree, height } = self;
        let height = one_higher(higher(height, right.height));
        let right = right.tree;
        match sign {
            Infix::Or => {
                let node = RawNode::Or(tree, right);
                Operand::of_tree(alloc, RawExpr { at, node }, height)
            }
            Infix::And => {
                let node = RawNode::And(tree, right);
                Operand::of_tree(alloc, RawExpr { at, node }, height)
            }
            Infix::Compare(sign) => {
                let node = RawNode::Compare(sign, tree, right);
                Operand::of_tree(alloc, RawExpr { at, node }, height)
            }
            Infix::Cons => {
                let node = RawNode::Cons(tree, right);
                Operand::of_tree(alloc, RawExpr { at, node }, height)
            }
            Infix::Arith(op) => {
                let node = RawNode::Arith(op, tree, right);
                Operand::of_tree(alloc, RawExpr { at, node }, height)
            }
        }
    }

    /// `let x = self in body`
    pub fn bound(
        self,
        alloc: Global,
        at: u32,
        x: Binder,
        body: Operand,
    ) -> Result<Operand, AllocError>
        ensures { IfOk result (λ p. operand_expr p
            ≡ let_syntax at (binder_syntax x) (operand_expr self) (operand_expr body)) }
    {
        let Operand { tree, height } = self;
        let height = one_higher(higher(height, body.height));
        let node = RawNode::Let(x, tree, body.tree);
        Operand::of_tree(alloc, RawExpr { at, node }, height)
    }

    /// `if self then one else other`
    pub fn choice(
        self,
        alloc: Global,
        at: u32,
        one: Operand,
        other: Operand,
    ) -> Result<Operand, AllocError>
        ensures { IfOk result (λ p. operand_expr p
            ≡ if_syntax at (operand_expr self) (operand_expr one) (operand_expr other)) }
    {
        let Operand { tree, height } = self;
        let height = one_higher(higher(height, higher(one.height, other.height)));
        let node = RawNode::If(tree, one.tree, other.tree);
        Operand::of_tree(alloc, RawExpr { at, node }, height)
    }

    /// `([] : T)`
    pub fn nil(alloc: Global, at: u32, ty: RawType) -> Result<Operand, AllocError>
        requires { whole_height (type_syntax ty) ≤ greatest_height }
        ensures { IfOk result (λ p. operand_expr p ≡ nil_syntax at (type_syntax ty)) }
    {
        let node = RawNode::Nil(ty);
        Operand::of_tree(alloc, RawExpr { at, node }, 3)
    }

    /// Whether it is a name without arguments.
    pub fn is_name(&self) -> bool
        ensures { result ≡ is_name (operand_expr self.now) }
    {
        match &self.tree.node {
            RawNode::Name(_) => true,
            RawNode::Num(_, _) | RawNode::Pow(_, _) | composite!() => false,
        }
    }

    /// Whether it is a number without a note.
    pub fn is_plain_number(&self) -> bool
        ensures { result ≡ is_plain_number (operand_expr self.now) }
    {
        match &self.tree.node {
            RawNode::Num(_, None) => true,
            RawNode::Num(_, Some(_)) | RawNode::Name(_) | RawNode::Pow(_, _) | composite!() =>
                false,
        }
    }

    /// Whether it is a whole power.
    pub fn is_power(&self) -> bool
        ensures { result ≡ is_power (operand_expr self.now) }
    {
        match &self.tree.node {
            RawNode::Pow(_, _) => true,
            RawNode::Num(_, _) | RawNode::Name(_) | composite!() => false,
        }
    }
}
