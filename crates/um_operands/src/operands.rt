// The items, arguments and fields that were read, with the greatest of their heights.
ghost use Rattle.std.specs.Prelude.{◌≡◌, ◌≤◌, ◌++◌, ◌∷◌, [], IfOk, map};
ghost use Rattle.um_tree.specs.RawTree.{expr_syntax, exprs_in_order, field_part, fields_in_order};
ghost use Rattle.um_tree.specs.RawTree.{call_syntax, list_syntax, fields_syntax};
ghost use Rattle.um_tree.specs.Heights.{tallest_expr, tallest_field};
ghost use Rattle.um_unit_texts.specs.UnitCount.{counted};
ghost use Rattle.um_unit_texts.specs.UnitStops.{greatest_height};
ghost use Rattle.um_operands.specs.ExprHeights.{notes_in_all, notes_in_fields};
ghost use Rattle.um_operands.specs.ExprBegun.{with_field};

use crate::operand::Operand;
use std::alloc::{AllocError, Global};
use std::mem;
use um_tree::{Name, RawExpr, RawExprs, RawField, RawFields, RawNode};
use um_unit_texts::{higher, one_higher};

/// Some expressions and the height of the highest, counted. No unit text or type text in them is too high.
pub struct Operands {
    pub items: Vec<RawExpr>,
    pub height: u32,
    ghost exact: { height ≡ counted (tallest_expr (exprs_in_order (map expr_syntax items.items))) },
    ghost low: { notes_in_all (exprs_in_order (map expr_syntax items.items)) ≤ greatest_height },
}

// A derived drop would be proved anew in each crate that lets them go. This one is proved here.
impl Drop for Operands {
    fn drop(self) {
        let Operands {
            items: _,
            height: _,
        } = self;
    }
}

/// Some fields of a record text and the height of the highest, counted. No unit text or type text in them is too high.
pub struct ReadFields {
    pub items: Vec<RawField>,
    pub height: u32,
    ghost exact: { height ≡ counted (tallest_field (fields_in_order (map field_part items.items))) },
    ghost low: { notes_in_fields (fields_in_order (map field_part items.items)) ≤ greatest_height },
}

// A derived drop would be proved anew in each crate that lets them go. This one is proved here.
impl Drop for ReadFields {
    fn drop(self) {
        let ReadFields {
            items: _,
            height: _,
        } = self;
    }
}

// The items, with one more.
#[inline(always)]
fn added<T: Drop>(items: Vec<T>, last: T) -> Result<Vec<T>, AllocError>
    ensures { IfOk result (λ xs. xs.items ≡ items.items ++ last ∷ []) }
{
    let mut items = items;
    match items.reserve(1) {
        Ok(()) => {
            items.push_reserved(last);
            Ok(items)
        }
        Err(error) => {
            drop(items);
            drop(last);
            Err(error)
        }
    }
}

impl Operands {
    ghost use Rattle.um_operands.specs.ExprOperands.{operand_expr, operand_exprs};

    /// No items
    pub fn empty(alloc: Global) -> Operands
        ensures { operand_exprs result ≡ [] }
    {
        Operands {
            items: Vec::new(alloc),
            height: 0,
        }
    }

    /// With one item more, and the box in which that stood, whose tree was used up
    #[inline(always)]
    pub fn with_room(self, last: Operand) -> Result<(Operands, Box<RawExpr>), AllocError>
        ensures { IfOk result (λ r. operand_exprs r.0 ≡ operand_exprs self ++ operand_expr last ∷ []) }
    {
        let Operands { items, height } = self;
        let Operand {
            tree,
            height: last_height,
        } = last;
        let mut room = tree;
        let used = RawExpr {
            at: 0,
            node: RawNode::Bool(false),
        };
        match added(items, mem::replace(&mut *room, used)) {
            Ok(items) => {
                let height = higher(height, last_height);
                Ok((Operands { items, height }, room))
            }
            Err(error) => {
                drop(room);
                Err(error)
            }
        }
    }

    /// With one item more
    #[inline(always)]
    pub fn with(self, last: Operand) -> Result<Operands, AllocError>
        ensures { IfOk result (λ f. operand_exprs f ≡ operand_exprs self ++ operand_expr last ∷ []) }
    {
        let Operands { items, height } = self;
        let Operand {
            tree,
            height: last_height,
        } = last;
        let items = added(items, Box::into_inner(tree))?;
        Ok(Operands {
            items,
            height: higher(height, last_height),
        })
    }

    /// The call of a name with these arguments, in a box whose own tree was used up
    pub fn call(self, at: u32, name: Name, room: Box<RawExpr>) -> Operand
        ensures { operand_expr result ≡ call_syntax at name (exprs_in_order (operand_exprs self)) }
    {
        let Operands { items, height } = self;
        let node = RawNode::Call(name, RawExprs { items });
        Operand::in_room(room, RawExpr { at, node }, one_higher(height))
    }

    /// The list of these items
    pub fn list(self, alloc: Global, at: u32) -> Result<Operand, AllocError>
        ensures { IfOk result (λ p. operand_expr p ≡ list_syntax at (exprs_in_order (operand_exprs self))) }
    {
        let Operands { items, height } = self;
        let node = RawNode::List(RawExprs { items });
        Operand::of_tree(alloc, RawExpr { at, node }, one_higher(height))
    }
}

impl ReadFields {
    ghost use Rattle.um_operands.specs.ExprOperands.{operand_expr, read_fields};

    /// No fields
    pub fn empty(alloc: Global) -> ReadFields
        ensures { read_fields result ≡ [] }
    {
        ReadFields {
            items: Vec::new(alloc),
            height: 0,
        }
    }

    /// With one field more, its name at its place
    pub fn with(self, at: u32, name: Name, last: Operand) -> Result<ReadFields, AllocError>
        ensures { IfOk result (λ f. read_fields f ≡ with_field (read_fields self) at name (operand_expr last)) }
    {
        let ReadFields { items, height } = self;
        let Operand {
            tree,
            height: last_height,
        } = last;
        let field = RawField {
            at,
            name,
            value: Box::into_inner(tree),
        };
        let items = added(items, field)?;
        Ok(ReadFields {
            items,
            height: higher(height, last_height),
        })
    }

    /// The record text with these fields
    pub fn whole(self, alloc: Global, at: u32) -> Result<Operand, AllocError>
        ensures { IfOk result (λ p. operand_expr p ≡ fields_syntax at (fields_in_order (read_fields self))) }
    {
        let ReadFields { items, height } = self;
        let node = RawNode::Rec(RawFields { items });
        Operand::of_tree(alloc, RawExpr { at, node }, one_higher(height))
    }
}
