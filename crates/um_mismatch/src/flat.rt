//! A shape as a number of lists round an item, so that it is copied and compared at once.
ghost use Rattle.std.specs.Prelude.{◌≡◌, IfOk, IfSome};

use std::alloc::AllocError;
use um_tree::{Note, Ty};

/// What stands in the innermost list.
#[derive(Clone, Copy)]
pub(crate) enum Item {
    Bool,
    Num,
    /// The record of this number
    Rec(u32),
}

impl Item {
    ghost use Rattle.um_shape.specs.FirstFault.{same_shape};
    ghost use Rattle.um_mismatch.specs.FlatShapes.{item_shape};

    /// Whether the two are one.
    fn same(self, other: Item) -> bool
        ensures { result ≡ same_shape (item_shape self) (item_shape other) }
    {
        match (self, other) {
            (Item::Bool, Item::Bool) | (Item::Num, Item::Num) => true,
            (Item::Rec(r), Item::Rec(q)) => r == q,
            _ => false,
        }
    }
}

/// A shape: so many lists round an item.
#[derive(Clone, Copy)]
pub(crate) struct FlatShape {
    pub(crate) lists: u32,
    pub(crate) item: Item,
}

impl FlatShape {
    ghost use Rattle.std.specs.Option.{option_map};
    ghost use Rattle.um_tree.specs.TypeTree.{note_tree, type_tree};
    ghost use Rattle.um_tree.specs.TypeTree.{bool_shape, num_shape, list_shape, record_shape};
    ghost use Rattle.um_tree.specs.Shapes.{note_shape, type_shape};
    ghost use Rattle.um_shape.specs.FirstFault.{same_shape};
    ghost use Rattle.um_mismatch.specs.NodeRules.{list_item};
    ghost use Rattle.um_mismatch.specs.FlatShapes.{flat_shape};

    /// `bool`
    pub(crate) fn truth() -> FlatShape
        ensures { flat_shape result ≡ bool_shape }
    {
        FlatShape {
            lists: 0,
            item: Item::Bool,
        }
    }

    /// `num`
    pub(crate) fn number() -> FlatShape
        ensures { flat_shape result ≡ num_shape }
    {
        FlatShape {
            lists: 0,
            item: Item::Num,
        }
    }

    /// The record of this number
    pub(crate) fn record(r: u32) -> FlatShape
        ensures { flat_shape result ≡ record_shape r }
    {
        FlatShape {
            lists: 0,
            item: Item::Rec(r),
        }
    }

    /// The list of such items. So many lists that they can't be counted are want of memory.
    pub(crate) fn list(self) -> Result<FlatShape, AllocError>
        ensures { IfOk result (λ s. flat_shape s ≡ list_shape (flat_shape self)) }
    {
        if self.lists == u32::MAX {
            return Err(AllocError);
        }
        Ok(FlatShape {
            lists: self.lists + 1,
            item: self.item,
        })
    }

    /// The shape of the items, if it is a list.
    pub(crate) fn list_item(self) -> Option<FlatShape>
        ensures item { option_map flat_shape result ≡ list_item (flat_shape self) }
        ensures list { IfSome result (λ item. flat_shape self ≡ list_shape (flat_shape item)) }
    {
        if self.lists == 0 {
            return None;
        }
        Some(FlatShape {
            lists: self.lists - 1,
            item: self.item,
        })
    }

    /// Whether the two are one shape.
    pub(crate) fn same(self, other: FlatShape) -> bool
        ensures { result ≡ same_shape (flat_shape self) (flat_shape other) }
    {
        self.lists == other.lists && self.item.same(other.item)
    }

    /// The shape of a note.
    pub(crate) fn of_note(note: &Note) -> Result<FlatShape, AllocError>
        ensures { IfOk result (λ s. flat_shape s ≡ note_shape (note_tree note.now)) }
    {
        match note {
            Note::Bool => Ok(FlatShape::truth()),
            Note::Num(_) => Ok(FlatShape::number()),
            Note::List(items) => FlatShape::of_note(items)?.list(),
            Note::Rec(r, _) => Ok(FlatShape::record(*r)),
        }
    }

    /// The shape of a type.
    pub(crate) fn of_type(ty: &Ty) -> Result<FlatShape, AllocError>
        ensures { IfOk result (λ s. flat_shape s ≡ type_shape (type_tree ty.now)) }
    {
        match ty {
            Ty::Bool => Ok(FlatShape::truth()),
            Ty::Num(_) => Ok(FlatShape::number()),
            Ty::List(items) => FlatShape::of_type(items)?.list(),
            Ty::Rec(r, _) => Ok(FlatShape::record(*r)),
        }
    }
}
