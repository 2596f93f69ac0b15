//! A shape as a number of lists round an item, so that it is copied and compared at once.
ghost use Rattle.std.specs.Prelude.{◌≡◌, ◌<◌, ◌≤◌, ◌+◌, IfOk};
ghost use Rattle.um_tree.specs.Heights.{greatest_height};

use std::alloc::Global;
use um_tree::{Note, Shape, Ty};
use um_units::NoMemory;

/// What stands in the innermost list.
#[derive(Clone, Copy)]
pub(crate) enum Item {
    Bool,
    Num,
    /// The record of this number
    Rec(u32),
}

impl Item {
    ghost use Rattle.um_shape.specs.FirstFault.{same_shape};
    ghost use Rattle.um_shape.specs.FlatShapes.{item_shape};

    /// Whether the two are one.
    pub(crate) fn same(self, other: Item) -> bool
        ensures { result ≡ same_shape (item_shape self) (item_shape other) }
    {
        match (self, other) {
            (Item::Bool, Item::Bool) | (Item::Num, Item::Num) => true,
            (Item::Rec(r), Item::Rec(q)) => r == q,
            _ => false,
        }
    }
}

/// A shape: so many lists round an item. A shape that is kept has fewer than 400 lists.
#[derive(Clone, Copy)]
pub(crate) struct FlatShape {
    pub(crate) lists: u32,
    pub(crate) item: Item,
    ghost low: { lists < greatest_height },
}

impl FlatShape {
    ghost use Rattle.um_tree.specs.TypeTree.{note_tree, type_tree, shape_tree};
    ghost use Rattle.um_tree.specs.TypeTree.{bool_shape, num_shape, list_shape, record_shape};
    ghost use Rattle.um_tree.specs.TreeHeights.{note_tree_height, type_tree_height};
    ghost use Rattle.um_tree.specs.Shapes.{note_shape, type_shape};
    ghost use Rattle.um_shape.specs.FirstFault.{same_shape};
    ghost use Rattle.um_shape.specs.FlatShapes.{flat_shape};

    /// `bool`
    pub(crate) fn truth() -> FlatShape
        ensures shape { flat_shape result ≡ bool_shape }
        ensures lists { result.lists ≡ 0 }
    {
        FlatShape {
            lists: 0,
            item: Item::Bool,
        }
    }

    /// `num`
    pub(crate) fn number() -> FlatShape
        ensures shape { flat_shape result ≡ num_shape }
        ensures lists { result.lists ≡ 0 }
    {
        FlatShape {
            lists: 0,
            item: Item::Num,
        }
    }

    /// The record of this number
    pub(crate) fn record(r: u32) -> FlatShape
        ensures shape { flat_shape result ≡ record_shape r }
        ensures lists { result.lists ≡ 0 }
    {
        FlatShape {
            lists: 0,
            item: Item::Rec(r),
        }
    }

    /// Whether the two are one shape.
    pub(crate) fn same(self, other: FlatShape) -> bool
        ensures { result ≡ same_shape (flat_shape self) (flat_shape other) }
    {
        self.lists == other.lists && self.item.same(other.item)
    }

    /// Whether it is a list of these items.
    pub(crate) fn is_list_of(self, items: FlatShape) -> bool
        ensures { result ≡ same_shape (flat_shape self) (list_shape (flat_shape items)) }
    {
        self.lists == items.lists + 1 && self.item.same(items.item)
    }

    /// The shape of a note.
    pub(crate) fn of_note(note: &Note) -> FlatShape
        requires low { note_tree_height (note_tree note.now) ≤ greatest_height }
        ensures shape { flat_shape result ≡ note_shape (note_tree note.now) }
        ensures lists { result.lists + 1 ≡ note_tree_height (note_tree note.now) }
    {
        match note {
            Note::Bool => FlatShape::truth(),
            Note::Num(_) => FlatShape::number(),
            Note::List(items) => {
                let inner = FlatShape::of_note(items);
                FlatShape {
                    lists: inner.lists + 1,
                    item: inner.item,
                }
            }
            Note::Rec(r, _) => FlatShape::record(*r),
        }
    }

    /// The shape of a type.
    pub(crate) fn of_type(ty: &Ty) -> FlatShape
        requires low { type_tree_height (type_tree ty.now) ≤ greatest_height }
        ensures shape { flat_shape result ≡ type_shape (type_tree ty.now) }
        ensures lists { result.lists + 1 ≡ type_tree_height (type_tree ty.now) }
    {
        match ty {
            Ty::Bool => FlatShape::truth(),
            Ty::Num(_) => FlatShape::number(),
            Ty::List(items) => {
                let inner = FlatShape::of_type(items);
                FlatShape {
                    lists: inner.lists + 1,
                    item: inner.item,
                }
            }
            Ty::Rec(r, _) => FlatShape::record(*r),
        }
    }

    /// The shape as a tree.
    pub(crate) fn to_shape(self, alloc: Global) -> Result<Shape, NoMemory>
        ensures { IfOk result (λ shape. shape_tree shape ≡ flat_shape self) }
    {
        let mut shape = match self.item {
            Item::Bool => Shape::Bool,
            Item::Num => Shape::Num,
            Item::Rec(r) => Shape::Rec(r),
        };
        for _ in 0..self.lists {
            shape = Shape::List(Box::new(alloc, shape)?);
        }
        Ok(shape)
    }
}
