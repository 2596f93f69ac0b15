//! A shape on the stack as a number of lists round an item, so that it is copied and compared at once.
ghost use Rattle.std.specs.Prelude.{◌≡◌, ◌<◌, ◌≤◌, ◌+◌, [], option_map, MatchOption};
ghost use Rattle.um_tree.specs.Heights.{greatest_height};
ghost use Rattle.um_verify.specs.StackShape.{StackShape, list, fits, join};
ghost use Rattle.um_verify.specs.Rules.{Flow, fails, on_list_shape};

use um_tree::{GREATEST_HEIGHT, Shape, Ty};

/// What stands in the innermost list.
#[derive(Clone, Copy)]
pub enum Item {
    /// Nothing yet: no value has this shape
    Void,
    Bool,
    Num,
    /// The record of this number
    Record(u32),
}

impl Item {
    ghost use Rattle.um_stacks.specs.FlatShapes.{item_shape, names_below};

    /// The least item whose shape both fit.
    fn join(self, other: Item) -> Option<Item>
        ensures { option_map item_shape result ≡ join (item_shape self) (item_shape other) }
    {
        match self {
            Item::Void => Some(other),
            Item::Bool => match other {
                Item::Void => Some(self),
                Item::Bool => Some(self),
                Item::Num => None,
                Item::Record(_) => None,
            },
            Item::Num => match other {
                Item::Void => Some(self),
                Item::Bool => None,
                Item::Num => Some(self),
                Item::Record(_) => None,
            },
            Item::Record(q) => match other {
                Item::Void => Some(self),
                Item::Bool => None,
                Item::Num => None,
                Item::Record(r) => { if q == r { Some(self) } else { None } }
            },
        }
    }

    /// Whether the record that it names, if it names one, is below `count`.
    fn names_below(self, count: usize) -> bool
        ensures { result ≡ names_below count (item_shape self) }
    {
        match self {
            Item::Void => true,
            Item::Bool => true,
            Item::Num => true,
            Item::Record(r) => (r as usize) < count,
        }
    }

    /// Whether each value of this item is one of the other.
    fn fits(self, other: Item) -> bool
        ensures { result ≡ fits (item_shape self) (item_shape other) }
    {
        match self {
            Item::Void => true,
            Item::Bool => match other {
                Item::Void => false,
                Item::Bool => true,
                Item::Num => false,
                Item::Record(_) => false,
            },
            Item::Num => match other {
                Item::Void => false,
                Item::Bool => false,
                Item::Num => true,
                Item::Record(_) => false,
            },
            Item::Record(q) => match other {
                Item::Void => false,
                Item::Bool => false,
                Item::Num => false,
                Item::Record(r) => q == r,
            },
        }
    }
}

/// A shape: so many lists round an item. A shape that is kept has fewer than 400 lists.
#[derive(Clone, Copy)]
pub struct FlatShape {
    pub lists: u32,
    pub item: Item,
    ghost low: { lists < greatest_height },
}

impl FlatShape {
    ghost use Rattle.um_tree.specs.TypeTree.{type_tree, shape_tree};
    ghost use Rattle.um_tree.specs.TreeHeights.{type_tree_height};
    ghost use Rattle.um_tree.specs.Shapes.{type_shape};
    ghost use Rattle.um_shape.specs.RecordShapes.{shape_height};
    ghost use Rattle.um_verify.specs.StackShape.{on_stack};
    ghost use Rattle.um_stacks.specs.FlatShapes.{item_shape, flat_shape, names_below};

    /// The shape of the item alone.
    pub fn of(item: Item) -> FlatShape
        ensures { flat_shape result ≡ item_shape item }
    {
        FlatShape { lists: 0, item }
    }

    /// The shape of a type.
    pub fn of_type(ty: &Ty) -> FlatShape
        requires low { type_tree_height (type_tree ty.now) ≤ greatest_height }
        ensures shape { flat_shape result ≡ on_stack (type_shape (type_tree ty.now)) }
        ensures lists { result.lists + 1 ≡ type_tree_height (type_tree ty.now) }
    {
        match ty {
            Ty::Bool => FlatShape {
                lists: 0,
                item: Item::Bool,
            },
            Ty::Num(_) => FlatShape {
                lists: 0,
                item: Item::Num,
            },
            Ty::List(items) => {
                let inner = FlatShape::of_type(items);
                FlatShape {
                    lists: inner.lists + 1,
                    item: inner.item,
                }
            }
            Ty::Rec(r, _) => FlatShape {
                lists: 0,
                item: Item::Record(*r),
            },
        }
    }

    /// The shape of a value, on the stack.
    pub fn of_shape(shape: &Shape) -> FlatShape
        requires low { shape_height [] (shape_tree shape.now) ≤ greatest_height }
        ensures shape { flat_shape result ≡ on_stack (shape_tree shape.now) }
        ensures lists { result.lists + 1 ≡ shape_height [] (shape_tree shape.now) }
    {
        match shape {
            Shape::Bool => FlatShape {
                lists: 0,
                item: Item::Bool,
            },
            Shape::Num => FlatShape {
                lists: 0,
                item: Item::Num,
            },
            Shape::List(items) => {
                let inner = FlatShape::of_shape(items);
                FlatShape {
                    lists: inner.lists + 1,
                    item: inner.item,
                }
            }
            Shape::Rec(r) => FlatShape {
                lists: 0,
                item: Item::Record(*r),
            },
        }
    }

    /// Whether the record that it names, if it names one, is below `count`.
    pub fn names_below(self, count: usize) -> bool
        ensures { result ≡ names_below count (flat_shape self) }
    {
        self.item.names_below(count)
    }

    /// The shape of a list of such items, if it has fewer than 400 lists.
    pub fn list(self) -> Option<FlatShape>
        ensures { MatchOption result (greatest_height ≤ self.lists + 1) (λ l. flat_shape l ≡ list (flat_shape self)) }
    {
        if self.lists + 1 >= GREATEST_HEIGHT {
            return None;
        }
        Some(FlatShape {
            lists: self.lists + 1,
            item: self.item,
        })
    }

    /// The shape of the items of a list of this shape, if it is a list's or that of no value.
    pub fn items(self) -> Option<FlatShape>
        ensures { (go : StackShape → StackShape → Flow) → MatchOption result (on_list_shape (flat_shape self) go
            ≡ fails) (λ i. on_list_shape (flat_shape self) go ≡ go (flat_shape i) (flat_shape self)) }
    {
        if self.lists > 0 {
            return Some(FlatShape {
                lists: self.lists - 1,
                item: self.item,
            });
        }
        match self.item {
            Item::Void => Some(self),
            Item::Bool => None,
            Item::Num => None,
            Item::Record(_) => None,
        }
    }

    /// Whether each value of this shape is one of the other.
    pub fn fits(self, other: FlatShape) -> bool
        ensures { result ≡ fits (flat_shape self) (flat_shape other) }
    {
        if self.lists < other.lists {
            match self.item {
                Item::Void => true,
                Item::Bool => false,
                Item::Num => false,
                Item::Record(_) => false,
            }
        } else if other.lists < self.lists {
            false
        } else {
            self.item.fits(other.item)
        }
    }

    /// The least shape that both fit.
    pub fn join(self, other: FlatShape) -> Option<FlatShape>
        ensures { option_map flat_shape result ≡ join (flat_shape self) (flat_shape other) }
    {
        if self.lists < other.lists {
            match self.item {
                Item::Void => Some(other),
                Item::Bool => None,
                Item::Num => None,
                Item::Record(_) => None,
            }
        } else if other.lists < self.lists {
            match other.item {
                Item::Void => Some(self),
                Item::Bool => None,
                Item::Num => None,
                Item::Record(_) => None,
            }
        } else {
            match self.item.join(other.item) {
                None => None,
                Some(item) => Some(FlatShape {
                    lists: self.lists,
                    item,
                }),
            }
        }
    }
}
