// The shape of the value that is wanted next.
ghost use Rattle.std.specs.Prelude.{◌≡◌};
ghost use Rattle.um_tree.specs.TypeTree.{shape_tree, type_tree};
ghost use Rattle.um_tree.specs.Shapes.{type_shape};
ghost use Rattle.um_value.specs.ValueView.{wanted_shape, sort_shape};

use um_tree::{Shape, Ty};

/// A value of this shape, or one of the shape of this type.
#[derive(Clone, Copy)]
pub(crate) enum Wanted<'a> {
    OfShape(&'a Shape),
    OfType(&'a Ty),
}

/// What it is: a truth value, a number, a list of such items, the record of this number.
#[derive(Clone, Copy)]
pub(crate) enum Sort<'a> {
    Truth,
    Number,
    Items(Wanted<'a>),
    Parts(u32),
}

impl<'a> Wanted<'a> {
    pub(crate) fn sort(self) -> Sort<'a>
        ensures { sort_shape result ≡ wanted_shape self.entry }
    {
        match self {
            Wanted::OfShape(shape) => shape_sort(shape),
            Wanted::OfType(ty) => type_sort(ty),
        }
    }
}

fn shape_sort<'a>(shape: &'a Shape) -> Sort<'a>
    ensures { sort_shape result ≡ shape_tree shape.now }
{
    match shape {
        Shape::Bool => Sort::Truth,
        Shape::Num => Sort::Number,
        Shape::List(item) => Sort::Items(Wanted::OfShape(item)),
        Shape::Rec(r) => Sort::Parts(*r),
    }
}

fn type_sort<'a>(ty: &'a Ty) -> Sort<'a>
    ensures { sort_shape result ≡ type_shape (type_tree ty.now) }
{
    match ty {
        Ty::Bool => Sort::Truth,
        Ty::Num(_) => Sort::Number,
        Ty::List(item) => Sort::Items(Wanted::OfType(item)),
        Ty::Rec(r, _) => Sort::Parts(*r),
    }
}
