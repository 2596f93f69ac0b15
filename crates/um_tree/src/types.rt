// Types, and shapes: types without their units.
//
// A derived drop would be proved anew in each crate that drops the type. The drops of these types are proved here.
use um_units::{Unit, Units};

/// A type.
pub enum Ty {
    /// `bool`
    Bool,
    /// `num<U>`
    Num(Unit),
    /// `T list`
    List(Box<Ty>),
    /// The record of this number, with its units
    Rec(u32, Units),
}

impl Drop for Ty {
    fn drop(self) {
        match self {
            Ty::Bool => {}
            Ty::Num(_) => {}
            Ty::List(_) => {}
            Ty::Rec(_, _) => {}
        }
    }
}

/// Some types, in order.
pub struct Types {
    pub items: Vec<Ty>,
}

impl Drop for Types {
    fn drop(self) {
        let Types { items: _ } = self;
    }
}

/// A type without its units.
pub enum Shape {
    /// `bool`
    Bool,
    /// `num`
    Num,
    /// A list of items of one shape
    List(Box<Shape>),
    /// The record of this number
    Rec(u32),
}

impl Drop for Shape {
    fn drop(self) {
        match self {
            Shape::Bool => {}
            Shape::Num => {}
            Shape::List(_) => {}
            Shape::Rec(_) => {}
        }
    }
}
