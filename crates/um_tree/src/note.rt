// Type notes: types as they are written, in which a unit may be left open.
//
// A derived drop would be proved anew in each crate that drops the type. The drops of these types are proved here.
use um_units::Unit;

/// A unit as it is written in a note, or the hole `_`.
///
/// In a function's notes variable k is the function's k-th named variable. In a literal the written unit is closed.
pub enum UnitNote {
    /// Any unit.
    Hole,
    /// This unit.
    Written(Unit),
}

impl Drop for UnitNote {
    fn drop(self) {
        match self {
            UnitNote::Hole => {}
            UnitNote::Written(_) => {}
        }
    }
}

/// Some unit notes, in order.
pub struct UnitNotes {
    pub items: Vec<UnitNote>,
}

impl Drop for UnitNotes {
    fn drop(self) {
        let UnitNotes { items: _ } = self;
    }
}

/// A type as it is written.
pub enum Note {
    /// `bool`
    Bool,
    /// `num<U>`; `num` alone has the written unit 1
    Num(UnitNote),
    /// `T list`
    List(Box<Note>),
    /// The record of this number, with its units
    Rec(u32, UnitNotes),
}

impl Drop for Note {
    fn drop(self) {
        match self {
            Note::Bool => {}
            Note::Num(_) => {}
            Note::List(_) => {}
            Note::Rec(_, _) => {}
        }
    }
}

/// Some notes, in order.
pub struct Notes {
    pub items: Vec<Note>,
}

impl Drop for Notes {
    fn drop(self) {
        let Notes { items: _ } = self;
    }
}
