// The raw tree: what the grammar reads, before its names are looked up.
//
// Places are byte offsets in the text. Brackets leave a node here, so that a text can be laid out as it was written.
//
// A derived drop would be proved anew in each crate that drops the type. The drops of these types are proved here.
ghost use Rattle.std.specs.Prelude.{◌≡◌};

use crate::{Arith, Name, Sign};
use um_frac::Frac;

/// A unit text.
#[cycle(raw_unit)]
pub enum RawUnit {
    /// `1`, at its place
    One(u32),
    /// A measure, at its place
    Name(u32, Name),
    /// A variable without its quote, at the quote's place
    Var(u32, Name),
    /// `U^k`
    Power(Box<RawUnit>, i32),
    /// A juxtaposition of two or more
    Side(RawUnits),
    /// `U * V`
    Times(Box<RawUnit>, Box<RawUnit>),
    /// `U / V`
    Over(Box<RawUnit>, Box<RawUnit>),
    /// A leading `/`, at its place, with the first juxtaposition
    Inverse(u32, Box<RawUnit>),
    /// Brackets, at the opening one
    Bracket(u32, Box<RawUnit>),
}

impl Drop for RawUnit {
    #[cycle(raw_unit)]
    fn drop(self) {
        match self {
            RawUnit::One(_) => {}
            RawUnit::Name(_, _) => {}
            RawUnit::Var(_, _) => {}
            RawUnit::Power(_, _) => {}
            RawUnit::Side(_) => {}
            RawUnit::Times(_, _) => {}
            RawUnit::Over(_, _) => {}
            RawUnit::Inverse(_, _) => {}
            RawUnit::Bracket(_, _) => {}
        }
    }
}

/// Some unit texts, in order.
#[cycle(raw_unit)]
pub struct RawUnits {
    pub items: Vec<RawUnit>,
}

impl Drop for RawUnits {
    #[cycle(raw_unit)]
    fn drop(self) {
        let RawUnits { items: _ } = self;
    }
}

/// What stands between `<` and `>`.
pub enum RawNote {
    /// `_`, at its place
    Hole(u32),
    /// A unit text, at the place of its first token
    Unit(u32, RawUnit),
}

impl Drop for RawNote {
    fn drop(self) {
        match self {
            RawNote::Hole(_) => {}
            RawNote::Unit(_, _) => {}
        }
    }
}

/// Some of these, in order.
pub struct RawNotes {
    pub items: Vec<RawNote>,
}

impl Drop for RawNotes {
    fn drop(self) {
        let RawNotes { items: _ } = self;
    }
}

/// A type text.
#[derive(Drop)]
pub enum RawType {
    Bool,
    /// `num`, with what stands in its angle brackets, if any
    Num(Option<RawNote>),
    /// A record, at its name, with its units
    Name(u32, Name, RawNotes),
    /// `T list`
    List(Box<RawType>),
    Bracket(Box<RawType>),
}

/// Some type texts, in order.
pub struct RawTypes {
    pub items: Vec<RawType>,
}

impl Drop for RawTypes {
    fn drop(self) {
        let RawTypes { items: _ } = self;
    }
}

/// A name that is bound, or `_`.
pub struct Binder {
    pub at: u32,
    /// The name; nothing for `_`
    pub name: Option<Name>,
}

impl Drop for Binder {
    fn drop(self) {
        let Binder { at: _, name: _ } = self;
    }
}

/// An expression, at its place in the text.
#[cycle(raw_expression)]
pub struct RawExpr {
    pub at: u32,
    pub node: RawNode,
}

impl RawExpr {
    /// Its place and its node.
    pub fn into_parts(self) -> (u32, RawNode)
        ensures at { result.0 ≡ self.at }
        ensures node { result.1 ≡ self.node }
    {
        let RawExpr { at, node } = self;
        (at, node)
    }
}

impl Drop for RawExpr {
    #[cycle(raw_expression)]
    fn drop(self) {
        let RawExpr { at: _, node: _ } = self;
    }
}

/// What an expression is.
#[cycle(raw_expression)]
#[derive(Drop)]
pub enum RawNode {
    Bool(bool),
    /// A number, with what stands in its angle brackets, if any
    Num(Frac, Option<RawNote>),
    /// A name without arguments
    Name(Name),
    /// A name with arguments, at least one
    Call(Name, RawExprs),
    Neg(Box<RawExpr>),
    Not(Box<RawExpr>),
    /// `pown e k`
    Pow(Box<RawExpr>, i32),
    Arith(Arith, Box<RawExpr>, Box<RawExpr>),
    Compare(Sign, Box<RawExpr>, Box<RawExpr>),
    And(Box<RawExpr>, Box<RawExpr>),
    Or(Box<RawExpr>, Box<RawExpr>),
    If(Box<RawExpr>, Box<RawExpr>, Box<RawExpr>),
    Let(Binder, Box<RawExpr>, Box<RawExpr>),
    /// The list, the empty arm, head and tail in boxes, which keeps all nodes small, and the full arm
    Match(Box<RawExpr>, Box<RawExpr>, Box<Binder>, Box<Binder>, Box<RawExpr>),
    /// `([] : T)`
    Nil(RawType),
    /// At least one item
    List(RawExprs),
    Cons(Box<RawExpr>, Box<RawExpr>),
    /// At least one field
    Rec(RawFields),
    /// A part, the place of the field's name, and the field's name
    Field(u32, Name, Box<RawExpr>),
    Bracket(Box<RawExpr>),
}

/// Some expressions, in order.
#[cycle(raw_expression)]
#[derive(Drop)]
pub struct RawExprs {
    pub items: Vec<RawExpr>,
}

/// A field of a record text, at its name.
#[cycle(raw_expression)]
pub struct RawField {
    pub at: u32,
    pub name: Name,
    pub value: RawExpr,
}

impl Drop for RawField {
    #[cycle(raw_expression)]
    fn drop(self) {
        let RawField {
            at: _,
            name: _,
            value: _,
        } = self;
    }
}

/// Some fields, in order.
#[cycle(raw_expression)]
pub struct RawFields {
    pub items: Vec<RawField>,
}

impl Drop for RawFields {
    #[cycle(raw_expression)]
    fn drop(self) {
        let RawFields { items: _ } = self;
    }
}

/// A declared unit parameter, at its quote.
pub struct RawVar {
    pub at: u32,
    pub name: Name,
}

impl Drop for RawVar {
    fn drop(self) {
        let RawVar { at: _, name: _ } = self;
    }
}

/// Some unit parameters, in order.
pub struct RawVars {
    pub items: Vec<RawVar>,
}

impl Drop for RawVars {
    fn drop(self) {
        let RawVars { items: _ } = self;
    }
}

/// A declared field, at its name.
pub struct RawFieldDecl {
    pub at: u32,
    pub name: Name,
    pub ty: RawType,
}

impl Drop for RawFieldDecl {
    fn drop(self) {
        let RawFieldDecl {
            at: _,
            name: _,
            ty: _,
        } = self;
    }
}

/// Some declared fields, in order.
pub struct RawFieldDecls {
    pub items: Vec<RawFieldDecl>,
}

impl Drop for RawFieldDecls {
    fn drop(self) {
        let RawFieldDecls { items: _ } = self;
    }
}

/// A declared parameter.
pub struct RawParam {
    pub binder: Binder,
    pub ty: RawType,
}

impl Drop for RawParam {
    fn drop(self) {
        let RawParam { binder: _, ty: _ } = self;
    }
}

/// Some parameters, in order.
pub struct RawParams {
    pub items: Vec<RawParam>,
}

impl Drop for RawParams {
    fn drop(self) {
        let RawParams { items: _ } = self;
    }
}

/// A declared function, at its name.
#[derive(Drop)]
pub struct RawFunction {
    pub at: u32,
    pub name: Name,
    pub recursive: bool,
    pub units: RawVars,
    pub params: RawParams,
    pub result: Option<RawType>,
    pub body: RawExpr,
}

/// A declaration, at its name.
#[derive(Drop)]
pub enum RawDecl {
    /// A base measure
    Base(u32, Name),
    /// An abbreviation
    Short(u32, Name, RawUnit),
    Record(u32, Name, RawVars, RawFieldDecls),
    Function(RawFunction),
}

/// A program as it is written: its declarations, in order.
#[derive(Drop)]
pub struct RawProgram {
    pub items: Vec<RawDecl>,
}

impl RawProgram {
    /// Gives its memory back. A crate that calls this has no proof of its own of how the trees are let go.
    pub fn discard(self) {
        drop(self);
    }
}
