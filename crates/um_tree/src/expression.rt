// Resolved expressions: names have become numbers.
use crate::{Note, UnitNote};
use um_frac::Frac;

/// The operations of arithmetic.
#[derive(Clone, Copy)]
pub enum Arith {
    Add,
    Sub,
    Mul,
    Div,
}

/// The signs of comparison.
#[derive(Clone, Copy)]
pub enum Sign {
    /// `<`
    Lt,
    /// `<=`
    Le,
    /// `=`
    Eq,
    /// `>`
    Gt,
    /// `>=`
    Ge,
    /// `<>`
    Ne,
}

/// An expression, at its place in the text.
#[cycle(expression)]
pub struct Expr {
    /// The byte offset of its place
    pub at: u32,
    pub node: Node,
}

// A derived drop would be proved anew in each crate that lets expressions go. This one is proved here.
impl Drop for Expr {
    #[cycle(expression)]
    fn drop(self) {
        let Expr { at: _, node: _ } = self;
    }
}

/// What an expression is.
#[cycle(expression)]
#[derive(Drop)]
pub enum Node {
    /// `true` or `false`
    Bool(bool),
    /// A number with its unit; a number without a unit has the written unit 1
    Num(Frac, UnitNote),
    /// The k-th variable of the scope, counted from 0 at the first parameter
    Local(u32),
    /// A call of the function of this number
    Call(u32, Exprs),
    /// `-e`
    Neg(Box<Expr>),
    /// `not e`
    Not(Box<Expr>),
    /// `pown e k`
    Pow(Box<Expr>, i32),
    Arith(Arith, Box<Expr>, Box<Expr>),
    Compare(Sign, Box<Expr>, Box<Expr>),
    /// `a && b`
    And(Box<Expr>, Box<Expr>),
    /// `a || b`
    Or(Box<Expr>, Box<Expr>),
    /// `if c then a else b`
    If(Box<Expr>, Box<Expr>, Box<Expr>),
    /// `let x = a in b`: in b there is one more variable
    Let(Box<Expr>, Box<Expr>),
    /// `match l with [] -> a | x :: y -> b`: in b there are two more variables, head and tail
    Match(Box<Expr>, Box<Expr>, Box<Expr>),
    /// `([] : T)`
    Nil(Note),
    /// `[a; b]`, with at least one item
    List(Exprs),
    /// `a :: b`
    Cons(Box<Expr>, Box<Expr>),
    /// A value of the record of this number, with its fields in the order of declaration
    Rec(u32, Exprs),
    /// The field of this number, of a value of the record of the first number
    Field(u32, u32, Box<Expr>),
}

/// Some expressions, in order.
#[cycle(expression)]
#[derive(Drop)]
pub struct Exprs {
    pub items: Vec<Expr>,
}
