//! The instructions.
use um_frac::Frac;

/// An instruction of the machine.
///
/// The top of the stack is `y`, and the value below it `x`. A place counts the values of the running function from its
/// first argument on, and an address counts the instructions of the whole code, each from 0.
#[derive(Clone, Copy)]
pub enum Op {
    /// Pushes the number
    PushNum(Frac),
    /// Pushes the truth value
    PushBool(bool),
    /// Pushes a copy of the value at this place
    Load(u32),
    /// Takes `y` and `x` and pushes their sum, or ends with its trap
    Add,
    Sub,
    Mul,
    Div,
    /// Takes `y` and pushes its negation
    Neg,
    /// Takes `y` and pushes the other truth value
    Not,
    /// Takes `y` and `x` and pushes whether `x` is less than `y`
    Lt,
    Le,
    Eq,
    /// Goes to this address
    Jump(u32),
    /// Takes `y` and goes to this address if it is false
    JumpIfNot(u32),
    /// Takes so many values and pushes their list, the deepest first
    MakeList(u32),
    /// Takes the list `y` and `x` and pushes the list with `x` before `y`
    Cons,
    /// Takes the list `y`; goes to this address if it is empty, and otherwise pushes its head and then its tail
    Split(u32),
    /// Takes so many values as the second number says and pushes the record of the first number of them, the deepest
    /// first
    MakeRec(u32, u32),
    /// Takes the record `y` and pushes its part of this number
    Field(u32),
    /// Takes `y`, drops so many values, and pushes `y`
    Slide(u32),
    /// Calls the function of this number
    Call(u32),
    /// Ends the running function with the value `y`
    Ret,
    /// Takes `y` and pushes its power, or ends with its trap
    Pow(i32),
}
