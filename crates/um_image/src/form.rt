//! What stands after the number of an instruction.
ghost use Rattle.std.specs.Prelude.{◌≡◌};
ghost use Rattle.um_image.specs.Reading.{found, forms, with_number};

use um_machine::Op;

/// The instructions with one number of four bytes.
#[derive(Clone, Copy)]
pub(crate) enum Counted {
    Load,
    Jump,
    JumpIfNot,
    MakeList,
    Split,
    Field,
    Slide,
    Call,
}

/// What stands after the number of an instruction.
#[derive(Clone, Copy)]
pub(crate) enum Form {
    /// Nothing: the instruction is this
    Alone(Op),
    Number(Counted),
    /// The two parts of a number to push
    Fraction,
    /// A truth value to push
    Truth,
    /// A record and how many fields it has
    Made,
    /// A power
    Power,
}

/// The form of the instruction of this number.
pub(crate) fn form_of(number: u8) -> Option<Form>
    ensures { result ≡ found number forms }
{
    match number {
        0 => Some(Form::Fraction),
        1 => Some(Form::Truth),
        2 => Some(Form::Number(Counted::Load)),
        3 => Some(Form::Alone(Op::Add)),
        4 => Some(Form::Alone(Op::Sub)),
        5 => Some(Form::Alone(Op::Mul)),
        6 => Some(Form::Alone(Op::Div)),
        7 => Some(Form::Alone(Op::Neg)),
        8 => Some(Form::Alone(Op::Not)),
        9 => Some(Form::Alone(Op::Lt)),
        10 => Some(Form::Alone(Op::Le)),
        11 => Some(Form::Alone(Op::Eq)),
        12 => Some(Form::Number(Counted::Jump)),
        13 => Some(Form::Number(Counted::JumpIfNot)),
        14 => Some(Form::Number(Counted::MakeList)),
        15 => Some(Form::Alone(Op::Cons)),
        16 => Some(Form::Number(Counted::Split)),
        17 => Some(Form::Made),
        18 => Some(Form::Number(Counted::Field)),
        19 => Some(Form::Number(Counted::Slide)),
        20 => Some(Form::Number(Counted::Call)),
        21 => Some(Form::Alone(Op::Ret)),
        22 => Some(Form::Power),
        _ => None,
    }
}

/// The instruction with this number.
pub(crate) fn with_number(counted: Counted, n: u32) -> Op
    ensures { result ≡ with_number counted n }
{
    match counted {
        Counted::Load => Op::Load(n),
        Counted::Jump => Op::Jump(n),
        Counted::JumpIfNot => Op::JumpIfNot(n),
        Counted::MakeList => Op::MakeList(n),
        Counted::Split => Op::Split(n),
        Counted::Field => Op::Field(n),
        Counted::Slide => Op::Slide(n),
        Counted::Call => Op::Call(n),
    }
}
