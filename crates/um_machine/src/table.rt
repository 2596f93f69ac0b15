//! The table of instructions: the word and the operands of each.
ghost use Rattle.std.specs.Prelude.{◌≡◌, ◌++◌};
ghost use Rattle.std.specs.Option.{option_to_list};
ghost use Rattle.um_machine.specs.Table.{op_word, op_operands};

use crate::op::Op;
use um_frac::Frac;

/// An operand of an instruction.
#[derive(Clone, Copy)]
pub enum Operand {
    Num(Frac),
    Bool(bool),
    /// An address, a place, a part, or a number of values
    Count(u32),
    /// The number of a record
    Record(u32),
    /// The number of a function
    Function(u32),
    Power(i32),
}

impl Op {
    /// The word that stands for the instruction in a listing. Takes no memory. The words are this project's own.
    pub fn word(self) -> &'static [u8]
        ensures { result.now ≡ op_word self }
    {
        match self {
            Op::PushNum(_) => b"num",
            Op::PushBool(_) => b"bool",
            Op::Load(_) => b"load",
            Op::Add => b"add",
            Op::Sub => b"sub",
            Op::Mul => b"mul",
            Op::Div => b"div",
            Op::Neg => b"neg",
            Op::Not => b"not",
            Op::Lt => b"lt",
            Op::Le => b"le",
            Op::Eq => b"eq",
            Op::Jump(_) => b"jump",
            Op::JumpIfNot(_) => b"jumpifnot",
            Op::MakeList(_) => b"list",
            Op::Cons => b"cons",
            Op::Split(_) => b"split",
            Op::MakeRec(_, _) => b"rec",
            Op::Field(_) => b"field",
            Op::Slide(_) => b"slide",
            Op::Call(_) => b"call",
            Op::Ret => b"ret",
            Op::Pow(_) => b"pown",
        }
    }

    /// The operands of the instruction in order: none, one or two. Takes no memory.
    pub fn operands(self) -> (Option<Operand>, Option<Operand>)
        ensures { option_to_list result.0 ++ option_to_list result.1 ≡ op_operands self }
    {
        match self {
            Op::PushNum(c) => (Some(Operand::Num(c)), None),
            Op::PushBool(b) => (Some(Operand::Bool(b)), None),
            Op::Load(k) => (Some(Operand::Count(k)), None),
            Op::Jump(t) => (Some(Operand::Count(t)), None),
            Op::JumpIfNot(t) => (Some(Operand::Count(t)), None),
            Op::MakeList(n) => (Some(Operand::Count(n)), None),
            Op::Split(t) => (Some(Operand::Count(t)), None),
            Op::MakeRec(r, n) => (Some(Operand::Record(r)), Some(Operand::Count(n))),
            Op::Field(k) => (Some(Operand::Count(k)), None),
            Op::Slide(k) => (Some(Operand::Count(k)), None),
            Op::Call(f) => (Some(Operand::Function(f)), None),
            Op::Pow(k) => (Some(Operand::Power(k)), None),
            Op::Add | Op::Sub | Op::Mul | Op::Div => (None, None),
            Op::Neg | Op::Not | Op::Lt | Op::Le | Op::Eq => (None, None),
            Op::Cons | Op::Ret => (None, None),
        }
    }
}
