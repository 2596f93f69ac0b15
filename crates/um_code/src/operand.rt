//! The texts of instructions.
ghost use Rattle.std.specs.Prelude.{◌≡◌, ◌++◌, codes, OnOk};
ghost use Rattle.std.specs.List.{flat_map};
ghost use Rattle.std.specs.Option.{option_to_list};
ghost use Rattle.std.specs.Fmt.{decimal, signed_decimal};
ghost use Rattle.um_tree.specs.ProgramTree.{program_tree};
ghost use Rattle.um_show.specs.SchemeText.{record_name};
ghost use Rattle.um_show.specs.NumberText.{number_text as text_of_number};
ghost use Rattle.um_code.specs.Listing.{truth_text, function_name, operand_text, op_text};

use std::alloc::{AllocError, Global};
use um_frac::Frac;
use um_machine::{Op, Operand};
use um_show::number_text;
use um_tree::{Function, Program, Record};

/// Adds the text of an instruction: its word, and its operands after spaces.
pub(crate) fn push_op(
    alloc: Global,
    text: &mut Vec<u8>,
    program: &Program,
    op: Op,
) -> Result<(), AllocError>
    ensures { OnOk result (text.new.items ≡ text.old.items ++ op_text (program_tree program.now) op) }
{
    let (first, second) = op.operands();
    text.extend_from_slice(op.word())?;
    push_operand(alloc, text, program, first)?;
    push_operand(alloc, text, program, second)
}

/// Adds an operand after a space, if there is one.
#[inline(always)]
fn push_operand(
    alloc: Global,
    text: &mut Vec<u8>,
    program: &Program,
    operand: Option<Operand>,
) -> Result<(), AllocError>
    ensures { OnOk result (text.new.items ≡ text.old.items
        ++ flat_map (λ o. codes " " ++ operand_text (program_tree program.now) o) (option_to_list operand)) }
{
    match operand {
        None => Ok(()),
        Some(operand) => {
            text.push(b' ')?;
            push_operand_text(alloc, text, program, operand)
        }
    }
}

fn push_operand_text(
    alloc: Global,
    text: &mut Vec<u8>,
    program: &Program,
    operand: Operand,
) -> Result<(), AllocError>
    ensures { OnOk result (text.new.items ≡ text.old.items ++ operand_text (program_tree program.now) operand) }
{
    match operand {
        Operand::Num(c) => push_number(alloc, text, c),
        Operand::Bool(b) => push_truth(text, b),
        Operand::Count(n) => push_count(text, n),
        Operand::Record(r) => push_record_name(text, program, r),
        Operand::Function(f) => push_function_name(text, program, f),
        Operand::Power(k) => push_integer(text, i64::from(k)),
    }
}

/// Adds a number. The text of a whole one takes no memory of its own.
fn push_number(alloc: Global, text: &mut Vec<u8>, number: Frac) -> Result<(), AllocError>
    ensures { OnOk result (text.new.items ≡ text.old.items ++ text_of_number number) }
{
    if number.den() == 1 {
        return push_integer(text, number.num());
    }
    let written = number_text(alloc, number)?;
    text.extend_from_slice(&written)
}

fn push_truth(text: &mut Vec<u8>, b: bool) -> Result<(), AllocError>
    ensures { OnOk result (text.new.items ≡ text.old.items ++ truth_text b) }
{
    match b {
        true => text.extend_from_slice(b"true"),
        false => text.extend_from_slice(b"false"),
    }
}

pub(crate) fn push_count(text: &mut Vec<u8>, n: u32) -> Result<(), AllocError>
    ensures { OnOk result (text.new.items ≡ text.old.items ++ decimal n) }
{
    if n < 10 {
        text.push(b'0' + n as u8)?;
        return Ok(());
    }
    text.extend_from_slice(itoa::Buffer::new().format(n).as_bytes())
}

fn push_integer(text: &mut Vec<u8>, n: i64) -> Result<(), AllocError>
    ensures { OnOk result (text.new.items ≡ text.old.items ++ signed_decimal n) }
{
    text.extend_from_slice(itoa::Buffer::new().format(n).as_bytes())
}

fn push_record_name(text: &mut Vec<u8>, program: &Program, number: u32) -> Result<(), AllocError>
    ensures { OnOk result (text.new.items ≡ text.old.items ++ record_name (program_tree program.now) number) }
{
    let records: &[Record] = &program.records.items;
    match records.get(number as usize) {
        Some(declared) => text.extend_from_slice(declared.name.as_slice()),
        None => Ok(()),
    }
}

fn push_function_name(text: &mut Vec<u8>, program: &Program, number: u32) -> Result<(), AllocError>
    ensures { OnOk result (text.new.items ≡ text.old.items ++ function_name (program_tree program.now) number) }
{
    let functions: &[Function] = &program.functions.items;
    match functions.get(number as usize) {
        Some(declared) => text.extend_from_slice(declared.name.as_slice()),
        None => Ok(()),
    }
}
