//! The listing of a program's code.
ghost use Rattle.std.specs.Prelude.{◌≡◌, ◌+◌, ◌<◌, ◌≤◌, ◌^◌, ◌++◌, All, IfOk, OnOk, codes, length};
ghost use Rattle.std.specs.Fmt.{decimal};
ghost use Rattle.um_tree.specs.ProgramTree.{function_tree, program_tree};
ghost use Rattle.um_code.specs.Listing.{op_text, op_lines, function_lines, listing_text};

use crate::operand::{push_count, push_op};
use std::alloc::{AllocError, Global};
use um_machine::{Code, Entry, Op};
use um_tree::{Function, Program};
use um_units::NoMemory;

/// The listing of the code: for each function a line with its name and its number of parameters, and then a line for
/// each of its instructions, with its address, its word and its operands.
///
/// The code has one entry for each function of the program, and the entries lie within the instructions. A record or a
/// function that an instruction names but the program doesn't have has the empty name. `NoMemory` is the one error. The
/// form is this project's own.
pub fn listing(alloc: Global, code: &Code, program: &Program) -> Result<Vec<u8>, NoMemory>
    requires count { length code.now.entries ≡ length (program_tree program.now).functions }
    requires within { All (λ e. (e.start ≤ e.end) × (e.end ≤ length code.now.ops)) code.now.entries }
    ensures { IfOk result (λ text. text.items ≡ listing_text (program_tree program.now) code.now) }
{
    let functions: &[Function] = &program.functions.items;
    let entries = code.entries.as_slice();
    let ops = code.ops.as_slice();
    let mut text = Vec::new(alloc);
    for i in 0..functions.len() {
        push_function(alloc, &mut text, program, ops, &functions[i], entries[i])?;
    }
    Ok(text)
}

/// Adds the lines of a function.
fn push_function(
    alloc: Global,
    text: &mut Vec<u8>,
    program: &Program,
    ops: &[Op],
    function: &Function,
    entry: Entry,
) -> Result<(), AllocError>
    requires within { (entry.start ≤ entry.end) × (entry.end ≤ length ops.now) }
    ensures { OnOk result (text.new.items ≡ text.old.items
        ++ function_lines (program_tree program.now) ops.now (function_tree function.now) entry) }
{
    text.extend_from_slice(function.name.as_slice())?;
    text.push(b' ')?;
    push_count(text, entry.params)?;
    text.push(b'\n')?;
    let own = &ops[entry.start as usize..entry.end as usize];
    push_ops(alloc, text, program, entry.start, own)
}

/// Adds the lines of instructions, from an address on.
fn push_ops(
    alloc: Global,
    text: &mut Vec<u8>,
    program: &Program,
    start: u32,
    ops: &[Op],
) -> Result<(), AllocError>
    requires addresses { start + length ops.now < 2 ^ 32 }
    ensures { OnOk result (text.new.items ≡ text.old.items ++ op_lines (program_tree program.now) start ops.now) }
{
    for i in 0..ops.len() {
        push_line(alloc, text, program, start + i as u32, ops[i])?;
    }
    Ok(())
}

/// Adds the line of an instruction.
fn push_line(
    alloc: Global,
    text: &mut Vec<u8>,
    program: &Program,
    address: u32,
    op: Op,
) -> Result<(), AllocError>
    ensures { OnOk result (text.new.items ≡ text.old.items
        ++ (decimal address ++ codes " " ++ op_text (program_tree program.now) op ++ codes "\n")) }
{
    push_count(text, address)?;
    text.push(b' ')?;
    push_op(alloc, text, program, op)?;
    text.extend_from_slice(b"\n")
}
