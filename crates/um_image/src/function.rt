//! Functions read from the front of bytes.
ghost use Rattle.std.specs.Prelude.{◌≤◌, ◌+◌, [], IfOk, List, length};
ghost use Rattle.um_verify.specs.ImageTree.{head_tree};
ghost use Rattle.um_image.specs.Encoding.{FunctionPart};
ghost use Rattle.um_image.specs.Reading.{Gives, many_at, with_front, operands_at, op_at, head_at, function_at};
ghost use Rattle.um_image.specs.FunctionsRead.{GivesFunctions, Holds, AreFunctionsRead, AreLastFunctions};
ghost use Rattle.um_image.specs.FunctionsRead.{function_onto};
ghost use Rattle.um_image.specs.Reading.{last_functions_at};

use crate::form::{Form, form_of, with_number};
use crate::item::{read_fraction, read_name, read_number, read_power, read_truth};
use crate::record::{read_low_shape, read_shapes};
use crate::stop::ReadStop;
use std::alloc::Global;
use um_machine::{Entry, Op};
use um_verify::Head;

/// Functions, as an image has them: heads, the instructions of all, and where each one's stand.
#[derive(Drop)]
pub(crate) struct Functions {
    pub heads: Vec<Head>,
    pub ops: Vec<Op>,
    pub entries: Vec<Entry>,
}

/// What stands after the number of an instruction.
#[tactic(auto, unfolding(crate::specs::Reading::operands_at))]
fn read_operands(form: Form, bytes: &[u8]) -> Result<(Op, &[u8]), ReadStop>
    ensures { Gives (λ x. (x.0, x.1.now)) result (operands_at form bytes.now) }
{
    match form {
        Form::Alone(op) => Ok((op, bytes)),
        Form::Number(counted) => {
            let (n, rest) = read_number(bytes)?;
            Ok((with_number(counted, n), rest))
        }
        Form::Fraction => {
            let (c, rest) = read_fraction(bytes)?;
            Ok((Op::PushNum(c), rest))
        }
        Form::Truth => {
            let (b, rest) = read_truth(bytes)?;
            Ok((Op::PushBool(b), rest))
        }
        Form::Made => {
            let (r, rest) = read_number(bytes)?;
            let (n, rest) = read_number(rest)?;
            Ok((Op::MakeRec(r, n), rest))
        }
        Form::Power => {
            let (k, rest) = read_power(bytes)?;
            Ok((Op::Pow(k), rest))
        }
    }
}

#[tactic(auto, unfolding(crate::specs::Reading::op_at, crate::specs::Reading::form_at))]
fn read_op(bytes: &[u8]) -> Result<(Op, &[u8]), ReadStop>
    ensures { Gives (λ x. (x.0, x.1.now)) result (op_at bytes.now) }
{
    match bytes {
        [] => Err(ReadStop::Bad { left: 0 }),
        [number, rest @ ..] => match form_of(*number) {
            Some(form) => read_operands(form, rest),
            None => Err(ReadStop::Bad { left: bytes.len() }),
        },
    }
}

/// Adds so many instructions.
fn add_ops<'a>(ops: &mut Vec<Op>, count: u32, bytes: &'a [u8]) -> Result<&'a [u8], ReadStop>
    ensures { Gives (λ rest. (ops.new.items, rest.now)) result
        (with_front ops.old.items (many_at op_at count bytes.now)) }
{
    let mut rest = bytes;
    for _ in 0..count {
        let (op, after) = read_op(rest)?;
        ops.push(op)?;
        rest = after;
    }
    Ok(rest)
}

#[tactic(auto, unfolding(crate::specs::Reading::head_at))]
fn read_head(alloc: Global, bytes: &[u8]) -> Result<(Head, &[u8]), ReadStop>
    ensures { Gives (λ x. (head_tree x.0, x.1.now)) result (head_at bytes.now) }
{
    let (name, rest) = read_name(alloc, bytes)?;
    let (params, rest) = read_shapes(alloc, rest)?;
    match read_low_shape(alloc, rest) {
        Ok((result, rest)) => {
            let head = Head {
                name,
                params,
                result,
            };
            Ok((head, rest))
        }
        Err(stop) => {
            drop(params);
            Err(stop)
        }
    }
}

/// Adds a function.
fn add_function<'a>(
    alloc: Global,
    functions: &mut Functions,
    bytes: &'a [u8],
) -> Result<&'a [u8], ReadStop>
    requires room { length functions.old.ops.items + length bytes.now ≤ 16777216 }
    ensures kept { (fs : List FunctionPart) → Holds functions.old fs
        → GivesFunctions (λ rest. rest.now) functions.new result (function_onto fs bytes.now) }
    ensures room { IfOk result (λ rest. length functions.new.ops.items + length rest.now ≤ 16777216) }
{
    let (head, rest) = read_head(alloc, bytes)?;
    let params = head.params.items.len() as u32;
    functions.heads.push(head)?;
    let start = functions.ops.len() as u32;
    let (count, rest) = read_number(rest)?;
    let rest = add_ops(&mut functions.ops, count, rest)?;
    let end = functions.ops.len() as u32;
    functions.entries.push(Entry { start, end, params })?;
    Ok(rest)
}

/// Adds so many functions.
fn add_functions<'a>(
    alloc: Global,
    functions: &mut Functions,
    count: u32,
    bytes: &'a [u8],
) -> Result<&'a [u8], ReadStop>
    requires room { length functions.old.ops.items + length bytes.now ≤ 16777216 }
    ensures { (fs : List FunctionPart) → Holds functions.old fs
        → GivesFunctions (λ rest. rest.now) functions.new result (with_front fs (many_at function_at count bytes.now)) }
{
    let mut rest = bytes;
    for _ in 0..count {
        rest = add_function(alloc, functions, rest)?;
    }
    Ok(rest)
}

/// Adds the functions after their count, which are the rest of the bytes.
fn add_rest(alloc: Global, functions: &mut Functions, bytes: &[u8]) -> Result<(), ReadStop>
    requires empty { Holds functions.old [] }
    requires few { length bytes.now ≤ 16777216 }
    ensures { AreFunctionsRead functions.new result (last_functions_at bytes.now) }
{
    let (count, rest) = read_number(bytes)?;
    let rest = add_functions(alloc, functions, count, rest)?;
    if rest.is_empty() {
        Ok(())
    } else {
        Err(ReadStop::Bad { left: rest.len() })
    }
}

/// The functions after their count, which are the rest of the bytes.
pub(crate) fn read_last_functions(alloc: Global, bytes: &[u8]) -> Result<Functions, ReadStop>
    requires { length bytes.now ≤ 16777216 }
    ensures { AreLastFunctions result (last_functions_at bytes.now) }
{
    let mut functions = Functions {
        heads: Vec::new(alloc),
        ops: Vec::new(alloc),
        entries: Vec::new(alloc),
    };
    match add_rest(alloc, &mut functions, bytes) {
        Ok(()) => Ok(functions),
        Err(stop) => {
            drop(functions);
            Err(stop)
        }
    }
}
