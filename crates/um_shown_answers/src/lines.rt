// The lines of a call that stops.
ghost use Rattle.std.specs.Prelude.{◌≡◌, ◌++◌, ◌≤◌, All, IfOk, OnOk, length, map, slice_get, take};
ghost use Rattle.std.specs.List.{flat_map};
ghost use Rattle.um_tree.specs.ProgramTree.{function_tree};
ghost use Rattle.um_tree.specs.ValueTree.{number_value};
ghost use Rattle.um_front.specs.Places.{IsPlace};
ghost use Rattle.um_eval.specs.Through.{operand_values};
ghost use Rattle.um_eval.specs.Paths.{spot_of};
ghost use Rattle.um_shown_answers.specs.TraceText.{call_line, call_lines, more_line, name_of, operand_line};
ghost use Rattle.um_shown_answers.specs.TraceText.{operand_lines, spot_text, where_text};

use std::alloc::{AllocError, Global};
use um_eval::{Operands, Spot};
use um_excerpt::push_excerpt;
use um_frac::Frac;
use um_show::number_text;
use um_syntax::line_column;
use um_tree::Function;

/// Adds what follows on the line of `run`: the node's function and place, and the lines after it.
pub(crate) fn push_where(
    alloc: Global,
    text: &mut Vec<u8>,
    functions: &[Function],
    bytes: &[u8],
    operands: Operands,
    spots: (Spot, &[Spot]),
) -> Result<(), AllocError>
    requires short { length bytes.now ≤ 1048576 }
    requires node { IsPlace bytes.now spots.0.at }
    requires calls { All (λ s. IsPlace bytes.now s.at) spots.1.now }
    ensures { OnOk result (text.new.items ≡ text.old.items ++ where_text (map function_tree functions.now) bytes.now
        (spot_of spots.entry.0) (operand_values operands) (map spot_of spots.entry.1.now)) }
{
    let (node, calls) = spots;
    text.extend_from_slice(b" in ")?;
    push_spot(text, functions, bytes, node)?;
    text.push(b'\n')?;
    push_excerpt(alloc, text, bytes, node.at)?;
    push_operands(alloc, text, operands)?;
    push_calls(text, functions, bytes, calls)
}

/// Adds the lines of the operands.
fn push_operands(alloc: Global, text: &mut Vec<u8>, operands: Operands) -> Result<(), AllocError>
    ensures { OnOk result (text.new.items ≡ text.old.items ++ operand_lines (operand_values operands)) }
{
    match operands {
        Operands::None => Ok(()),
        Operands::One(x) => push_operand(alloc, text, "base", x),
        Operands::Two(x, y) => {
            push_operand(alloc, text, "left", x)?;
            push_operand(alloc, text, "right", y)
        }
    }
}

/// Adds the line of an operand.
fn push_operand(alloc: Global, text: &mut Vec<u8>, label: &str, x: Frac) -> Result<(), AllocError>
    ensures { OnOk result (text.new.items ≡ text.old.items ++ operand_line label.now (number_value x)) }
{
    text.extend_from_slice(b"  ")?;
    text.extend_from_slice(label.as_bytes())?;
    text.extend_from_slice(b": ")?;
    text.extend_from_slice(&number_text(alloc, x)?)?;
    text.push(b'\n')?;
    Ok(())
}

/// Adds the function's name and the place of a node.
fn push_spot(
    text: &mut Vec<u8>,
    functions: &[Function],
    bytes: &[u8],
    spot: Spot,
) -> Result<(), AllocError>
    requires short { length bytes.now ≤ 1048576 }
    requires place { IsPlace bytes.now spot.at }
    ensures { OnOk result (text.new.items ≡ text.old.items
        ++ spot_text (map function_tree functions.now) bytes.now (spot_of spot)) }
{
    um_reports::laws::places_are_lines_and_columns();
    push_name(text, functions, spot.function)?;
    text.extend_from_slice(b" at ")?;
    let (line, column) = line_column(bytes, spot.at);
    text.extend_from_slice(itoa::Buffer::new().format(line).as_bytes())?;
    text.push(b':')?;
    text.extend_from_slice(itoa::Buffer::new().format(column).as_bytes())
}

/// Adds the name of the function of this number.
fn push_name(text: &mut Vec<u8>, functions: &[Function], number: u32) -> Result<(), AllocError>
    ensures { OnOk result (text.new.items ≡ text.old.items
        ++ name_of (slice_get (map function_tree functions.now) number)) }
{
    match functions.get(number as usize) {
        Some(function) => text.extend_from_slice(function.name.as_slice()),
        None => Ok(()),
    }
}

/// Adds the lines of the open calls, ten at most, and how many more there are.
fn push_calls(
    text: &mut Vec<u8>,
    functions: &[Function],
    bytes: &[u8],
    calls: &[Spot],
) -> Result<(), AllocError>
    requires short { length bytes.now ≤ 1048576 }
    requires places { All (λ s. IsPlace bytes.now s.at) calls.now }
    ensures { OnOk result (text.new.items ≡ text.old.items
        ++ call_lines (map function_tree functions.now) bytes.now (map spot_of calls.now)) }
{
    push_first_calls(text, functions, bytes, first_ten(calls))?;
    push_more(text, calls)
}

/// The first ten, or all if there are fewer.
fn first_ten(calls: &[Spot]) -> &[Spot]
    ensures { result.now ≡ take 10 calls.now }
{
    if calls.len() > 10 {
        &calls[..10]
    } else {
        calls
    }
}

/// Adds a line for each call.
fn push_first_calls(
    text: &mut Vec<u8>,
    functions: &[Function],
    bytes: &[u8],
    calls: &[Spot],
) -> Result<(), AllocError>
    requires short { length bytes.now ≤ 1048576 }
    requires places { All (λ s. IsPlace bytes.now s.at) calls.now }
    ensures { OnOk result (text.new.items ≡ text.old.items
        ++ flat_map (call_line (map function_tree functions.now) bytes.now) (map spot_of calls.now)) }
{
    for i in 0..calls.len() {
        push_call(text, functions, bytes, &calls[i])?;
    }
    Ok(())
}

/// Adds the line of a call.
fn push_call(
    text: &mut Vec<u8>,
    functions: &[Function],
    bytes: &[u8],
    call: &Spot,
) -> Result<(), AllocError>
    requires short { length bytes.now ≤ 1048576 }
    requires place { IsPlace bytes.now call.now.at }
    ensures { OnOk result (text.new.items ≡ text.old.items
        ++ call_line (map function_tree functions.now) bytes.now (spot_of call.now)) }
{
    text.extend_from_slice(b"called from ")?;
    push_spot(text, functions, bytes, *call)?;
    text.push(b'\n')?;
    Ok(())
}

/// Adds how many calls there are beside the first ten.
fn push_more(text: &mut Vec<u8>, calls: &[Spot]) -> Result<(), AllocError>
    ensures { OnOk result (text.new.items ≡ text.old.items ++ more_line (map spot_of calls.now)) }
{
    if calls.len() <= 10 {
        return Ok(());
    }
    text.extend_from_slice(b"and ")?;
    text.extend_from_slice(itoa::Buffer::new().format(calls.len() - 10).as_bytes())?;
    text.extend_from_slice(b" more\n")
}
