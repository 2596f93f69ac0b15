// What is told of a function whose units disagree, line by line.
ghost use Rattle.std.specs.Prelude.{◌≡◌, ◌++◌, OnOk, codes};
ghost use Rattle.std.specs.List.{flat_map};
ghost use Rattle.um_tree.specs.ProgramTree.{program_tree};
ghost use Rattle.um_agree.specs.Wording.{first_word, second_word};
ghost use Rattle.um_reports.specs.Cursors.{IsAt};
ghost use Rattle.um_unit_reasons.specs.Answers.{reason_tree};
ghost use Rattle.um_reports.specs.Steps.{line};
ghost use Rattle.um_explain_answers.specs.UnitsDetails.{types_lines, factor_line, more_line};
ghost use Rattle.um_explain_answers.specs.UnitsDetails.{failing_lines, other_lines, since, reason_text};

use std::alloc::{AllocError, Global};
use um_mismatch::{first_word, push_agreement, push_second_word};
use um_reports::{Cursor, push_next_place, start_of_text};
use um_show::unit_text;
use um_tree::Program;
use um_unit_reasons::{Told, UnitReason};
use um_units::Unit;

/// Adds what is told of function `i`.
pub(crate) fn push_reason(
    alloc: Global,
    bytes: &[u8],
    program: &Program,
    i: u32,
    reason: &UnitReason,
    out: &mut Vec<u8>,
) -> Result<(), AllocError>
    ensures { OnOk result (out.new.items ≡ out.old.items
        ++ reason_text bytes.now (program_tree program.now) i (reason_tree reason.now)) }
{
    match reason {
        UnitReason::OutOfRange => out.extend_from_slice(b"the units pass the range of powers\n"),
        UnitReason::Told {
            told,
            factor,
            cut_off,
        } => {
            let Some((failing, others)) = told.split_first() else {
                return Ok(());
            };
            push_failing(alloc, program, i, failing, factor, out)?;
            push_since(bytes, program, i, others, out)?;
            push_more(*cut_off, out)
        }
    }
}

/// Adds the agreement that fails, and the factor between its types.
fn push_failing(
    alloc: Global,
    program: &Program,
    i: u32,
    failing: &Told,
    factor: &Option<Unit>,
    out: &mut Vec<u8>,
) -> Result<(), AllocError>
    ensures { OnOk result (out.new.items ≡ out.old.items
        ++ failing_lines (program_tree program.now) i failing.now factor.now) }
{
    push_agreement(out, program, i as usize, failing.rule)?;
    out.push(b'\n')?;
    push_types(b"  ", failing, out)?;
    push_factor(alloc, program, factor, out)
}

/// Adds the two types of an agreement, with this before each.
fn push_types(indent: &[u8], told: &Told, out: &mut Vec<u8>) -> Result<(), AllocError>
    ensures { OnOk result (out.new.items ≡ out.old.items ++ types_lines indent.now told.now) }
{
    push_first(indent, told, out)?;
    push_second(indent, told, out)
}

fn push_first(indent: &[u8], told: &Told, out: &mut Vec<u8>) -> Result<(), AllocError>
    ensures { OnOk result (out.new.items ≡ out.old.items
        ++ line (indent.now ++ first_word told.now.rule ++ codes ": " ++ told.now.first)) }
{
    out.extend_from_slice(indent)?;
    out.extend_from_slice(first_word(told.rule))?;
    push_type(told.first.as_slice(), out)
}

fn push_second(indent: &[u8], told: &Told, out: &mut Vec<u8>) -> Result<(), AllocError>
    ensures { OnOk result (out.new.items ≡ out.old.items
        ++ line (indent.now ++ second_word told.now.rule ++ codes ": " ++ told.now.second)) }
{
    out.extend_from_slice(indent)?;
    push_second_word(out, told.rule)?;
    push_type(told.second.as_slice(), out)
}

/// Adds a type after the word before it.
fn push_type(text: &[u8], out: &mut Vec<u8>) -> Result<(), AllocError>
    ensures { OnOk result (out.new.items ≡ out.old.items ++ line (codes ": " ++ text.now)) }
{
    out.extend_from_slice(b": ")?;
    out.extend_from_slice(text)?;
    out.push(b'\n')?;
    Ok(())
}

fn push_factor(
    alloc: Global,
    program: &Program,
    factor: &Option<Unit>,
    out: &mut Vec<u8>,
) -> Result<(), AllocError>
    ensures { OnOk result (out.new.items ≡ out.old.items ++ factor_line (program_tree program.now) factor.now) }
{
    match factor {
        Some(unit) => push_unit_line(alloc, program, unit, out),
        None => Ok(()),
    }
}

fn push_unit_line(
    alloc: Global,
    program: &Program,
    unit: &Unit,
    out: &mut Vec<u8>,
) -> Result<(), AllocError>
    ensures { OnOk result (out.new.items ≡ out.old.items
        ++ factor_line (program_tree program.now) (Some unit.now)) }
{
    let text = unit_text(alloc, unit, &program.bases)?;
    out.extend_from_slice(b"  factor: ")?;
    out.extend_from_slice(&text)?;
    out.push(b'\n')?;
    Ok(())
}

/// Adds the other agreements, if there are some.
fn push_since(
    bytes: &[u8],
    program: &Program,
    i: u32,
    others: &[Told],
    out: &mut Vec<u8>,
) -> Result<(), AllocError>
    ensures { OnOk result (out.new.items ≡ out.old.items ++ since bytes.now (program_tree program.now) i others.now) }
{
    if others.is_empty() {
        return Ok(());
    }
    out.extend_from_slice(b"since\n")?;
    push_others(bytes, program, i, others, out)
}

fn push_others(
    bytes: &[u8],
    program: &Program,
    i: u32,
    others: &[Told],
    out: &mut Vec<u8>,
) -> Result<(), AllocError>
    ensures { OnOk result (out.new.items ≡ out.old.items
        ++ flat_map (other_lines bytes.now (program_tree program.now) i) others.now) }
{
    let mut cursor = start_of_text();
    for one in others {
        push_other(bytes, program, i, one, &mut cursor, out)?;
    }
    Ok(())
}

/// Adds an agreement with its place, to which the cursor moves.
fn push_other(
    bytes: &[u8],
    program: &Program,
    i: u32,
    one: &Told,
    cursor: &mut Cursor,
    out: &mut Vec<u8>,
) -> Result<(), AllocError>
    requires { IsAt bytes.now cursor.old }
    ensures pushed { OnOk result (out.new.items ≡ out.old.items
        ++ other_lines bytes.now (program_tree program.now) i one.now) }
    ensures moved { OnOk result (IsAt bytes.now cursor.new) }
{
    out.extend_from_slice(b"  ")?;
    push_next_place(out, bytes, one.at, cursor)?;
    out.push(b' ')?;
    push_agreement(out, program, i as usize, one.rule)?;
    out.push(b'\n')?;
    push_types(b"    ", one, out)
}

fn push_more(cut_off: bool, out: &mut Vec<u8>) -> Result<(), AllocError>
    ensures { OnOk result (out.new.items ≡ out.old.items ++ more_line cut_off) }
{
    if cut_off {
        return out.extend_from_slice(b"and more\n");
    }
    Ok(())
}
