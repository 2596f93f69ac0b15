//! The line and the words of a rule that asks two types to be the same.
ghost use Rattle.std.specs.Prelude.{◌≡◌, ◌++◌, OnOk, codes, slice_get};
ghost use Rattle.std.specs.Fmt.{decimal};
ghost use Rattle.um_tree.specs.ProgramTree.{program_tree};
ghost use Rattle.um_agree.specs.Wording.{agreement_line, function_name, field_name, first_word, second_word};

use std::alloc::AllocError;
use um_agree::Rule;
use um_tree::Program;

/// Adds what a rule asks for in function `i`, without a line feed.
///
/// The one error is want of memory. The texts are this project's own.
pub fn push_agreement(
    text: &mut Vec<u8>,
    program: &Program,
    i: usize,
    rule: Rule,
) -> Result<(), AllocError>
    ensures { OnOk result (text.new.items ≡ text.old.items ++ agreement_line (program_tree program.now) i rule) }
{
    match rule {
        Rule::Sum => text.extend_from_slice(b"the two sides of this sum must have the same type"),
        Rule::Difference => {
            text.extend_from_slice(b"the two sides of this difference must have the same type")
        }
        Rule::Comparison => {
            text.extend_from_slice(b"the two sides of this comparison must have the same type")
        }
        Rule::Branches => text.extend_from_slice(
            b"the branches of this if must have the same type",
        ),
        Rule::Arms => text.extend_from_slice(b"the arms of this match must have the same type"),
        Rule::Item(_) => text.extend_from_slice(b"the items of this list must have the same type"),
        Rule::Head => {
            text.extend_from_slice(b"the head of this list must have the type of the tail's items")
        }
        Rule::Argument(j, k) => push_argument(text, program, j, k),
        Rule::Part(r, k) => push_part(text, program, r, k),
        Rule::ResultNote => push_body(text, program, i),
    }
}

fn push_argument(text: &mut Vec<u8>, program: &Program, j: u32, k: usize) -> Result<(), AllocError>
    ensures { OnOk result (text.new.items ≡ text.old.items ++ (codes "argument " ++ decimal k ++ codes " of "
        ++ function_name (slice_get (program_tree program.now).functions j)
        ++ codes " must have the type of its parameter")) }
{
    text.extend_from_slice(b"argument ")?;
    push_number(text, k)?;
    text.extend_from_slice(b" of ")?;
    push_function_name(text, program, j as usize)?;
    text.extend_from_slice(b" must have the type of its parameter")
}

fn push_part(text: &mut Vec<u8>, program: &Program, r: u32, k: usize) -> Result<(), AllocError>
    ensures { OnOk result (text.new.items ≡ text.old.items ++ (codes "field "
        ++ field_name (slice_get (program_tree program.now).records r) k
        ++ codes " of this record must have its declared type")) }
{
    text.extend_from_slice(b"field ")?;
    push_field_name(text, program, r, k)?;
    text.extend_from_slice(b" of this record must have its declared type")
}

fn push_body(text: &mut Vec<u8>, program: &Program, i: usize) -> Result<(), AllocError>
    ensures { OnOk result (text.new.items ≡ text.old.items ++ (codes "the body of "
        ++ function_name (slice_get (program_tree program.now).functions i)
        ++ codes " must have the type of its result")) }
{
    text.extend_from_slice(b"the body of ")?;
    push_function_name(text, program, i)?;
    text.extend_from_slice(b" must have the type of its result")
}

/// The word before the first type. Takes no memory. The texts are this project's own.
pub fn first_word(rule: Rule) -> &'static [u8]
    ensures { result.now ≡ first_word rule }
{
    match rule {
        Rule::Sum | Rule::Difference | Rule::Comparison => b"left",
        Rule::Branches => b"then",
        Rule::Arms => b"empty",
        Rule::Item(_) => b"item 1",
        Rule::Head => b"head",
        Rule::Argument(_, _) => b"parameter",
        Rule::Part(_, _) => b"declared",
        Rule::ResultNote => b"body",
    }
}

/// Adds the word before the second type.
///
/// The one error is want of memory. The texts are this project's own.
pub fn push_second_word(text: &mut Vec<u8>, rule: Rule) -> Result<(), AllocError>
    ensures { OnOk result (text.new.items ≡ text.old.items ++ second_word rule) }
{
    match rule {
        Rule::Sum | Rule::Difference | Rule::Comparison => text.extend_from_slice(b"right"),
        Rule::Branches => text.extend_from_slice(b"else"),
        Rule::Arms => text.extend_from_slice(b"full"),
        Rule::Item(k) => {
            text.extend_from_slice(b"item ")?;
            push_number(text, k)
        }
        Rule::Head => text.extend_from_slice(b"items"),
        Rule::Argument(_, _) => text.extend_from_slice(b"argument"),
        Rule::Part(_, _) => text.extend_from_slice(b"part"),
        Rule::ResultNote => text.extend_from_slice(b"result"),
    }
}

fn push_number(text: &mut Vec<u8>, k: usize) -> Result<(), AllocError>
    ensures { OnOk result (text.new.items ≡ text.old.items ++ decimal k) }
{
    text.extend_from_slice(itoa::Buffer::new().format(k).as_bytes())
}

/// Adds the name of function i.
fn push_function_name(text: &mut Vec<u8>, program: &Program, i: usize) -> Result<(), AllocError>
    ensures { OnOk result (text.new.items ≡ text.old.items
        ++ function_name (slice_get (program_tree program.now).functions i)) }
{
    match program.functions.items.get(i) {
        Some(function) => text.extend_from_slice(function.name.as_slice()),
        None => Ok(()),
    }
}

/// Adds the name of field k of record r.
fn push_field_name(
    text: &mut Vec<u8>,
    program: &Program,
    r: u32,
    k: usize,
) -> Result<(), AllocError>
    ensures { OnOk result (text.new.items ≡ text.old.items
        ++ field_name (slice_get (program_tree program.now).records r) k) }
{
    match program.records.items.get(r as usize) {
        Some(declared) => match declared.fields.items.get(k) {
            Some(field) => text.extend_from_slice(field.name.as_slice()),
            None => Ok(()),
        },
        None => Ok(()),
    }
}
