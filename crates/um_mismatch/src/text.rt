//! The texts of mismatches.
ghost use Rattle.std.specs.Prelude.{◌≡◌, ◌++◌, OnOk, codes};
ghost use Rattle.um_tree.specs.ProgramTree.{program_tree};
ghost use Rattle.um_agree.specs.Wording.{first_word, second_word};
ghost use Rattle.um_show.specs.SchemeText.{record_name};
ghost use Rattle.um_mismatch.specs.Mismatch.{unequal, unexpected, worded_line, shape_text, kind_line, kind_text};
ghost use Rattle.um_mismatch.specs.Mismatch.{mismatch_text};
ghost use Rattle.um_mismatch.specs.FlatShapes.{flat_shape, item_shape, mismatch_tree};

use crate::flat::{FlatShape, Item};
use crate::kind::Kind;
use crate::mismatch::Mismatch;
use crate::wording::{first_word, push_agreement, push_second_word};
use std::alloc::AllocError;
use um_agree::Rule;
use um_tree::Program;

/// Adds the lines of a mismatch in function `i`.
pub(crate) fn push_mismatch(
    text: &mut Vec<u8>,
    program: &Program,
    i: usize,
    mismatch: Mismatch,
) -> Result<(), AllocError>
    ensures { OnOk result (text.new.items ≡ text.old.items
        ++ mismatch_text (program_tree program.now) i (mismatch_tree mismatch)) }
{
    match mismatch {
        Mismatch::Unequal(rule, s, t) => push_unequal(text, program, i, rule, s, t),
        Mismatch::Unexpected(kind, s) => push_unexpected(text, program, kind, s),
        Mismatch::Unformed => Ok(()),
    }
}

/// Adds the line of the rule, and the two shapes that must be the same.
fn push_unequal(
    text: &mut Vec<u8>,
    program: &Program,
    i: usize,
    rule: Rule,
    s: FlatShape,
    t: FlatShape,
) -> Result<(), AllocError>
    ensures { OnOk result (text.new.items ≡ text.old.items
        ++ mismatch_text (program_tree program.now) i (unequal rule (flat_shape s) (flat_shape t))) }
{
    push_agreement(text, program, i, rule)?;
    text.extend_from_slice(b"\n")?;
    push_first(text, program, rule, s)?;
    push_second(text, program, rule, t)
}

/// Adds the line of the first of two shapes.
fn push_first(
    text: &mut Vec<u8>,
    program: &Program,
    rule: Rule,
    s: FlatShape,
) -> Result<(), AllocError>
    ensures { OnOk result (text.new.items ≡ text.old.items
        ++ worded_line (first_word rule) (shape_text (program_tree program.now) (flat_shape s))) }
{
    text.extend_from_slice(b"  ")?;
    text.extend_from_slice(first_word(rule))?;
    text.extend_from_slice(b": ")?;
    push_shape(text, program, s)?;
    text.extend_from_slice(b"\n")
}

/// Adds the line of the second of two shapes.
fn push_second(
    text: &mut Vec<u8>,
    program: &Program,
    rule: Rule,
    t: FlatShape,
) -> Result<(), AllocError>
    ensures { OnOk result (text.new.items ≡ text.old.items
        ++ worded_line (second_word rule) (shape_text (program_tree program.now) (flat_shape t))) }
{
    text.extend_from_slice(b"  ")?;
    push_second_word(text, rule)?;
    text.extend_from_slice(b": ")?;
    push_shape(text, program, t)?;
    text.extend_from_slice(b"\n")
}

/// Adds the line of the kind, the kind that is expected, and the shape that is found.
fn push_unexpected(
    text: &mut Vec<u8>,
    program: &Program,
    kind: Kind,
    s: FlatShape,
) -> Result<(), AllocError>
    ensures { OnOk result (text.new.items ≡ text.old.items
        ++ mismatch_text (program_tree program.now) 0 (unexpected kind (flat_shape s))) }
{
    push_kind_line(text, program, kind)?;
    text.extend_from_slice(b"\n")?;
    push_expected(text, program, kind)?;
    push_found(text, program, s)
}

fn push_expected(text: &mut Vec<u8>, program: &Program, kind: Kind) -> Result<(), AllocError>
    ensures { OnOk result (text.new.items ≡ text.old.items
        ++ worded_line (codes "expected") (kind_text (program_tree program.now) kind)) }
{
    text.extend_from_slice(b"  expected: ")?;
    push_kind(text, program, kind)?;
    text.extend_from_slice(b"\n")
}

fn push_found(text: &mut Vec<u8>, program: &Program, s: FlatShape) -> Result<(), AllocError>
    ensures { OnOk result (text.new.items ≡ text.old.items
        ++ worded_line (codes "found") (shape_text (program_tree program.now) (flat_shape s))) }
{
    text.extend_from_slice(b"  found: ")?;
    push_shape(text, program, s)?;
    text.extend_from_slice(b"\n")
}

fn push_kind_line(text: &mut Vec<u8>, program: &Program, kind: Kind) -> Result<(), AllocError>
    ensures { OnOk result (text.new.items ≡ text.old.items ++ kind_line (program_tree program.now) kind) }
{
    match kind {
        Kind::Number => text.extend_from_slice(b"this operation takes numbers"),
        Kind::Truth => text.extend_from_slice(b"this operation takes truth values"),
        Kind::List => text.extend_from_slice(b"a list must stand here"),
        Kind::EmptyList => text.extend_from_slice(b"the type of the empty list must be a list"),
        Kind::Record(r) => push_belongs(text, program, r),
    }
}

fn push_belongs(text: &mut Vec<u8>, program: &Program, r: u32) -> Result<(), AllocError>
    ensures { OnOk result (text.new.items ≡ text.old.items
        ++ (codes "this field belongs to " ++ record_name (program_tree program.now) r)) }
{
    text.extend_from_slice(b"this field belongs to ")?;
    push_record_name(text, program, r)
}

fn push_kind(text: &mut Vec<u8>, program: &Program, kind: Kind) -> Result<(), AllocError>
    ensures { OnOk result (text.new.items ≡ text.old.items ++ kind_text (program_tree program.now) kind) }
{
    match kind {
        Kind::Number => text.extend_from_slice(b"num"),
        Kind::Truth => text.extend_from_slice(b"bool"),
        Kind::List | Kind::EmptyList => text.extend_from_slice(b"list"),
        Kind::Record(r) => push_record_name(text, program, r),
    }
}

/// Adds the text of a shape.
fn push_shape(text: &mut Vec<u8>, program: &Program, shape: FlatShape) -> Result<(), AllocError>
    ensures { OnOk result (text.new.items ≡ text.old.items
        ++ shape_text (program_tree program.now) (flat_shape shape)) }
{
    push_item(text, program, shape.item)?;
    for _ in 0..shape.lists {
        text.extend_from_slice(b" list")?;
    }
    Ok(())
}

fn push_item(text: &mut Vec<u8>, program: &Program, item: Item) -> Result<(), AllocError>
    ensures { OnOk result (text.new.items ≡ text.old.items ++ shape_text (program_tree program.now) (item_shape item)) }
{
    match item {
        Item::Bool => text.extend_from_slice(b"bool"),
        Item::Num => text.extend_from_slice(b"num"),
        Item::Rec(r) => push_record_name(text, program, r),
    }
}

/// Adds the name of record r.
fn push_record_name(text: &mut Vec<u8>, program: &Program, r: u32) -> Result<(), AllocError>
    ensures { OnOk result (text.new.items ≡ text.old.items ++ record_name (program_tree program.now) r) }
{
    match program.records.items.get(r as usize) {
        Some(declared) => text.extend_from_slice(declared.name.as_slice()),
        None => Ok(()),
    }
}
