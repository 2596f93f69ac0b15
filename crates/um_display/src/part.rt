//! One part of a word of units.
ghost use Rattle.std.specs.Prelude.{◌≡◌, ◌≤◌, IfOk, MatchOption, None, Some, cond, length, option_map};
ghost use Rattle.std.specs.Str.{chars};
ghost use Rattle.um_syntax.specs.Lexing.{HasTokens};
ghost use Rattle.um_tree.specs.RawTree.{UnitSyntax, unit_syntax};
ghost use Rattle.um_display.specs.UnitWords.{PartSyntax, IsPart, IsPartOf, IsWritten, IsSized, IsNamed, IsLowUnit};
ghost use Rattle.um_display.specs.UnitWords.{are_marks, is_equal, is_less, is_greater, positive_in, name_in};
ghost use Rattle.um_display.specs.UnitWords.{one_space_each};
ghost use Rattle.um_display.specs.PartView.{part_syntax};

use crate::plain::{is_plain, one_space_each};
use std::alloc::{AllocError, Global};
use um_frac::Frac;
use um_syntax::{Kind, LexStop, Symbol, Token, Tokens, lex};
use um_tree::{Name, RawUnit};
use um_types::{ParseStop, parse_unit};

/// A part as it is written: the text after a number, the size by which it is divided, if there is one, and the unit
/// text.
#[derive(Drop)]
pub struct Part {
    pub label: Name,
    pub size: Option<Frac>,
    pub unit: RawUnit,
}

/// The part that the text is, if it is one.
pub(crate) fn read_part(alloc: Global, text: &str) -> Result<Option<Part>, AllocError>
    requires short { length text.now ≤ 1048576 }
    ensures { IfOk result (λ part. MatchOption part ((p : PartSyntax) → ¬ IsPart text.now p)
        (λ p. IsPart text.now (part_syntax p))) }
{
    if !is_plain(text) {
        return Ok(None);
    }
    match lex(alloc, text) {
        Ok(tokens) => part_of(alloc, text, tokens),
        Err(LexStop::BadChar { at: _ })
        | Err(LexStop::NumberRange { at: _ })
        | Err(LexStop::PowerText { at: _ }) => Ok(None),
        Err(LexStop::NoMemory) => Err(AllocError),
    }
}

/// The part that a text with these tokens is, if it is one.
fn part_of(alloc: Global, text: &str, tokens: Tokens) -> Result<Option<Part>, AllocError>
    requires short { length text.now ≤ 1048576 }
    requires lexed { HasTokens (chars text.now) tokens }
    ensures { IfOk result (λ part. MatchOption part ((p : PartSyntax) → ¬ IsPartOf text.now tokens p)
        (λ p. IsPartOf text.now tokens (part_syntax p))) }
{
    let part = part_in(alloc, text.as_bytes(), tokens.as_slice());
    drop(tokens);
    part
}

/// The same of bytes, and the tokens are kept.
fn part_in(alloc: Global, text: &[u8], tokens: &[Token]) -> Result<Option<Part>, AllocError>
    requires few { length tokens.now ≤ 1048576 }
    ensures { IfOk result (λ part. MatchOption part ((p : PartSyntax) → ¬ IsPartOf text.now tokens.now p)
        (λ p. IsPartOf text.now tokens.now (part_syntax p))) }
{
    match written_part(alloc, text, tokens)? {
        Some(part) => Ok(Some(part)),
        None => sized_part(alloc, tokens),
    }
}

/// The part that is a unit text: its label is the text, with each run of spaces as one.
fn written_part(alloc: Global, text: &[u8], tokens: &[Token]) -> Result<Option<Part>, AllocError>
    requires few { length tokens.now ≤ 1048576 }
    ensures { IfOk result (λ part. MatchOption part ((p : PartSyntax) → ¬ IsWritten text.now tokens.now p)
        (λ p. IsWritten text.now tokens.now (part_syntax p))) }
{
    let label = label_of(alloc, text)?;
    with_unit(alloc, label, None, tokens)
}

/// The text as a label.
fn label_of(alloc: Global, text: &[u8]) -> Result<Name, AllocError>
    ensures { IfOk result (λ label. label ≡ one_space_each text.now) }
{
    let label = one_space_each(alloc, text)?;
    Name::from_slice(alloc, &label)
}

/// The part NAME=NUMBER<unit>: its label is the name.
fn sized_part(alloc: Global, tokens: &[Token]) -> Result<Option<Part>, AllocError>
    requires few { length tokens.now ≤ 1048576 }
    ensures { IfOk result (λ part. MatchOption part ((p : PartSyntax) → ¬ IsSized tokens.now p)
        (λ p. IsSized tokens.now (part_syntax p))) }
{
    let [name, equal, number, less, inside @ .., greater] = tokens else {
        return Ok(None);
    };
    if are_marks(equal, less, greater) {
        named_part(alloc, name, number, inside)
    } else {
        Ok(None)
    }
}

/// Whether these are `=`, a `<` directly after what stands before it, and `>`.
fn are_marks(equal: &Token, less: &Token, greater: &Token) -> bool
    ensures { result ≡ are_marks equal.now less.now greater.now }
{
    is_equal(&equal.kind) && is_less(&less.kind) && less.glued && is_greater(&greater.kind)
}

fn is_equal(kind: &Kind) -> bool
    ensures { result ≡ is_equal kind.now }
{
    matches!(kind, Kind::Sign(Symbol::Equal))
}

fn is_less(kind: &Kind) -> bool
    ensures { result ≡ is_less kind.now }
{
    matches!(kind, Kind::Sign(Symbol::Less))
}

fn is_greater(kind: &Kind) -> bool
    ensures { result ≡ is_greater kind.now }
{
    matches!(kind, Kind::Sign(Symbol::Greater))
}

/// The part of this name, number and unit text, if they are such.
fn named_part(
    alloc: Global,
    name: &Token,
    number: &Token,
    inside: &[Token],
) -> Result<Option<Part>, AllocError>
    requires few { length inside.now ≤ 1048576 }
    ensures { IfOk result (λ part. MatchOption part ((p : PartSyntax) → ¬ IsNamed name.now number.now inside.now p)
        (λ p. IsNamed name.now number.now inside.now (part_syntax p))) }
{
    let Some(size) = positive_in(&number.kind) else {
        return Ok(None);
    };
    let Some(letters) = name_in(&name.kind) else {
        return Ok(None);
    };
    let label = Name::from_slice(alloc, letters)?;
    with_unit(alloc, label, Some(size), inside)
}

/// The number, if it is one above 0.
fn positive_in(kind: &Kind) -> Option<Frac>
    ensures { result ≡ positive_in kind.now }
{
    match kind {
        Kind::Number { value, .. } if value.num() >= 1 => Some(*value),
        _ => None,
    }
}

/// The letters, if it is a name.
fn name_in(kind: &Kind) -> Option<&[u8]>
    ensures { option_map (λ letters. letters.now) result ≡ name_in kind.now }
{
    match kind {
        Kind::Name(letters) => Some(letters.as_slice()),
        _ => None,
    }
}

/// The part with this label and this size, if the tokens are a unit text.
fn with_unit(
    alloc: Global,
    label: Name,
    size: Option<Frac>,
    tokens: &[Token],
) -> Result<Option<Part>, AllocError>
    requires few { length tokens.now ≤ 1048576 }
    ensures { IfOk result (λ part. MatchOption part ((u : UnitSyntax) → ¬ IsLowUnit tokens.now u)
        (λ p. IsLowUnit tokens.now (unit_syntax p.unit) × (p.label ≡ label) × (p.size ≡ size))) }
{
    match low_unit(alloc, tokens) {
        Ok(Some(unit)) => Ok(Some(Part { label, size, unit })),
        Ok(None) => {
            drop(label);
            Ok(None)
        }
        Err(error) => {
            drop(label);
            Err(error)
        }
    }
}

/// The unit text that the tokens are, if they are one of height at most 400.
fn low_unit(alloc: Global, tokens: &[Token]) -> Result<Option<RawUnit>, AllocError>
    requires few { length tokens.now ≤ 1048576 }
    ensures { IfOk result (λ unit. MatchOption unit ((u : UnitSyntax) → ¬ IsLowUnit tokens.now u)
        (λ unit. IsLowUnit tokens.now (unit_syntax unit))) }
{
    match parse_unit(alloc, tokens, 0, tokens.len() as u32) {
        Ok((unit, stop)) => Ok(if_whole(unit, stop as usize == tokens.len())),
        Err(ParseStop::Syntax { at: _ }) => Ok(None),
        Err(ParseStop::Limit { kind: _, at: _ }) => Ok(None),
        Err(ParseStop::NoMemory) => Err(AllocError),
    }
}

/// The unit text, if it is whole.
fn if_whole(unit: RawUnit, whole: bool) -> Option<RawUnit>
    ensures { option_map unit_syntax result ≡ cond whole (Some (unit_syntax unit)) None }
{
    if whole {
        Some(unit)
    } else {
        drop(unit);
        None
    }
}
