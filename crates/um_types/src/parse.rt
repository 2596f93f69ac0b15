// What the grammar reads, with its places in the text.
ghost use Rattle.std.specs.Prelude.{◌≤◌, length};
ghost use Rattle.um_tree.specs.RawTree.{unit_syntax, type_syntaxes};
ghost use Rattle.um_tree.specs.Heights.{unit_height};
ghost use Rattle.um_reader.specs.ReadTo.{ReadTo, ReadAll};
ghost use Rattle.um_unit_texts.specs.UnitGrammar.{IsUnit};
ghost use Rattle.um_unit_texts.specs.UnitStops.{greatest_height};
ghost use Rattle.um_types.specs.TypeHeights.{all_height};
ghost use Rattle.um_types.specs.SignatureGrammar.{IsSignature};
ghost use Rattle.um_types.specs.UnitParsed.{Parsed};
ghost use Rattle.um_types.specs.SignatureParsed.{SignatureParsed};

use crate::signature_reader::SignatureReader;
use std::alloc::Global;
use thiserror::Error;
use um_reader::{ReadStop, read, read_all};
use um_syntax::Token;
use um_tree::{RawTypes, RawUnit};
use um_unit_texts::{UnitReader, place};

/// A limit of the language.
#[derive(Clone, Copy, Debug)]
pub enum LimitKind {
    Height,
    Functions,
    Parameters,
    Fields,
    UnitParameters,
    Nodes,
    Depth,
    Slots,
}

/// Why tokens are refused, with the place.
#[derive(Clone, Copy, Debug, Error)]
pub enum ParseStop {
    #[error("no text of the grammar begins so, at {at}")]
    Syntax { at: u32 },
    #[error("a limit is passed at {at}")]
    Limit { kind: LimitKind, at: u32 },
    #[error("out of memory")]
    NoMemory,
}

// The unit text up to the stop, and the number of the stop.
fn read_unit(alloc: Global, tokens: &[Token]) -> Result<(RawUnit, usize), ReadStop>
    ensures { ReadTo IsUnit unit_height greatest_height unit_syntax tokens.now result }
{
    read::<UnitReader>(alloc, tokens)
}

// The types of a signature text.
fn read_signature(alloc: Global, tokens: &[Token]) -> Result<RawTypes, ReadStop>
    ensures { ReadAll IsSignature all_height greatest_height type_syntaxes tokens.now result }
{
    read_all::<SignatureReader>(alloc, tokens)
}

/// The unit text that begins at the token of number `from`, and the number of its stop, counted from 0.
///
/// The stop is the first token such that the tokens through it begin no unit text, or the end. `end` is the length of
/// the text.
pub fn parse_unit(
    alloc: Global,
    tokens: &[Token],
    from: u32,
    end: u32,
) -> Result<(RawUnit, u32), ParseStop>
    requires from { from ≤ length tokens.now }
    requires text { length tokens.now ≤ end }
    ensures parsed { Parsed tokens.now from end result }
{
    let rest = &tokens[from as usize..];
    match read_unit(alloc, rest) {
        Ok((unit, k)) => Ok((unit, (from as usize + k) as u32)),
        Err(ReadStop::Syntax(k)) => Err(ParseStop::Syntax {
            at: place(rest, k, end),
        }),
        Err(ReadStop::High(k)) => Err(ParseStop::Limit {
            kind: LimitKind::Height,
            at: place(rest, k, end),
        }),
        Err(ReadStop::NoMemory) => Err(ParseStop::NoMemory),
    }
}

/// The types of a signature text: type texts with `->` between two of them, at least one.
///
/// `end` is the length of the text in bytes. The heights of a signature text are those of its types and of the unit
/// texts in them, each by itself.
///
/// # Errors
///
/// The one of these two whose place is further left; `NoMemory` may come with any tokens.
///
/// - `Syntax` at the first token such that the tokens before it begin a signature text and those through it begin none;
///   at `end` if all tokens begin one and are none.
/// - `Limit` with `Height` at the first token through which the tokens begin a signature text and none in which no
///   height is above 400.
pub fn parse_types(alloc: Global, tokens: &[Token], end: u32) -> Result<RawTypes, ParseStop>
    ensures parsed { SignatureParsed tokens.now end result }
{
    match read_signature(alloc, tokens) {
        Ok(types) => Ok(types),
        Err(ReadStop::Syntax(k)) => Err(ParseStop::Syntax {
            at: place(tokens, k, end),
        }),
        Err(ReadStop::High(k)) => Err(ParseStop::Limit {
            kind: LimitKind::Height,
            at: place(tokens, k, end),
        }),
        Err(ReadStop::NoMemory) => Err(ParseStop::NoMemory),
    }
}
