//! The signature of a text.

ghost use Rattle.std.specs.Prelude.{◌≤◌, length, IfOk};
ghost use Rattle.std.specs.Str.{chars};
ghost use Rattle.um_tree.specs.ProgramTree.{program_tree};
ghost use Rattle.um_tree.specs.RawTree.{type_syntaxes};
ghost use Rattle.um_tree.specs.Formed.{IsFormed};
ghost use Rattle.um_measures.specs.ClosedUnits.{given};
ghost use Rattle.um_sig.specs.SignatureNames.{resolved_signature};
ghost use Rattle.um_sig.specs.Reading.{IsRead, AreClosedUnits, IsSignatureIn};
ghost use Rattle.um_sig.specs.ReadingSteps.{AreTokens, IsParsed, IsNamed};

use crate::signature::Signature;
use crate::stop::SigText;
use crate::types::types_of;
use std::alloc::Global;
use um_measures::{Abbreviations, NameStop};
use um_syntax::{LexStop, Tokens, lex};
use um_tree::{Program, RawTypes};
use um_types::{ParseStop, parse_types};

/// The tokens of the text.
fn tokens_of(alloc: Global, text: &str) -> Result<Tokens, SigText>
    requires { length text.now ≤ 1048576 }
    ensures { AreTokens (chars text.now) result }
{
    match lex(alloc, text) {
        Ok(tokens) => Ok(tokens),
        Err(LexStop::BadChar { at }) => Err(SigText::Text { at }),
        Err(LexStop::NumberRange { at }) => Err(SigText::Text { at }),
        Err(LexStop::PowerText { at }) => Err(SigText::Text { at }),
        Err(LexStop::NoMemory) => Err(SigText::NoMemory),
    }
}

/// The types of the tokens, as they are written.
fn parsed(alloc: Global, tokens: Tokens, end: u32) -> Result<RawTypes, SigText>
    ensures { IsParsed tokens end result }
{
    let types = parse_types(alloc, tokens.as_slice(), end);
    drop(tokens);
    match types {
        Ok(types) => Ok(types),
        Err(ParseStop::Syntax { at }) => Err(SigText::Syntax { at }),
        Err(ParseStop::Limit { kind: _, at }) => Err(SigText::Height { at }),
        Err(ParseStop::NoMemory) => Err(SigText::NoMemory),
    }
}

/// The signature of types as they are written.
fn named(
    alloc: Global,
    program: &Program,
    abbreviations: &Abbreviations,
    raw: &RawTypes,
) -> Result<Signature, SigText>
    requires formed { IsFormed (program_tree program.now) }
    ensures { IsNamed (resolved_signature (given (program_tree program.now) abbreviations.now) (type_syntaxes raw.now))
        result }
{
    match types_of(alloc, program, abbreviations, raw) {
        Ok((types, vars)) => Ok(Signature { types, vars }),
        Err(NameStop::Unknown { at }) => Err(SigText::Names { at }),
        Err(NameStop::WrongCount { at }) => Err(SigText::Names { at }),
        Err(NameStop::Hole { at }) => Err(SigText::Names { at }),
        Err(NameStop::Range { at }) => Err(SigText::PowerRange { at }),
        Err(NameStop::Twice { at: _ }) => unreachable!(),
        Err(NameStop::NoMemory) => Err(SigText::NoMemory),
    }
}

/// The signature of a text: types with `->` between two of them, the result's last, as in `num<'a> -> num<m> -> bool`.
///
/// Measures and records are those of the program and the abbreviations. Each unit variable is known, and variables are
/// numbered by first occurrence. If the units of the abbreviations are closed, the types are over the declared base
/// units, these variables and the declared records.
///
/// # Errors
///
/// The first of these that there is; `NoMemory` may come with any text.
///
/// - `Text` at the leftmost character or number of which no token can be made.
/// - `Syntax` at the first token through which the tokens begin no signature text, or at the text's end; `Height` at
///   the first token through which no signature text begins in which each type and each unit text, by itself, is at
///   most 400 high. The one further left is answered.
/// - `Names` at the first measure or record that isn't known, name of a record with another number of units than
///   declared, or `_`.
/// - `PowerRange` at the first token of the first unit text of which a part has a power outside
///   -2147483647..2147483647.
pub fn read_signature(
    alloc: Global,
    text: &str,
    program: &Program,
    abbreviations: &Abbreviations,
) -> Result<Signature, SigText>
    requires short { length text.now ≤ 1048576 }
    requires formed { IsFormed (program_tree program.now) }
    ensures read { IsRead (program_tree program.now) abbreviations.now (chars text.now) (length text.now) result }
    ensures formed { AreClosedUnits (length (program_tree program.now).bases) abbreviations.now
        → IfOk result (IsSignatureIn (program_tree program.now)) }
    ensures few { IfOk result (λ signature. signature.vars ≤ 1048576) }
{
    let tokens = tokens_of(alloc, text)?;
    let raw = parsed(alloc, tokens, text.len() as u32)?;
    let signature = named(alloc, program, abbreviations, &raw);
    drop(raw);
    signature
}
