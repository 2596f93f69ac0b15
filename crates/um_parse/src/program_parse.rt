// Parsing a program, with the places of its refusals in the text.
ghost use Rattle.std.specs.Prelude.{◌≡◌, ◌+◌, ◌<◌, ◌≤◌, ◌^◌, true, ◌++◌, [], IfOk, Err, length, drop};
ghost use Rattle.um_tree.specs.RawTree.{program_syntax};
ghost use Rattle.um_reader.specs.ReadTo.{ReadAll};
ghost use Rattle.um_unit_texts.specs.UnitStops.{greatest_height};
ghost use Rattle.um_parse.specs.DeclGrammar.{IsProgram};
ghost use Rattle.um_parse.specs.ProgramHeights.{program_height};
ghost use Rattle.um_parse.specs.ProgramNodes.{program_nodes};
ghost use Rattle.um_parse.specs.Spaced.{Spaced};
ghost use Rattle.um_parse.specs.Parsed.{Parsed, ReadAt, Limited};

use crate::limits::first_passed;
use crate::places::Places;
use crate::program_reader::ProgramReader;
use std::alloc::Global;
use um_reader::{ReadStop, Reader, Taken, read_all};
use um_syntax::{Blocks, Token, TokenBlocks};
use um_tree::RawProgram;
use um_types::{LimitKind, ParseStop};
use um_unit_texts::place;

// The program, if it passes no limit besides its height. `end` is the length of the text.
fn limited(program: RawProgram, end: u32, spaced: bool) -> Result<RawProgram, ParseStop>
    requires few { program_nodes (program_syntax program) < 2 ^ 32 }
    requires spaced { spaced ≡ true → Spaced (program_syntax program) end }
    ensures { Limited (program_syntax program) result }
{
    match first_passed(&program.items, end, spaced) {
        Some(passed) => {
            program.discard();
            Err(ParseStop::Limit {
                kind: passed.kind,
                at: passed.at,
            })
        }
        None => Ok(program),
    }
}

// The program that the tokens are, whatever its other limits.
fn read_program(alloc: Global, tokens: &[Token]) -> Result<RawProgram, ReadStop>
    ensures { ReadAll IsProgram program_height greatest_height program_syntax tokens.now result }
{
    read_all::<ProgramReader>(alloc, tokens)
}

/// The program that the tokens are, as it is written. `end` is the length of the text in bytes.
///
/// The height of a program is the greatest of the heights of its expressions, type texts and unit texts, each by
/// itself. The other limits are 2,000 functions, 16 parameters of a function, 32 fields of a record, 4 unit parameters
/// of a record or a function, and 20,000 nodes of a body. The grammar is that of F# for the forms that this language
/// has.
///
/// # Errors
///
/// The one of the first two whose place is further left; `NoMemory` may come with any tokens.
///
/// - `Syntax` at the first token such that the tokens before it begin a program and those through it begin none; at
///   `end` if all tokens begin one and are none.
/// - `Limit` with `Height` at the first token through which the tokens begin a program and none of height at most 400.
/// - `Limit` with `Functions`, `Parameters`, `Fields`, `UnitParameters` or `Nodes` if the tokens are a program whose
///   height is at most 400, at the name of the first declaration that passes one of these limits. They are tried in
///   this order.
pub fn parse(alloc: Global, tokens: &[Token], end: u32) -> Result<RawProgram, ParseStop>
    requires text { length tokens.now ≤ end }
    ensures parsed { Parsed tokens.now end result }
{
    match read_program(alloc, tokens) {
        Ok(program) => limited(program, end, false),
        Err(ReadStop::Syntax(k)) => {
            Err(ParseStop::Syntax {
                at: place(tokens, k, end),
            })
        }
        Err(ReadStop::High(k)) => Err(ParseStop::Limit {
            kind: LimitKind::Height,
            at: place(tokens, k, end),
        }),
        Err(ReadStop::NoMemory) => Err(ParseStop::NoMemory),
    }
}

/// A program, and whether it is known that each function has room for its nodes in the text.
#[derive(Drop)]
pub(crate) struct ReadProgram {
    pub program: RawProgram,
    pub spaced: bool,
}

// Nothing more is read.
fn stopped(
    reader: ProgramReader,
    blocks: Blocks,
    block: Vec<Token>,
    stop: ParseStop,
) -> Result<ReadProgram, ParseStop>
    ensures { result ≡ Err stop }
{
    drop(reader);
    drop(blocks);
    drop(block);
    Err(stop)
}

// Goes on after a token of the block: in the block, or in the next one if the block has no more. Answers how many
// tokens of it are read.
#[inline(always)]
fn after(blocks: &mut Blocks, block: &mut Vec<Token>, k: usize) -> usize
    requires { k < length block.old.items }
    ensures unread { drop (k + 1) block.old.items ++ blocks.old ≡ drop result block.new.items ++ blocks.new }
    ensures all { length block.new.items ≤ result → blocks.new ≡ [] }
{
    if k + 1 < block.len() {
        return k + 1;
    }
    *block = blocks.next_block();
    0
}

// The program that these tokens are, whatever its other limits.
fn read_tokens(alloc: Global, tokens: TokenBlocks, end: u32) -> Result<ReadProgram, ParseStop>
    ensures { ReadAt tokens end result }
{
    let mut reader = ProgramReader::new(alloc);
    let mut places = Places::none();
    let mut blocks = tokens.into_blocks();
    let mut block = blocks.next_block();
    let mut k = 0;
    while k < block.len() {
        let token = &mut block[k];
        let at = token.start;
        places.add(at);
        match reader.take(alloc, token) {
            Ok(Taken::Goes) => {}
            Ok(Taken::Stops) => return stopped(reader, blocks, block, ParseStop::Syntax { at }),
            Ok(Taken::High) => {
                let kind = LimitKind::Height;
                return stopped(reader, blocks, block, ParseStop::Limit { kind, at });
            }
            Err(_) => return stopped(reader, blocks, block, ParseStop::NoMemory),
        }
        k = after(&mut blocks, &mut block, k);
    }
    drop(block);
    drop(blocks);
    let spaced = places.rise_to(end);
    match reader.finish(alloc) {
        Ok(Some(program)) => Ok(ReadProgram { program, spaced }),
        Ok(None) => Err(ParseStop::Syntax { at: end }),
        Err(_) => Err(ParseStop::NoMemory),
    }
}

/// The program that the tokens are, as [`parse`] gives it, and with its errors. The tokens are handed over: a name
/// moves from its token to the program.
pub fn parse_tokens(alloc: Global, tokens: TokenBlocks, end: u32) -> Result<RawProgram, ParseStop>
    requires text { length tokens ≤ end }
    ensures parsed { Parsed tokens end result }
{
    let ReadProgram { program, spaced } = read_tokens(alloc, tokens, end)?;
    limited(program, end, spaced)
}
