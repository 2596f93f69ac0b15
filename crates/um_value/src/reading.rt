// The loop over the tokens of a value text.
ghost use Rattle.std.specs.Prelude.{◌≡◌, ◌≤◌, Err, IfOk, map};
ghost use Rattle.um_tree.specs.Formed.{IsFormed};
ghost use Rattle.um_tree.specs.TypeTree.{shape_tree};
ghost use Rattle.um_tree.specs.ProgramTree.{record_tree, program_tree};
ghost use Rattle.um_unit_texts.specs.UnitStops.{greatest_height};
ghost use Rattle.um_value.specs.ValueGrammar.{IsShapeIn};
ghost use Rattle.um_value.specs.ValueMachine.{value_least, machine_of_values};
ghost use Rattle.um_value.specs.ValueView.{value_state, ValueTakes};
ghost use Rattle.um_value.specs.ReadingParts.{RunAt, IsRawOf};

use crate::raw::RawValue;
use crate::reader::ValueReader;
use crate::stop::InputStop;
use std::alloc::{AllocError, Global};
use um_reader::Taken;
use um_syntax::{Token, Tokens};
use um_tree::{Program, Record, Shape};

// Nothing more is read.
fn stopped<'a>(reader: ValueReader<'a>, stop: InputStop) -> Result<RawValue, InputStop>
    ensures { result ≡ Err stop }
{
    drop(reader);
    Err(stop)
}

// One token more, which is let go then: its memory serves the names of the value text.
fn take_token<'a>(
    alloc: Global,
    records: &'a [Record],
    reader: &mut ValueReader<'a>,
    token: Token,
) -> Result<Taken, AllocError>
    requires low { value_least (value_state reader.old) ≤ greatest_height }
    ensures { IfOk result (λ t. ValueTakes (map record_tree records.now) (value_state reader.old) token t
        (value_state reader.new)) }
{
    let mut token = token;
    let taken = reader.take(alloc, records, &mut token);
    drop(token);
    taken
}

// Reads all tokens.
fn run<'a>(
    alloc: Global,
    records: &'a [Record],
    shape: &'a Shape,
    tokens: Tokens,
    end: u32,
) -> Result<RawValue, InputStop>
    ensures { RunAt (machine_of_values (map record_tree records.now) (shape_tree shape.now)) tokens end result }
{
    let mut reader = ValueReader::new(alloc, shape);
    for token in tokens.into_vec() {
        let at = token.start;
        match take_token(alloc, records, &mut reader, token) {
            Ok(Taken::Goes) => {}
            Ok(Taken::Stops) => return stopped(reader, InputStop::Shape { at }),
            Ok(Taken::High) => return stopped(reader, InputStop::Shape { at }),
            Err(_) => return stopped(reader, InputStop::NoMemory),
        }
    }
    match reader.finish() {
        Some(value) => Ok(value),
        None => Err(InputStop::Shape { at: end }),
    }
}

/// The value text of the shape that the tokens are, or the place from which on they are none.
///
/// `end` is the length of the text in bytes.
pub(crate) fn read_raw(
    alloc: Global,
    program: &Program,
    shape: &Shape,
    tokens: Tokens,
    end: u32,
) -> Result<RawValue, InputStop>
    requires formed { IsFormed (program_tree program.now) }
    requires shape { IsShapeIn (program_tree program.now).records (shape_tree shape.now) }
    ensures { IsRawOf (program_tree program.now).records (shape_tree shape.now) tokens end result }
{
    run(alloc, &program.records.items, shape, tokens, end)
}
