// Arguments as a user writes them.
ghost use Rattle.std.specs.Prelude.{◌≡◌, ◌≤◌, ℕ, All, IfOk, List, length};
ghost use Rattle.um_tree.specs.Formed.{IsFormed, IsUnitIn, IsFormedInput};
ghost use Rattle.um_tree.specs.InputType.{ValueHas};
ghost use Rattle.um_tree.specs.ValueTree.{input_tree, without_units};
ghost use Rattle.um_tree.specs.TypeTree.{shape_tree};
ghost use Rattle.um_tree.specs.ProgramTree.{program_tree};
ghost use Rattle.um_measures.specs.Known.{short_unit, measure_unit};
ghost use Rattle.um_measures.specs.declared.abbreviation.Abbreviation.{Abbreviation};
ghost use Rattle.um_measures.specs.ClosedUnits.{given};
ghost use Rattle.um_value.specs.ValueSyntax.{value_syntax};
ghost use Rattle.um_value.specs.ValueGrammar.{IsShapeIn};
ghost use Rattle.um_value.specs.InputRead.{IsInputOf};
ghost use Rattle.um_value.specs.KnownNames.{known_in};
ghost use Rattle.um_value.specs.ReadingParts.{IsLexed, IsNamed};

use crate::inputs::input_of;
use crate::known::KnownNames;
use crate::names::name_fault;
use crate::raw::RawValue;
use crate::reading::read_raw;
use crate::stop::InputStop;
use std::alloc::Global;
use um_measures::{Abbreviations, Measures, measures_of};
use um_syntax::{LexStop, Tokens, lex};
use um_tree::{Input, Program, Shape};

// The tokens of a text.
fn tokens_of(alloc: Global, text: &str) -> Result<Tokens, InputStop>
    requires { length text.now ≤ 1048576 }
    ensures { IsLexed text.now result }
{
    match lex(alloc, text) {
        Ok(tokens) => Ok(tokens),
        Err(LexStop::BadChar { at }) => Err(InputStop::Text { at }),
        Err(LexStop::NumberRange { at }) => Err(InputStop::Text { at }),
        Err(LexStop::PowerText { at }) => Err(InputStop::Text { at }),
        Err(LexStop::NoMemory) => Err(InputStop::NoMemory),
    }
}

// The input of a value text: its names first, and then its ranges.
fn checked_input(alloc: Global, measures: &Measures, raw: &RawValue) -> Result<Input, InputStop>
    ensures { IsNamed (short_unit measures.now) (value_syntax raw.now) result }
{
    match name_fault(alloc, measures, raw) {
        Some(at) => Err(InputStop::Names { at }),
        None => input_of(alloc, measures, raw),
    }
}

/// The names of a program and its abbreviations, with the table that `um_measures::measures_of` makes of them. Takes no
/// memory.
pub fn known_names<'a>(
    program: &'a Program,
    abbreviations: &'a Abbreviations,
    measures: &'a Measures,
) -> KnownNames<'a>
    requires { (x : List ℕ) → short_unit measures.now x
        ≡ measure_unit (given (program_tree program.now) abbreviations.now) x }
    ensures { known_in result ≡ given (program_tree program.now) abbreviations.now }
{
    KnownNames {
        program,
        abbreviations,
        measures,
    }
}

// The same, with the measures of the names.
fn named_input(alloc: Global, known: &KnownNames, raw: &RawValue) -> Result<Input, InputStop>
    ensures { IsNamed (measure_unit (known_in known.now)) (value_syntax raw.now) result }
{
    checked_input(alloc, known.measures, raw)
}

/// The input of a shape that a text is, with names that are known.
///
/// As [`read_value`], which has the forms, the places and the errors; its time depends on the text and the shape alone.
pub fn read_known_value(
    alloc: Global,
    text: &str,
    shape: &Shape,
    known: &KnownNames,
) -> Result<Input, InputStop>
    requires short { length text.now ≤ 1048576 }
    requires formed { IsFormed (known_in known.now).program }
    requires shape { IsShapeIn (known_in known.now).program.records (shape_tree shape.now) }
    ensures exact { IsInputOf (known_in known.now) (shape_tree shape.now) text.now result }
    ensures shaped { IfOk result (λ input. ValueHas (known_in known.now).program.records
        (without_units (input_tree input)) (shape_tree shape.now)) }
    ensures formed { All (λ (short : Abbreviation). IsUnitIn (length (known_in known.now).program.bases) 0 short.unit)
        (known_in known.now).shorts
        → IfOk result (λ input. IsFormedInput (length (known_in known.now).program.bases) (input_tree input)) }
{
    let tokens = tokens_of(alloc, text)?;
    let raw = read_raw(alloc, known.program, shape, tokens, text.len() as u32)?;
    let input = named_input(alloc, known, &raw);
    drop(raw);
    input
}

/// The input of a shape that a text is.
///
/// A value text is, at `bool`, `true` or `false`; at `num` an optional `-`, a number, and optionally, directly after
/// it, `<`, a unit text or `_`, and `>`; at a list `[`, items separated by `;`, `]`, with no item allowed; at a record
/// `{`, its fields in the order of declaration as `f = A` separated by `;`, `}`. A number without a unit is
/// dimensionless. Measures stand for the first of their name among the program's base units and then the abbreviations.
/// The notes are those of F#'s measure annotations (F# specification, Units Of Measure); the other forms are this
/// project's own. Places are byte offsets.
///
/// # Errors
///
/// In this order; `NoMemory` may come with any text.
///
/// - `Text` at the leftmost place where the text has no tokens.
/// - `Shape` at the first token after which no value text of the shape continues whose unit texts are at most 400 high,
///   or at the text's end.
/// - `Names` at the first measure that isn't known, or number other than 0 with `<_>`; no unit variable is known.
/// - `PowerRange` at the first unit text of which some part has a power outside -2147483647..2147483647.
pub fn read_value(
    alloc: Global,
    text: &str,
    shape: &Shape,
    program: &Program,
    abbreviations: &Abbreviations,
) -> Result<Input, InputStop>
    requires short { length text.now ≤ 1048576 }
    requires formed { IsFormed (program_tree program.now) }
    requires shape { IsShapeIn (program_tree program.now).records (shape_tree shape.now) }
    ensures exact { IsInputOf (given (program_tree program.now) abbreviations.now) (shape_tree shape.now) text.now
        result }
    ensures shaped { IfOk result (λ input. ValueHas (program_tree program.now).records
        (without_units (input_tree input)) (shape_tree shape.now)) }
    ensures formed { All (λ (short : Abbreviation). IsUnitIn (length program.now.bases) 0 short.unit) abbreviations.now
        → IfOk result (λ input. IsFormedInput (length program.now.bases) (input_tree input)) }
{
    let measures = measures_of(alloc, program, abbreviations)?;
    let known = known_names(program, abbreviations, &measures);
    let input = read_known_value(alloc, text, shape, &known);
    drop(measures);
    input
}
