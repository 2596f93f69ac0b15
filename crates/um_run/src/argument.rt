//! Arguments, read at the shapes of a function's parameters.
ghost use Rattle.std.specs.Prelude.{◌≡◌, ◌≤◌, ℕ, All, List, length, map, string_bytes};
ghost use Rattle.um_tree.specs.TypeTree.{shape_tree};
ghost use Rattle.um_tree.specs.ValueTree.{input_tree};
ghost use Rattle.um_tree.specs.Formed.{IsFormed};
ghost use Rattle.um_value.specs.ValueGrammar.{IsShapeIn};
ghost use Rattle.um_run.specs.Reading.{IsArgumentRefused, IsArgumentAdded, AreArgumentsRead, known_names};

use crate::CallRefusal;
use crate::known::Known;
use um_tree::{Input, Inputs, Shape};
use um_value::{InputStop, read_known_value};

/// The inputs that the texts are, one at each shape, or the first that is refused.
pub(crate) fn read_arguments(
    known: &Known,
    shapes: &[Shape],
    texts: &[String],
) -> Result<Inputs, CallRefusal>
    requires formed { IsFormed (known_names known.now).program }
    requires shapes { All (IsShapeIn (known_names known.now).program.records) (map shape_tree shapes.now) }
    requires count { length texts.now ≡ length shapes.now }
    requires few { length texts.now ≤ 16 }
    requires short { All (λ (text : List ℕ). length text ≤ 1048576) (map string_bytes texts.now) }
    ensures { AreArgumentsRead (known_names known.now) (map shape_tree shapes.now) (map string_bytes texts.now) result }
{
    let mut items = Vec::new(known.alloc);
    for k in 0..texts.len() {
        let text = texts[k].as_str();
        match add_argument(known, &shapes[k], k as u32, text, &mut items) {
            Ok(()) => {}
            Err(refusal) => {
                drop(items);
                return Err(refusal);
            }
        }
    }
    Ok(Inputs { items })
}

/// Adds the input that the text of argument `k` is.
fn add_argument(
    known: &Known,
    shape: &Shape,
    k: u32,
    text: &str,
    inputs: &mut Vec<Input>,
) -> Result<(), CallRefusal>
    requires formed { IsFormed (known_names known.now).program }
    requires shape { IsShapeIn (known_names known.now).program.records (shape_tree shape.now) }
    requires short { length text.now ≤ 1048576 }
    ensures { IsArgumentAdded (known_names known.now) (shape_tree shape.now) text.now k
        (map input_tree inputs.old.items) (map input_tree inputs.new.items) result }
{
    match read_known_value(known.alloc, text, shape, known.names) {
        Ok(input) => Ok(inputs.push(input)?),
        Err(stop) => Err(refusal_of(k, stop)),
    }
}

/// The refusal of argument `k`.
fn refusal_of(k: u32, stop: InputStop) -> CallRefusal
    ensures { IsArgumentRefused k stop result }
{
    match stop {
        InputStop::NoMemory => CallRefusal::NoMemory,
        InputStop::Text { at: _ }
        | InputStop::Shape { at: _ }
        | InputStop::Names { at: _ }
        | InputStop::PowerRange { at: _ } => CallRefusal::Argument { index: k, stop },
    }
}
